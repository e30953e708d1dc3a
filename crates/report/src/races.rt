//! The lines of racing pairs, and the line with their number.
ghost use Rattle.std.specs.Prelude.{◌≡◌, ◌≤◌, map, length, IfOk, Some, string_bytes};
ghost use Rattle.std.specs.List.{slice_get};
ghost use Rattle.session.specs.Races.{PartnersOf, pair};
ghost use Rattle.report.specs.Reports.{race_line, pairs_line, RaceLines, PartnerLines, SweepLines};

use reel::Reel;
use session::session::Session;
use std::alloc::{AllocError, Global};
use std::fmt;
use trace::event::Event;

/// The line of the racing pair of p and q, where `first` and `second` are the events there.
#[derive(Clone, Copy)]
struct RaceLine {
    p: usize,
    q: usize,
    first: Event,
    second: Event,
}

impl fmt::Display for RaceLine {
    ghost output = { λ l. Some (race_line l.p l.q l.first l.second) };

    fn fmt<W: fmt::Write>(&self, f: &mut fmt::Formatter<W>) -> fmt::Result {
        let p = self.p;
        let q = self.q;
        let earlier = self.first.site;
        let later = self.second.site;
        writeln!(f, "race {p} {q} sites {earlier} {later}")
    }
}

/// The text of that line.
pub fn race_line(
    heap: Global,
    p: usize,
    q: usize,
    first: &Event,
    second: &Event,
) -> Result<String, AllocError>
    ensures { IfOk result (λ s. string_bytes s ≡ race_line p q first.now second.now) }
{
    let line = RaceLine {
        p,
        q,
        first: *first,
        second: *second,
    };
    line.to_string(heap)
}

/// The line with the number of racing pairs.
#[derive(Clone, Copy)]
pub(crate) struct PairsLine(pub(crate) usize);

impl fmt::Display for PairsLine {
    ghost output = { λ l. Some (pairs_line l.0) };

    fn fmt<W: fmt::Write>(&self, f: &mut fmt::Formatter<W>) -> fmt::Result {
        let count = self.0;
        writeln!(f, "pairs {count}")
    }
}

/// The lines of racing pairs, and how many they are.
#[derive(Drop)]
pub(crate) struct PairLines {
    pub(crate) text: String,
    pub(crate) count: usize,
}

/// An event with its position.
#[derive(Clone, Copy)]
struct Placed {
    position: usize,
    event: Event,
}

/// The lines of the racing pairs of a later event with its partners.
fn pair_lines<R: Reel>(
    heap: Global,
    session: &Session<R>,
    later: Placed,
    partners: &[u16],
) -> Result<String, AllocError>
    requires later { slice_get session.now.trace later.position ≡ Some later.event }
    requires partners { PartnersOf session.now.trace later.position partners.now }
    ensures { IfOk result (λ s. RaceLines session.now.trace (map (λ p. pair p later.position) partners.now) (string_bytes s)) }
{
    let mut text = String::new(heap);
    for partner in partners {
        let p = usize::from(*partner);
        let Some(first) = session.event(p) else {
            unreachable!()
        };
        let line = RaceLine {
            p,
            q: later.position,
            first,
            second: later.event,
        };
        write!(text, "{line}")?;
    }
    Ok(text)
}

/// The lines of the racing pairs of a later event; its partners are gathered in the buffer, which has a place for each.
fn partner_lines<R: Reel>(
    heap: Global,
    session: &Session<R>,
    later: Placed,
    buffer: &mut [u16],
) -> Result<PairLines, AllocError>
    requires later { slice_get session.now.trace later.position ≡ Some later.event }
    requires places { length session.now.trace ≤ length buffer.old }
    ensures { IfOk result (λ r. PartnerLines session.now.trace later.position r.count (string_bytes r.text)) }
{
    let Ok(count) = session.partners(later.position, buffer) else {
        unreachable!()
    };
    let text = pair_lines(heap, session, later, &buffer[..count])?;
    Ok(PairLines { text, count })
}

/// The lines of a session's racing pairs, one later position after another, and how many they are.
pub(crate) fn race_lines<R: Reel>(
    heap: Global,
    session: &Session<R>,
) -> Result<PairLines, AllocError>
    ensures { IfOk result (λ r. SweepLines session.now.trace r.count (string_bytes r.text)) }
{
    let mut text = String::new(heap);
    let mut count = 0;
    let mut buffer = vec![in heap; 0u16; session.count()]?;
    for (position, event) in session.iter().enumerate() {
        let later = Placed { position, event };
        let lines = partner_lines(heap, session, later, buffer.as_mut_slice())?;
        text.push_str(lines.text.as_str())?;
        count += lines.count;
    }
    Ok(PairLines { text, count })
}
