//! The witness of two positions: how many positions it has, how far each thread runs to come to them, and the positions.
ghost use Rattle.std.specs.Prelude.{◌≡◌, ◌≤◌, length, IfOk, Some, string_bytes};
ghost use Rattle.std.specs.List.{slice_get};
ghost use Rattle.trace.specs.Limits.{threads};
ghost use Rattle.reel.specs.Stored.{room_for};
ghost use Rattle.report.specs.Told.{ToldOf};
ghost use Rattle.report.specs.Witnesses.{by_thread, last_of, run_line, run_lines, witness_text, finding_of, WitnessTold};

use crate::refusals::{Asked, refused_question};
use crate::told::positions::PositionsLine;
use crate::told::{Finding, Question, Told, told_in};
use answer::verdict::WitnessFault;
use reel::Reel;
use session::session::Session;
use std::alloc::{AllocError, Global};
use std::fmt;
use trace::limits::THREADS;

/// Whether the event at a position is one of the thread.
fn is_of<R: Reel>(session: &Session<R>, thread: u8, position: u16) -> bool
    ensures { result ≡ by_thread thread (slice_get session.now.trace position) }
{
    session
        .event(usize::from(position))
        .is_some_and(|event| event.thread == thread)
}

/// The last of the positions whose event is one of the thread.
fn last_of<R: Reel>(session: &Session<R>, thread: u8, positions: &[u16]) -> Option<u16>
    ensures { result ≡ last_of session.now.trace thread positions.now }
{
    positions.iter().fold(None, |last, position| {
        if is_of(session, thread, *position) {
            Some(*position)
        } else {
            last
        }
    })
}

/// How far a thread runs, if it runs.
#[derive(Clone, Copy)]
struct RunLine {
    thread: u8,
    last: Option<u16>,
}

impl fmt::Display for RunLine {
    ghost output = { λ l. Some (run_line l.thread l.last) };

    fn fmt<W: fmt::Write>(&self, f: &mut fmt::Formatter<W>) -> fmt::Result {
        let thread = self.thread;
        match self.last {
            None => Ok(()),
            Some(last) => writeln!(f, "thread {thread} up to and with event {last}"),
        }
    }
}

/// How far each thread runs to come to the positions.
#[derive(Drop)]
struct RunLines<'a, R: Reel> {
    session: &'a Session<R>,
    positions: &'a [u16],
}

impl<R: Reel> fmt::Display for RunLines<'_, R> {
    ghost output = { λ l. Some (run_lines l.session.now.trace l.positions.now threads) };

    fn fmt<W: fmt::Write>(&self, f: &mut fmt::Formatter<W>) -> fmt::Result {
        for thread in 0..THREADS {
            let last = last_of(self.session, thread, self.positions);
            RunLine { thread, last }.fmt(f)?;
        }
        Ok(())
    }
}

/// The text of a witness that has these positions.
fn witness_text<R: Reel>(
    heap: Global,
    session: &Session<R>,
    positions: &[u16],
) -> Result<String, AllocError>
    ensures { IfOk result (λ s. string_bytes s ≡ witness_text session.now.trace positions.now) }
{
    let count = positions.len();
    let runs = RunLines { session, positions };
    let line = PositionsLine(positions);
    format!(in heap; "witness {count}\n{runs}{line}")
}

/// What a refusal finds: nothing where the pair does not race.
fn finding_of(fault: WitnessFault) -> Finding
    ensures { result ≡ finding_of fault }
{
    match fault {
        WitnessFault::NoRace => Finding::Nothing,
        WitnessFault::Pair(_) | WitnessFault::Buffer(_) => Finding::Refused,
    }
}

/// The witness of p and q, whose positions are gathered in the buffer, or its refusal.
fn shown<R: Reel>(
    heap: Global,
    session: &Session<R>,
    asked: Asked,
    buffer: &mut [u16],
) -> Result<Told, AllocError>
    ensures { let t = session.now.trace in (asked.count ≡ length t → length t ≤ length buffer.old
        → IfOk result (λ r. WitnessTold t asked.p asked.q (string_bytes r.text) r.finding)) }
{
    let (text, finding) = match session.witness(asked.p, asked.q, buffer) {
        Ok(count) => (
            witness_text(heap, session, &buffer[..count])?,
            Finding::Race,
        ),
        Err(fault) => (refused_question(heap, asked, fault)?, finding_of(fault)),
    };
    Ok(Told { text, finding })
}

/// The question for a witness of p and q.
#[derive(Clone, Copy)]
struct Show {
    p: usize,
    q: usize,
}

impl Question for Show {
    ghost Says = { λ it t s f. WitnessTold t it.p it.q s f };

    fn tell<R: Reel>(&self, heap: Global, session: &Session<R>) -> Result<Told, AllocError> {
        let Show { p, q } = *self;
        let count = session.count();
        let mut buffer = vec![in heap; 0u16; count]?;
        shown(heap, session, Asked { count, p, q }, buffer.as_mut_slice())
    }
}

/// The witness of p and q of the records in `input`, and how far each thread runs to come to it; or the refusal in words.
pub fn told_witness(
    heap: Global,
    size: usize,
    input: &[u8],
    p: usize,
    q: usize,
) -> Result<Told, AllocError>
    ensures { IfOk result (λ r. ToldOf (room_for size) input.now (λ t s f. WitnessTold t p q s f) (string_bytes r.text) r.finding) }
{
    told_in(heap, size, input, &Show { p, q })
}
