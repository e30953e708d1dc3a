//! The race report, with what it finds and the words of a refusal beside it.
ghost use Rattle.std.specs.Prelude.{IfOk, string_bytes};
ghost use Rattle.reel.specs.Stored.{room_for};
ghost use Rattle.report.specs.Reports.{Reported, ReportOf};
ghost use Rattle.report.specs.Told.{FindsRaces, ReportToldOf};

use crate::listing::{EventsLine, refusal_line};
use crate::races::{PairLines, PairsLine, race_lines};
use crate::refusals::refused_record;
use crate::told::{Finding, Told};
use reel::Reel;
use reel::host::HostReel;
use session::records::enter_records;
use session::session::Session;
use std::alloc::{AllocError, Global};

/// The race report of a session's events, and whether it has a race.
pub fn race_report<R: Reel>(heap: Global, session: &Session<R>) -> Result<Told, AllocError>
    ensures { let t = session.now.trace in IfOk result (λ r. Reported t (string_bytes r.text) × FindsRaces t r.finding) }
{
    let events = EventsLine(session.count());
    let PairLines { text: races, count } = race_lines(heap, session)?;
    let finding = if count == 0 {
        Finding::Nothing
    } else {
        Finding::Race
    };
    let pairs = PairsLine(count);
    let text = format!(in heap; "{events}{races}{pairs}")?;
    Ok(Told { text, finding })
}

/// A report. Programs read its text, so the words of a refusal are apart.
#[derive(Drop)]
pub struct ReportTold {
    pub told: Told,
    pub words: String,
}

/// The race report of the records in `input`, or the line of the first that is refused and, apart, its words; with `size` bytes to keep the
/// events in.
pub fn told_report(heap: Global, size: usize, input: &[u8]) -> Result<ReportTold, AllocError>
    ensures text { IfOk result (λ r. ReportOf (room_for size) input.now (string_bytes r.told.text)) }
    ensures told { IfOk result (λ r. ReportToldOf (room_for size) input.now (string_bytes r.words) r.told.finding) }
{
    let mut storage = vec![in heap; 0u8; size]?;
    let mut session = Session::open(HostReel::over(storage.as_mut_slice()));
    match enter_records(&mut session, input) {
        Ok(_) => Ok(ReportTold {
            told: race_report(heap, &session)?,
            words: String::new(heap),
        }),
        Err(refused) => Ok(ReportTold {
            told: Told {
                text: refusal_line(heap, &refused)?,
                finding: Finding::Refused,
            },
            words: refused_record(heap, session.capacity(), input, &refused)?,
        }),
    }
}
