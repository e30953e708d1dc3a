//! What is asked about a dump, and the answer.
ghost use Rattle.std.specs.Prelude.{◌≡◌, [], IfOk, IfSome, string_bytes};
ghost use Rattle.report.specs.Reports.{ReportOf};
ghost use Rattle.report.specs.Told.{ReportToldOf};
ghost use Rattle.lenogneiss.specs.Printed.{event_room, Printed};

use program::reading::read_front;
use program::{DECIDING, STORAGE};
use report::told::overview::{told_answers, told_listing};
use report::told::partners::told_partners;
use report::told::races::{ReportTold, told_report};
use report::told::verdict::told_verdict;
use report::told::witness::told_witness;
use report::told::{Finding, Told};
use std::alloc::{AllocError, Global};
use std::io::Read;

/// A question about a dump.
#[derive(Drop)]
pub(crate) enum Question {
    Report,
    List,
    Judge(usize, usize),
    Witness(usize, usize),
    Partners(usize),
    Ask(usize, usize, Vec<u16>),
}

/// The text to print, what is to be said beside it, and what the answer finds.
#[derive(Drop)]
pub(crate) struct Answer {
    pub(crate) text: String,
    pub(crate) note: String,
    pub(crate) finding: Finding,
}

/// The race report, beside whose text stand the words of a refusal.
fn report(heap: Global, dump: &[u8]) -> Result<Answer, AllocError>
    ensures text { IfOk result (λ r. ReportOf event_room dump.now (string_bytes r.text)) }
    ensures told { IfOk result (λ r. ReportToldOf event_room dump.now (string_bytes r.note) r.finding) }
{
    let ReportTold { told, words: note } = told_report(heap, STORAGE, dump)?;
    let Told { text, finding } = told;
    Ok(Answer {
        text,
        note,
        finding,
    })
}

/// What is told, with nothing beside it.
fn alone(heap: Global, told: Told) -> Answer
    ensures text { result.text ≡ told.text }
    ensures note { string_bytes result.note ≡ [] }
    ensures finding { result.finding ≡ told.finding }
{
    Answer {
        text: told.text,
        note: String::new(heap),
        finding: told.finding,
    }
}

impl Question {
    /// The answer about a dump.
    pub(crate) fn answer(&self, heap: Global, dump: &[u8]) -> Result<Answer, AllocError>
        ensures { IfOk result (λ r. Printed self.now dump.now (string_bytes r.text) (string_bytes r.note) r.finding) }
    {
        let told = match self {
            Question::Report => return report(heap, dump),
            Question::List => told_listing(heap, STORAGE, dump),
            Question::Judge(p, q) => told_verdict(heap, STORAGE, dump, *p, *q),
            Question::Witness(p, q) => told_witness(heap, STORAGE, dump, *p, *q),
            Question::Partners(q) => told_partners(heap, STORAGE, dump, *q),
            Question::Ask(p, q, list) => {
                told_answers(heap, STORAGE, dump, *p, *q, list.as_slice())
            }
        }?;
        Ok(alone(heap, told))
    }

    /// The answer about the dump that a source has left, of which no more is read than decides.
    pub(crate) fn about<I: Read>(&self, heap: Global, source: &mut I) -> anyhow::Result<Answer>
        ensures { IfOk result (λ r. IfSome (I.remaining source.old) (λ dump.
            Printed self.now dump (string_bytes r.text) (string_bytes r.note) r.finding)) }
    {
        let front = read_front(heap, source, DECIDING)?;
        Ok(self.answer(heap, front.as_slice())?)
    }
}
