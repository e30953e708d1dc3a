//! The answers to the questions about two positions of a dump, a line each.
ghost use Rattle.std.specs.Prelude.{IfOk, Some, string_bytes};
ghost use Rattle.trace.specs.Faults.{told};
ghost use Rattle.answer.specs.Faults.{pair_number};
ghost use Rattle.session.specs.Questions.{Answers, Unordered, Schedulable, Vetted};
ghost use Rattle.report.specs.Answers.{answer_text, three_lines, Answered};

use answer::fault::PairFault;
use reel::Reel;
use session::session::Session;
use std::alloc::{AllocError, Global};
use std::fmt;
use trace::fault::Fault;

/// An answer in a word, or the number of the refusal.
#[derive(Clone, Copy)]
pub(crate) struct Answer(pub(crate) Result<bool, PairFault>);

impl fmt::Display for Answer {
    ghost output = { λ a. Some (answer_text (told pair_number a.0)) };

    fn fmt<W: fmt::Write>(&self, f: &mut fmt::Formatter<W>) -> fmt::Result {
        match self.0 {
            Ok(true) => f.write_str("yes"),
            Ok(false) => f.write_str("no"),
            Err(fault) => {
                let number = fault.number();
                write!(f, "refused {number}")
            }
        }
    }
}

/// The three answers, a line each.
#[derive(Clone, Copy)]
pub(crate) struct AnswerLines {
    pub(crate) unordered: Answer,
    schedulable: Answer,
    vet: Answer,
}

impl AnswerLines {
    /// The answers about p, q and a list, each of them asked for once.
    pub(crate) fn of<R: Reel>(session: &Session<R>, p: usize, q: usize, list: &[u16]) -> AnswerLines
        ensures unordered { let t = session.now.trace in Answers t p q (Unordered t p q) result.unordered.0 }
        ensures schedulable { let t = session.now.trace in Answers t p q (Schedulable t p q) result.schedulable.0 }
        ensures vet { let t = session.now.trace in Answers t p q (Vetted t p q list.now) result.vet.0 }
    {
        AnswerLines {
            unordered: Answer(session.unordered(p, q)),
            schedulable: Answer(session.schedulable(p, q)),
            vet: Answer(session.vet(p, q, list)),
        }
    }
}

impl fmt::Display for AnswerLines {
    ghost output = { λ a. Some (three_lines (answer_text (told pair_number a.unordered.0))
        (answer_text (told pair_number a.schedulable.0)) (answer_text (told pair_number a.vet.0))) };

    fn fmt<W: fmt::Write>(&self, f: &mut fmt::Formatter<W>) -> fmt::Result {
        let unordered = self.unordered;
        let schedulable = self.schedulable;
        let vet = self.vet;
        writeln!(
            f,
            "unordered {unordered}\nschedulable {schedulable}\nvet {vet}"
        )
    }
}

/// The answers to Unordered, Schedulable and Vet.
pub fn answers<R: Reel>(
    heap: Global,
    session: &Session<R>,
    p: usize,
    q: usize,
    list: &[u16],
) -> Result<String, AllocError>
    ensures { IfOk result (λ s. Answered session.now.trace p q list.now (string_bytes s)) }
{
    AnswerLines::of(session, p, q, list).to_string(heap)
}
