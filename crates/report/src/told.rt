//! What a person is told of a dump: a text, and what it finds. A refusal has words beside its number.
ghost use Rattle.std.specs.Prelude.{ℕ, List, [], IfOk, string_bytes};
ghost use Rattle.trace.specs.declared.event.Event.{Event};
ghost use Rattle.reel.specs.Stored.{room_for};
ghost use Rattle.report.specs.declared.told.Finding.{Finding};
ghost use Rattle.report.specs.Told.{ToldOf};

use crate::refusals::refused_record;
use reel::Reel;
use reel::host::HostReel;
use session::records::enter_records;
use session::session::Session;
use std::alloc::{AllocError, Global};

pub mod overview;
pub mod partners;
mod positions;
pub mod races;
pub mod verdict;
pub mod witness;

/// What an answer finds.
#[derive(Clone, Copy, PartialEq, Eq, Debug)]
pub enum Finding {
    /// The dump or the question is refused.
    Refused,
    /// There is a race.
    Race,
    /// There is no race, or it is not asked for.
    Nothing,
}

/// A text, and what it finds.
#[derive(Drop)]
pub struct Told {
    pub text: String,
    pub finding: Finding,
}

/// What is asked about a session.
pub(crate) trait Question {
    ghost Says: { Self → List Event → List ℕ → Finding → Type 0 };

    /// The answer.
    fn tell<R: Reel>(&self, heap: Global, session: &Session<R>) -> Result<Told, AllocError>
        ensures { IfOk result (λ r. Says self.now session.now.trace (string_bytes r.text) r.finding) };
}

/// The answer about the session that takes the records in `input` with `size` bytes to keep the events in, or the first refusal in words.
fn told_in<Q: Question>(
    heap: Global,
    size: usize,
    input: &[u8],
    question: &Q,
) -> Result<Told, AllocError>
    ensures { IfOk result (λ r. ToldOf (room_for size) input.now (Q.Question.Says question.now) (string_bytes r.text) r.finding) }
{
    let mut storage = vec![in heap; 0u8; size]?;
    let mut session = Session::open(HostReel::over(storage.as_mut_slice()));
    match enter_records(&mut session, input) {
        Ok(_) => question.tell(heap, &session),
        Err(refused) => Ok(Told {
            text: refused_record(heap, session.capacity(), input, &refused)?,
            finding: Finding::Refused,
        }),
    }
}
