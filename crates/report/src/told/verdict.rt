//! The verdict on two positions.
ghost use Rattle.std.specs.Prelude.{IfOk, string_bytes};
ghost use Rattle.reel.specs.Stored.{room_for};
ghost use Rattle.report.specs.Told.{ToldOf, VerdictTold};

use crate::refusals::{Asked, refused_question};
use crate::told::{Finding, Question, Told, told_in};
use answer::verdict::{Verdict, WitnessFault};
use reel::Reel;
use session::session::Session;
use std::alloc::{AllocError, Global};

/// The question whether the events at p and q race.
#[derive(Clone, Copy)]
struct Judge {
    p: usize,
    q: usize,
}

impl Question for Judge {
    ghost Says = { λ it t s f. VerdictTold t it.p it.q s f };

    fn tell<R: Reel>(&self, heap: Global, session: &Session<R>) -> Result<Told, AllocError> {
        let Judge { p, q } = *self;
        let count = session.count();
        let (text, finding) = match session.judge(p, q) {
            Ok(Verdict::Race) => (String::from_str(heap, "race\n")?, Finding::Race),
            Ok(Verdict::NoRace) => (String::from_str(heap, "no race\n")?, Finding::Nothing),
            Err(fault) => (
                refused_question(heap, Asked { count, p, q }, WitnessFault::from(fault))?,
                Finding::Refused,
            ),
        };
        Ok(Told { text, finding })
    }
}

/// Whether the events at p and q of the records in `input` race, in words; or the refusal in words.
pub fn told_verdict(
    heap: Global,
    size: usize,
    input: &[u8],
    p: usize,
    q: usize,
) -> Result<Told, AllocError>
    ensures { IfOk result (λ r. ToldOf (room_for size) input.now (λ t s f. VerdictTold t p q s f) (string_bytes r.text) r.finding) }
{
    told_in(heap, size, input, &Judge { p, q })
}
