//! The listing, and the answers to the questions about orders.
ghost use Rattle.std.specs.Prelude.{IfOk, string_bytes};
ghost use Rattle.reel.specs.Stored.{room_for};
ghost use Rattle.report.specs.Told.{ToldOf, ListingTold, AnswersTold};

use crate::listing::listing;
use crate::questions::AnswerLines;
use crate::told::{Finding, Question, Told, told_in};
use reel::Reel;
use session::session::Session;
use std::alloc::{AllocError, Global};

/// The events.
#[derive(Clone, Copy)]
struct Listing;

impl Question for Listing {
    ghost Says = { λ _ t s f. ListingTold t s f };

    fn tell<R: Reel>(&self, heap: Global, session: &Session<R>) -> Result<Told, AllocError> {
        Ok(Told {
            text: listing(heap, session)?,
            finding: Finding::Nothing,
        })
    }
}

/// The listing of the records in `input`, or the first refusal in words, with `size` bytes to keep the events in.
pub fn told_listing(heap: Global, size: usize, input: &[u8]) -> Result<Told, AllocError>
    ensures { IfOk result (λ r. ToldOf (room_for size) input.now ListingTold (string_bytes r.text) r.finding) }
{
    told_in(heap, size, input, &Listing)
}

/// The questions about two positions and a list.
#[derive(Clone, Copy)]
struct Orders<'a> {
    p: usize,
    q: usize,
    list: &'a [u16],
}

impl Question for Orders<'_> {
    ghost Says = { λ it t s f. AnswersTold t it.p it.q it.list.now s f };

    fn tell<R: Reel>(&self, heap: Global, session: &Session<R>) -> Result<Told, AllocError> {
        let lines = AnswerLines::of(session, self.p, self.q, self.list);
        let finding = match lines.unordered.0 {
            Ok(_) => Finding::Nothing,
            Err(_) => Finding::Refused,
        };
        Ok(Told {
            text: lines.to_string(heap)?,
            finding,
        })
    }
}

/// The answers to Unordered, Schedulable and Vet about the records in `input`, or the first refusal in words.
pub fn told_answers(
    heap: Global,
    size: usize,
    input: &[u8],
    p: usize,
    q: usize,
    list: &[u16],
) -> Result<Told, AllocError>
    ensures { IfOk result (λ r. ToldOf (room_for size) input.now (λ t s f. AnswersTold t p q list.now s f) (string_bytes r.text) r.finding) }
{
    told_in(heap, size, input, &Orders { p, q, list })
}
