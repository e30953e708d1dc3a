//! The partners of a position.
ghost use Rattle.std.specs.Prelude.{◌≡◌, ◌≤◌, length, IfOk, string_bytes};
ghost use Rattle.reel.specs.Stored.{room_for};
ghost use Rattle.answer.specs.Verdicts.{witness_number, partners_number};
ghost use Rattle.report.specs.Told.{ToldOf};
ghost use Rattle.report.specs.Witnesses.{partners_text, found_among, PartnersTold};

use crate::refusals::{Asked, refused_question};
use crate::told::positions::PositionsLine;
use crate::told::{Finding, Question, Told, told_in};
use answer::fault::PairFault;
use answer::verdict::{PartnersFault, WitnessFault};
use reel::Reel;
use session::session::Session;
use std::alloc::{AllocError, Global};

/// The text of partners, and whether there are any.
fn partners_text(heap: Global, positions: &[u16]) -> Result<Told, AllocError>
    ensures { IfOk result (λ r. (string_bytes r.text ≡ partners_text positions.now) × (r.finding ≡ found_among positions.now)) }
{
    let count = positions.len();
    let line = PositionsLine(positions);
    let text = format!(in heap; "partners {count}\n{line}")?;
    let finding = if positions.is_empty() {
        Finding::Nothing
    } else {
        Finding::Race
    };
    Ok(Told { text, finding })
}

/// The fault of a question for partners, as one of a witness.
fn as_witness_fault(fault: PartnersFault) -> WitnessFault
    ensures { witness_number result ≡ partners_number fault }
{
    match fault {
        PartnersFault::NoEvent => WitnessFault::Pair(PairFault::NoEvent),
        PartnersFault::Buffer(fault) => WitnessFault::Buffer(fault),
    }
}

/// The partners of q, which are gathered in the buffer, or the refusal.
fn gathered<R: Reel>(
    heap: Global,
    session: &Session<R>,
    q: usize,
    buffer: &mut [u16],
) -> Result<Told, AllocError>
    ensures { let t = session.now.trace in (length t ≤ length buffer.old
        → IfOk result (λ r. PartnersTold t q (string_bytes r.text) r.finding)) }
{
    match session.partners(q, buffer) {
        Ok(count) => partners_text(heap, &buffer[..count]),
        Err(fault) => {
            let count = session.count();
            Ok(Told {
                text: refused_question(heap, Asked { count, p: q, q }, as_witness_fault(fault))?,
                finding: Finding::Refused,
            })
        }
    }
}

/// The question for the partners of q.
#[derive(Clone, Copy)]
struct Partners {
    q: usize,
}

impl Question for Partners {
    ghost Says = { λ it t s f. PartnersTold t it.q s f };

    fn tell<R: Reel>(&self, heap: Global, session: &Session<R>) -> Result<Told, AllocError> {
        let mut buffer = vec![in heap; 0u16; session.count()]?;
        gathered(heap, session, self.q, buffer.as_mut_slice())
    }
}

/// The partners of q of the records in `input`, or the refusal in words.
pub fn told_partners(heap: Global, size: usize, input: &[u8], q: usize) -> Result<Told, AllocError>
    ensures { IfOk result (λ r. ToldOf (room_for size) input.now (λ t s f. PartnersTold t q s f) (string_bytes r.text) r.finding) }
{
    told_in(heap, size, input, &Partners { q })
}
