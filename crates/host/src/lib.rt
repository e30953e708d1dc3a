//! The entry for a C host: whether two events of a dump race, as one number.
#![tactic(auto)]

ghost use Rattle.std.specs.Prelude.{◌≡◌};
ghost use Rattle.trace.specs.Faults.{told};
ghost use Rattle.host.specs.declared.HostFault.TheVariants.{Load, Judge};
ghost use Rattle.host.specs.Hosts.{fault_number, answer_number, HostAnswers};

use answer::fault::{EntryRefusal, PairFault};
use answer::verdict::Verdict;
use reel::board::BoardReel;
use session::session::Session;
use trace::fault::Fault;

pub mod examples;

/// Why there is no verdict.
#[derive(Clone, Copy)]
enum HostFault {
    /// The dump is not taken whole.
    Load(EntryRefusal),
    /// The two positions cannot be asked about.
    Judge(PairFault),
}

impl Fault for HostFault {
    ghost number = { fault_number };

    fn number(self) -> u8 {
        match self {
            HostFault::Load(refusal) => refusal.fault.number(),
            HostFault::Judge(fault) => fault.number(),
        }
    }
}

impl From<EntryRefusal> for HostFault {
    ghost from_gives = { λ f r. r ≡ Load f };

    fn from(refusal: EntryRefusal) -> HostFault {
        HostFault::Load(refusal)
    }
}

impl From<PairFault> for HostFault {
    ghost from_gives = { λ f r. r ≡ Judge f };

    fn from(fault: PairFault) -> HostFault {
        HostFault::Judge(fault)
    }
}

/// Loads the dump into a session over a board reel, and judges p and q.
fn verdict(dump: &[u8], p: usize, q: usize) -> Result<Verdict, HostFault>
    ensures { HostAnswers dump.now p q (answer_number (told fault_number result)) }
{
    let mut session = Session::open(BoardReel::new());
    session.load(dump)?;
    Ok(session.judge(p, q)?)
}

/// Whether the events at p and q of a dump race: 0 for no race, 1 for race; where Load or Judge refuses, 100 and the number of the refusal.
#[unsafe(no_mangle)]
pub extern "C" fn lenogneiss_judge(dump: &[u8], p: usize, q: usize) -> u32
    ensures { HostAnswers dump.now p q result }
{
    // one number for an enum, since that is what C is told
    match verdict(dump, p, q) {
        Ok(verdict) => u32::from(verdict.number()),
        Err(fault) => 100 + u32::from(fault.number()),
    }
}
