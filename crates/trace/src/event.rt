//! One event of a trace: what a thread did to a variable, a lock or a thread, and where in the program.
ghost use Rattle.std.specs.Prelude.{◌<◌};
ghost use Rattle.trace.specs.Limits.{threads, subjects};

use crate::kind::Kind;

mod methods;

/// The subject is a variable in a read or a write, a lock in an acquire or a release, and a thread in a spawn or a join. Every event is within
/// the limits.
#[derive(Clone, Copy, PartialEq, Debug)]
pub struct Event {
    pub kind: Kind,
    pub thread: u8,
    pub subject: u16,
    pub site: u32,
    ghost known_thread: { thread < threads },
    ghost known_subject: { subject < subjects kind },
}
