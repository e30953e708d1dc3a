//! Who holds each lock, and the trace check: a lock that another thread holds is not acquired, and only its holder releases it.
ghost use Rattle.std.specs.Prelude.{◌≡◌, length};
ghost use Rattle.trace.specs.declared.limits.TheConstants.{LOCKS};

use crate::hold::Hold;
use crate::limits::LOCK_COUNT;

mod methods;

/// Why an event cannot come next.
#[derive(Clone, Copy, PartialEq, Eq, Debug)]
pub enum TraceFault {
    /// Another thread holds the lock that it acquires.
    AlreadyHeld,
    /// The lock that it releases is not held by its thread.
    NotHolder,
    /// Its thread would hold the lock that it acquires deeper than a byte can say.
    TooDeep,
    /// It is a spawn or a join of its own thread, or a spawn of one that has events or was named by an earlier spawn or join.
    NotStartable,
    /// Its thread was joined.
    Ended,
}

/// Who holds each lock, if a thread does, by the number of the lock.
#[derive(Clone, Copy)]
pub struct LockTable {
    // an array, since a board has no heap
    holders: [Option<Hold>; LOCK_COUNT],
    ghost whole: { length holders ≡ LOCKS },
}
