//! The six kinds of events.
ghost use Rattle.std.specs.Prelude.{◌≡◌};
ghost use Rattle.trace.specs.Limits.{accesses, on_lock, subjects};

use crate::limits::{LOCKS, THREADS, VARIABLES};

#[derive(Clone, Copy, PartialEq, Eq, Debug)]
pub enum Kind {
    Read,
    Write,
    Acquire,
    Release,
    /// Starts the thread that is its subject.
    Spawn,
    /// Awaits the end of the thread that is its subject.
    Join,
}

impl Kind {
    /// Whether an event of the kind touches a variable.
    pub fn is_access(self) -> bool
        ensures { result ≡ accesses self }
    {
        match self {
            Kind::Read | Kind::Write => true,
            Kind::Acquire | Kind::Release | Kind::Spawn | Kind::Join => false,
        }
    }

    /// Whether an event of the kind touches a lock.
    pub fn is_lock(self) -> bool
        ensures { result ≡ on_lock self }
    {
        match self {
            Kind::Acquire | Kind::Release => true,
            Kind::Read | Kind::Write | Kind::Spawn | Kind::Join => false,
        }
    }

    /// How many subjects the events of the kind may name.
    pub fn subjects(self) -> u16
        ensures { result ≡ subjects self }
    {
        match self {
            Kind::Read | Kind::Write => VARIABLES,
            Kind::Acquire | Kind::Release => LOCKS,
            Kind::Spawn | Kind::Join => u16::from(THREADS),
        }
    }
}
