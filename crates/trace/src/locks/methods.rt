//! What the table of lock holders does.
ghost use Rattle.std.specs.Prelude.{◌≡◌, ℕ, None};
ghost use Rattle.trace.specs.Depths.{depth_in};
ghost use Rattle.trace.specs.Faults.{trace_number};
ghost use Rattle.trace.specs.Locks.{holders, LocksTurned};

use crate::event::Event;
use crate::fault::Fault;
use crate::hold::Hold;
use crate::kind::Kind;
use crate::limits::LOCK_COUNT;
use crate::locks::{LockTable, TraceFault};

impl Fault for TraceFault {
    ghost number = { trace_number };

    fn number(self) -> u8 {
        match self {
            TraceFault::AlreadyHeld => 5,
            TraceFault::NotHolder => 6,
            TraceFault::TooDeep => 13,
            TraceFault::NotStartable => 14,
            TraceFault::Ended => 15,
        }
    }
}

impl LockTable {
    /// Every lock is free.
    pub fn new() -> LockTable
        ensures { (l : ℕ) → holders result l ≡ None }
    {
        LockTable {
            holders: [None; LOCK_COUNT],
        }
    }

    /// How deep the thread is in the lock; 0 where it does not hold it.
    pub fn depth(&self, thread: u8, lock: u16) -> u8
        ensures { result ≡ depth_in (holders self.now lock) thread }
    {
        match self.holders.get(usize::from(lock)) {
            Some(Some(hold)) if hold.thread == thread => hold.depth,
            _ => 0,
        }
    }

    /// Lets the event come next, if its lock lets it.
    pub fn turn(&mut self, event: &Event) -> Result<(), TraceFault>
        ensures { LocksTurned self.old event.now result self.new }
    {
        if !event.kind.is_lock() {
            return Ok(());
        }
        let lock = usize::from(event.subject);
        match (self.holders[lock], event.kind) {
            (None, Kind::Acquire) => {
                self.holders[lock] = Some(Hold::first(event.thread));
                Ok(())
            }
            (Some(hold), Kind::Acquire) if hold.thread == event.thread => {
                self.holders[lock] = Some(hold.entered()?);
                Ok(())
            }
            (Some(_), Kind::Acquire) => Err(TraceFault::AlreadyHeld),
            (Some(hold), Kind::Release) if hold.thread == event.thread => {
                self.holders[lock] = hold.left();
                Ok(())
            }
            (_, Kind::Release) => Err(TraceFault::NotHolder),
            (_, Kind::Read | Kind::Write | Kind::Spawn | Kind::Join) => Ok(()),
        }
    }
}
