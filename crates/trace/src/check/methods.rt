//! What the trace check does.
ghost use Rattle.std.specs.Prelude.{◌≡◌, []};
ghost use Rattle.trace.specs.Depths.{depth_in};
ghost use Rattle.trace.specs.Checks.{Tells, Turned, standing};

use crate::check::TraceCheck;
use crate::event::Event;
use crate::locks::{LockTable, TraceFault};
use crate::threads::ThreadTable;

impl TraceCheck {
    /// Every lock is free, and of no thread anything is known.
    pub fn new() -> TraceCheck
        ensures { Tells result [] }
    {
        TraceCheck {
            locks: LockTable::new(),
            threads: ThreadTable::new(),
        }
    }

    /// How deep the thread is in the lock; 0 where it does not hold it.
    pub fn depth(&self, thread: u8, lock: u16) -> u8
        ensures { result ≡ depth_in ((standing self.now).holders lock) thread }
    {
        self.locks.depth(thread, lock)
    }

    /// Lets the event come next, if the trace check admits it.
    pub fn turn(&mut self, event: &Event) -> Result<(), TraceFault>
        ensures { Turned self.old event.now result self.new }
    {
        self.threads.check(event)?;
        self.locks.turn(event)?;
        self.threads.note(event);
        Ok(())
    }
}
