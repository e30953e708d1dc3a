//! What becomes of a hold.
ghost use Rattle.std.specs.Prelude.{◌≡◌, ℕ, Some, None, Ok};
ghost use Rattle.trace.specs.declared.hold.Hold.{Hold};
ghost use Rattle.trace.specs.declared.kind.Kind.TheVariants.{Acquire};
ghost use Rattle.trace.specs.Faults.{trace_number, refusal_in};
ghost use Rattle.trace.specs.Traces.{entered, left, lock_refusal};

use crate::hold::Hold;
use crate::locks::TraceFault;

impl Hold {
    /// That of a thread which acquires a free lock.
    pub(crate) fn first(thread: u8) -> Hold
        ensures { Some result ≡ entered thread None }
    {
        Hold { thread, depth: 1 }
    }

    /// When its thread has acquired the lock once more.
    pub(crate) fn entered(self) -> Result<Hold, TraceFault>
        ensures refused { refusal_in trace_number result ≡ lock_refusal Acquire self.thread (Some self) }
        ensures then { (h : Hold) → result ≡ Ok h → Some h ≡ entered self.thread (Some self) }
    {
        let depth = self.depth.checked_add(1).ok_or(TraceFault::TooDeep)?;
        Ok(Hold { depth, ..self })
    }

    /// When its thread has released the lock once; none if that frees it.
    pub(crate) fn left(self) -> Option<Hold>
        ensures { result ≡ left (Some self) }
    {
        if self.depth > 1 {
            Some(Hold {
                depth: self.depth - 1,
                ..self
            })
        } else {
            None
        }
    }
}
