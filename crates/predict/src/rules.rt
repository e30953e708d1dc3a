//! The three rules: the sync rule, and those of happens-before and of schedulable happens-before.
ghost use Rattle.trace.specs.Cuts.{SyncWants, HappensBeforeWants, SchedulableWants};
ghost use Rattle.trace.proofs.Rules.{sync_laws, happens_before_laws, schedulable_laws};

use crate::cut::Cut;
use crate::locks::{missing_earlier_release, missing_release};
use crate::reads::missing_write;
use crate::rule::Rule;
use crate::threads::missing_thread_event;
use reel::Reel;

/// An event wants the spawn of its thread, a join the spawn and the last event of the thread that it awaits, a read its last write, and of two
/// outer acquires of a lock the first wants its release.
#[derive(Clone, Copy)]
pub struct SyncRule {}

impl<R: Reel> Rule<R> for SyncRule {
    ghost wants = { SyncWants };

    ghost lawful = { sync_laws };

    fn missing(&self, reel: &R, cut: &Cut) -> Option<usize> {
        missing_write(reel, cut)
            .or_else(|| missing_release(reel, cut))
            .or_else(|| missing_thread_event(reel, cut))
    }
}

/// An event wants the spawn of its thread, a join the spawn and the last event of the thread that it awaits, and an outer acquire each earlier
/// release that freed its lock.
#[derive(Clone, Copy)]
pub struct HappensBeforeRule {}

impl<R: Reel> Rule<R> for HappensBeforeRule {
    ghost wants = { HappensBeforeWants };

    ghost lawful = { happens_before_laws };

    fn missing(&self, reel: &R, cut: &Cut) -> Option<usize> {
        missing_earlier_release(reel, cut).or_else(|| missing_thread_event(reel, cut))
    }
}

/// The same, and a read wants its last write.
#[derive(Clone, Copy)]
pub struct SchedulableRule {}

impl<R: Reel> Rule<R> for SchedulableRule {
    ghost wants = { SchedulableWants };

    ghost lawful = { schedulable_laws };

    fn missing(&self, reel: &R, cut: &Cut) -> Option<usize> {
        missing_earlier_release(reel, cut)
            .or_else(|| missing_write(reel, cut))
            .or_else(|| missing_thread_event(reel, cut))
    }
}
