//! Questions about two positions. They change neither the session nor its reel.
ghost use Rattle.std.specs.Prelude.{◌≡◌};
ghost use Rattle.trace.specs.Faults.{refusal_in};
ghost use Rattle.answer.specs.Faults.{pair_number};
ghost use Rattle.session.specs.Questions.{pair_refusal, Answers, Vetted, Unordered, NotBefore, Schedulable, NotScheduledBefore};

use crate::session::Session;
use answer::fault::PairFault;
use predict::closure::closure;
use predict::lookup::{is_outside, previous};
use predict::rules::{HappensBeforeRule, SchedulableRule};
use reel::Reel;
use reorder::vet::leaves;

impl<R: Reel> Session<R> {
    /// Whether the two positions can be asked about.
    pub(super) fn check_pair(&self, p: usize, q: usize) -> Result<(), PairFault>
        ensures { refusal_in pair_number result ≡ pair_refusal self.now.trace p q }
    {
        let first = self.reel.event(p).ok_or(PairFault::NoEvent)?;
        let second = self.reel.event(q).ok_or(PairFault::NoEvent)?;
        if p >= q {
            return Err(PairFault::Order);
        }
        if !first.conflicts(&second) {
            return Err(PairFault::NoConflict);
        }
        Ok(())
    }

    /// Vet: whether the list is a sync-preserving correct reordering that leaves the events at p and q enabled.
    pub fn vet(&self, p: usize, q: usize, list: &[u16]) -> Result<bool, PairFault>
        ensures { let t = self.now.trace in Answers t p q (Vetted t p q list.now) result }
    {
        self.check_pair(p, q)?;
        Ok(leaves(&self.reel, &[p, q], list))
    }

    /// Unordered: whether the event at p does not happen before the event at q.
    pub fn unordered(&self, p: usize, q: usize) -> Result<bool, PairFault>
        ensures closure { let t = self.now.trace in Answers t p q (Unordered t p q) result }
        ensures order { let t = self.now.trace in Answers t p q (NotBefore t p q) result }
    {
        self.check_pair(p, q)?;
        let before = closure(&HappensBeforeRule {}, &self.reel, &[q]);
        Ok(is_outside(&self.reel, &before, p))
    }

    /// Schedulable: whether the event at q has no previous event, or the event at p is not before that in schedulable happens-before.
    pub fn schedulable(&self, p: usize, q: usize) -> Result<bool, PairFault>
        ensures closure { let t = self.now.trace in Answers t p q (Schedulable t p q) result }
        ensures order { let t = self.now.trace in Answers t p q (NotScheduledBefore t p q) result }
    {
        self.check_pair(p, q)?;
        match previous(&self.reel, q) {
            None => Ok(true),
            Some(last) => {
                let before = closure(&SchedulableRule {}, &self.reel, &[last]);
                Ok(is_outside(&self.reel, &before, p))
            }
        }
    }
}
