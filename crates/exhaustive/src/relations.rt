//! Happens-before and schedulable happens-before, by plain reachability.
use crate::steps::Step;
use std::alloc::{AllocError, Global};
use trace::kind::Kind;

/// Whether the earlier of two events spawns the thread of the later one, or the later one joins the thread that the earlier one is of or spawns.
fn is_before_by_thread(earlier: &Step, later: &Step) -> bool {
    let awaited = later.event.subject;
    earlier.spawns(u16::from(later.event.thread))
        || later.event.kind == Kind::Join && (earlier.is_of(awaited) || earlier.spawns(awaited))
}

/// Whether happens-before puts the earlier of two events directly before the later one.
pub(crate) fn happens_before(earlier: &Step, later: &Step) -> bool {
    let in_thread = earlier.event.thread == later.event.thread;
    let by_lock = earlier.is_freeing_release()
        && later.is_outer_acquire()
        && earlier.event.subject == later.event.subject;
    in_thread || by_lock || is_before_by_thread(earlier, later)
}

/// Whether schedulable happens-before does: it also puts a write before the reads whose last write it is.
pub(crate) fn is_scheduled_before(earlier: &Step, later: &Step) -> bool {
    happens_before(earlier, later) || later.last_write == Some(earlier.position)
}

/// Whether a relation puts the event at position p before the one at q, or they are the same; `links` says of two events whether it puts the
/// first directly before the second. Each link leads on in the trace, so one pass finds all that p leads to.
pub(crate) fn leads<L: Fn(&Step, &Step) -> bool>(
    heap: Global,
    links: L,
    trace: &[Step],
    p: u16,
    q: u16,
) -> Result<bool, AllocError>
    requires { L.IsAlwaysCallable links }
{
    let mut reached: Vec<Step> = Vec::new(heap);
    for step in trace {
        if step.position == p || reached.iter().any(|earlier| links(earlier, step)) {
            reached.push(*step)?;
        }
    }
    Ok(reached.iter().any(|step| step.position == q))
}
