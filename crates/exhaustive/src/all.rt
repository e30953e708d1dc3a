//! All small traces.
use crate::check::is_admitted;
use crate::compare::compare;
use crate::shape::Shape;
use crate::steps::{Step, Trace, names_thread};
use crate::tally::Tally;
use std::alloc::Global;
use trace::event::Event;

/// The first thread behind those that the event has and names.
fn thread_behind(event: &Event) -> u16 {
    let named = if names_thread(event.kind) {
        event.subject
    } else {
        0
    };
    named.max(u16::from(event.thread)).saturating_add(1)
}

/// The first thread that no event of the trace has or names.
fn next_thread(trace: &[Step]) -> u16 {
    trace
        .iter()
        .map(|step| thread_behind(&step.event))
        .max()
        .unwrap_or(0)
}

/// The first subject of the event's sort that no event of the trace has: a variable, a lock, or a thread that is not the event's own.
fn next_subject(trace: &[Step], event: &Event) -> u16 {
    if names_thread(event.kind) {
        return next_thread(trace).max(u16::from(event.thread).saturating_add(1));
    }
    trace
        .iter()
        .filter(|step| step.event.kind.is_access() == event.kind.is_access()
            && step.event.kind.is_lock() == event.kind.is_lock())
        .map(|step| step.event.subject.saturating_add(1))
        .max()
        .unwrap_or(0)
}

/// Whether the event is tried next: the trace check admits it, and threads, variables and locks come up in the order of their numbers, since
/// other traces differ from such a one in these numbers alone.
fn is_tried(trace: &[Step], event: &Event) -> bool {
    is_admitted(trace, event)
        && u16::from(event.thread) <= next_thread(trace)
        && event.subject <= next_subject(trace, event)
}

/// A walk through all traces of some events, each after the one that it goes on from, and what was tried on its way.
#[derive(Drop)]
struct Walk<'a> {
    heap: Global,
    events: &'a [Event],
    /// The trace that it is at.
    trace: Trace,
    tally: Tally,
}

impl Walk<'_> {
    /// Compares on every trace that goes on from where the walk is by at most `left` events.
    fn go_on(&mut self, left: usize) -> anyhow::Result<()> {
        if left == 0 {
            return Ok(());
        }
        for event in self.events {
            if is_tried(self.trace.steps(), event) {
                self.trace.extend(*event)?;
                compare(self.heap, &self.trace, &mut self.tally)?;
                self.go_on(left - 1)?;
                self.trace.shorten();
            }
        }
        Ok(())
    }
}

/// Compares on every trace of the shape with at most so many events.
pub(crate) fn compare_all(heap: Global, shape: Shape, most: usize) -> anyhow::Result<Tally> {
    let events = shape.events(heap)?;
    let mut walk = Walk {
        heap,
        events: events.as_slice(),
        trace: Trace::new(heap),
        tally: Tally::default(),
    };
    walk.go_on(most)?;
    Ok(walk.tally)
}
