//! The trace check, word by word.
use crate::steps::Step;
use trace::event::Event;
use trace::kind::Kind;

/// How often the thread turns the lock in the list by an event of the kind.
fn turns_of(list: &[Step], kind: Kind, thread: u8, lock: u16) -> usize {
    list.iter()
        .filter(|step| step.event.kind == kind
            && step.event.thread == thread
            && step.event.subject == lock)
        .count()
}

/// How deep the thread is in the lock after the events of the list: how often it acquired the lock and did not release it again.
pub(crate) fn depth_of(list: &[Step], thread: u8, lock: u16) -> usize {
    let acquires = turns_of(list, Kind::Acquire, thread, lock);
    acquires.saturating_sub(turns_of(list, Kind::Release, thread, lock))
}

/// Who holds the lock after the events of the list: whoever acquired or released it last, if that thread is still in it.
pub(crate) fn holder_of(list: &[Step], lock: u16) -> Option<u8> {
    list.iter()
        .rev()
        .find(|step| step.event.kind.is_lock() && step.event.subject == lock)
        .map(|step| step.event.thread)
        .filter(|thread| depth_of(list, *thread, lock) > 0)
}

/// Whether the list has a join of the thread.
fn is_joined(list: &[Step], thread: u16) -> bool {
    list.iter().any(|step| step.joins(thread))
}

/// Whether the list has an event of the thread, or a spawn or a join of it.
pub(crate) fn is_known(list: &[Step], thread: u16) -> bool {
    list.iter().any(|step| step.is_of(thread) || step.spawns(thread) || step.joins(thread))
}

/// The number with which the trace check refuses the event after the events of the list, if it does; these are fewer than it takes to hold a
/// lock too deep.
pub(crate) fn refusal_of(list: &[Step], event: &Event) -> Option<u8> {
    let thread = u16::from(event.thread);
    if is_joined(list, thread) {
        return Some(15);
    }
    let subject = event.subject;
    match event.kind {
        Kind::Spawn if subject == thread || is_known(list, subject) => Some(14),
        Kind::Join if subject == thread => Some(14),
        Kind::Acquire if holder_of(list, subject).is_some_and(|holder| holder != event.thread) => {
            Some(5)
        }
        Kind::Release if holder_of(list, subject) != Some(event.thread) => Some(6),
        _ => None,
    }
}

/// Whether the trace check admits the event after the events of the list.
pub(crate) fn is_admitted(list: &[Step], event: &Event) -> bool {
    refusal_of(list, event).is_none()
}
