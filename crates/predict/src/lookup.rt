//! Looks for events in a reel.
ghost use Rattle.std.specs.Prelude.{◌≡◌, ◌<◌};
ghost use Rattle.trace.specs.declared.event.Event.{Event};
ghost use Rattle.trace.specs.Traces.{deeper, Outer};
ghost use Rattle.trace.specs.Lookups.{fits_here, latest, of_thread, spawns, writes, depth_past, previous, last_write, release_of};
ghost use Rattle.std.specs.List.{slice_get};
ghost use Rattle.predict.specs.Held.{held, lacks};
ghost use Rattle.predict.specs.Parts.{acquires, outer_release_of};

use crate::cut::Cut;
use reel::Reel;
use trace::event::Event;
use trace::kind::Kind;

/// Whether there is an event of the thread at the position.
fn is_of_thread_at<R: Reel>(reel: &R, position: usize, thread: u8) -> bool
    ensures { let t = R.Reel.events reel.now in result ≡ fits_here (of_thread thread) (slice_get t position) }
{
    reel.event(position)
        .is_some_and(|event| event.thread == thread)
}

/// Whether there is a write to the variable at the position.
pub fn is_write_at<R: Reel>(reel: &R, position: usize, variable: u16) -> bool
    ensures { let t = R.Reel.events reel.now in result ≡ fits_here (writes variable) (slice_get t position) }
{
    reel.event(position).is_some_and(|event| event.kind == Kind::Write && event.subject == variable)
}

/// Whether there is an acquire of the lock at the position.
pub fn is_acquire_at<R: Reel>(reel: &R, position: usize, lock: u16) -> bool
    ensures { let t = R.Reel.events reel.now in result ≡ fits_here (acquires lock) (slice_get t position) }
{
    reel.event(position).is_some_and(|event| event.kind == Kind::Acquire && event.subject == lock)
}

/// Whether there is a spawn of the thread at the position.
fn is_spawn_at<R: Reel>(reel: &R, position: usize, thread: u8) -> bool
    ensures { let t = R.Reel.events reel.now in result ≡ fits_here (spawns thread) (slice_get t position) }
{
    reel.event(position).is_some_and(|event| event.kind == Kind::Spawn
        && event.subject == u16::from(thread))
}

/// How deep a lock is held after an event of the kind on it.
pub(crate) fn deeper(kind: Kind, depth: usize) -> usize
    requires { depth < usize.MAX }
    ensures { result ≡ deeper kind depth }
{
    match kind {
        Kind::Acquire => depth + 1,
        Kind::Release => depth.saturating_sub(1),
        Kind::Read | Kind::Write | Kind::Spawn | Kind::Join => depth,
    }
}

/// How deep the thread of an acquire is in its lock after the event at the position.
fn depth_past<R: Reel>(reel: &R, position: usize, acquire: &Event, depth: usize) -> usize
    requires { depth < usize.MAX }
    ensures { let t = R.Reel.events reel.now in result ≡ depth_past acquire.now.thread acquire.now.subject depth (slice_get t position) }
{
    match reel.event(position) {
        Some(event) if event.thread == acquire.thread && event.subject == acquire.subject => {
            deeper(event.kind, depth)
        }
        _ => depth,
    }
}

/// The last position before this one where the thread has an event.
fn latest_of_thread<R: Reel>(reel: &R, position: usize, thread: u8) -> Option<usize>
    ensures { let t = R.Reel.events reel.now in result ≡ latest (of_thread thread) t position }
{
    (0..position)
        .rev()
        .find(|earlier| is_of_thread_at(reel, *earlier, thread))
}

/// The last position before this one where the thread is spawned.
fn latest_spawn<R: Reel>(reel: &R, position: usize, thread: u8) -> Option<usize>
    ensures { let t = R.Reel.events reel.now in result ≡ latest (spawns thread) t position }
{
    (0..position)
        .rev()
        .find(|earlier| is_spawn_at(reel, *earlier, thread))
}

/// The previous event: the last before this position of its thread, and where there is none, the last where its thread is spawned.
pub fn previous<R: Reel>(reel: &R, position: usize) -> Option<usize>
    ensures { let t = R.Reel.events reel.now in result ≡ previous t position }
{
    let thread = reel.event(position)?.thread;
    latest_of_thread(reel, position, thread).or_else(|| latest_spawn(reel, position, thread))
}

/// The last position before that of a read where its variable is written.
pub fn last_write<R: Reel>(reel: &R, position: usize) -> Option<usize>
    ensures { let t = R.Reel.events reel.now in result ≡ last_write t position }
{
    let read = reel
        .event(position)
        .filter(|event| event.kind == Kind::Read)?;
    (0..position)
        .rev()
        .find(|earlier| is_write_at(reel, *earlier, read.subject))
}

/// Where the thread of the outer acquire at a position next frees its lock; what it finds at another position means nothing.
pub(crate) fn release_of<R: Reel>(reel: &R, position: usize) -> Option<usize>
    ensures found { let t = R.Reel.events reel.now in result ≡ outer_release_of t position }
    ensures outer { let t = R.Reel.events reel.now in ((e : Event) → Outer t position e → result ≡ release_of t position) }
{
    let acquire = reel.event(position)?;
    let mut depth = 1;
    for later in position + 1..reel.count() {
        depth = depth_past(reel, later, &acquire, depth);
        if depth == 0 {
            return Some(later);
        }
    }
    None
}

/// Whether there is an event at the position, and the cut has it.
pub fn is_inside<R: Reel>(reel: &R, cut: &Cut, position: usize) -> bool
    ensures { let t = R.Reel.events reel.now in result ≡ held t cut.now.bounds position }
{
    reel.event(position)
        .is_some_and(|event| cut.holds(position, &event))
}

/// Whether there is an event at the position, and the cut does not have it.
pub fn is_outside<R: Reel>(reel: &R, cut: &Cut, position: usize) -> bool
    ensures { let t = R.Reel.events reel.now in result ≡ lacks t cut.now.bounds position }
{
    reel.event(position)
        .is_some_and(|event| !cut.holds(position, &event))
}

#[cfg(test)]
mod tests {
    use super::release_of;
    use reel::Reel;
    use reel::board::BoardReel;
    use std::test::Fail;
    use trace::kind::Kind;
    use trace::record::event_of;

    #[test]
    fn releases_are_found(rt: HostRuntime) -> Result<(), Fail> {
        let mut reel = BoardReel::new();
        for kind in [
            Kind::Acquire,
            Kind::Acquire,
            Kind::Release,
            Kind::Release,
            Kind::Write,
            Kind::Acquire,
            Kind::Release,
            Kind::Acquire,
        ] {
            reel.take(event_of(kind, 0, 0, 0)?)?;
        }
        // at outer acquires the release that frees the lock,
        assert_eq!(rt; release_of(&reel, 0), Some(3));
        assert_eq!(rt; release_of(&reel, 5), Some(6));
        assert!(rt; release_of(&reel, 7).is_none());
        // and at other positions where the same count ends
        assert_eq!(rt; release_of(&reel, 1), Some(2));
        assert_eq!(rt; release_of(&reel, 2), Some(3));
        assert!(rt; release_of(&reel, 4).is_none());
        assert!(rt; release_of(&reel, 8).is_none());
        Ok(())
    }
}
