//! Traces and their reorderings, word by word: each question goes through the list that it is about, and none knows of cuts or closures.
use crate::check::{depth_of, is_admitted};
use std::alloc::Global;
use trace::event::Event;
use trace::kind::Kind;

/// An event of a trace, with what its place there says.
#[derive(Clone, Copy)]
pub(crate) struct Step {
    /// Where it stands in the trace.
    pub(crate) position: u16,
    pub(crate) event: Event,
    /// How many events of its thread stand before it.
    pub(crate) rank: usize,
    /// Where the spawn of its thread stands, if there is one before it.
    pub(crate) spawn: Option<u16>,
    /// Of a join, what it awaits.
    awaited: Awaited,
    /// Of an acquire or a release, how deep its thread is in the lock before it.
    pub(crate) depth: usize,
    /// Of a read, where its last write stands, if it has one.
    pub(crate) last_write: Option<u16>,
}

/// What a join awaits of the thread that it names: so many events, and the spawn of the thread, if there is one before the join. Other events
/// await nothing.
#[derive(Clone, Copy, Default)]
struct Awaited {
    events: usize,
    spawn: Option<u16>,
}

impl Step {
    /// Whether it acquires a lock that its thread is not in.
    pub(crate) fn is_outer_acquire(&self) -> bool {
        self.event.kind == Kind::Acquire && self.depth == 0
    }

    /// Whether it is a release that frees its lock.
    pub(crate) fn is_freeing_release(&self) -> bool {
        self.event.kind == Kind::Release && self.depth == 1
    }

    /// Whether it is an inner acquire or an inner release.
    pub(crate) fn is_inner(&self) -> bool {
        match self.event.kind {
            Kind::Acquire => !self.is_outer_acquire(),
            Kind::Release => !self.is_freeing_release(),
            Kind::Read | Kind::Write | Kind::Spawn | Kind::Join => false,
        }
    }

    /// Whether it is a spawn of the thread.
    pub(crate) fn spawns(&self, thread: u16) -> bool {
        self.event.kind == Kind::Spawn && self.event.subject == thread
    }

    /// Whether it is a join of the thread.
    pub(crate) fn joins(&self, thread: u16) -> bool {
        self.event.kind == Kind::Join && self.event.subject == thread
    }

    /// Whether it is an event of the thread.
    pub(crate) fn is_of(&self, thread: u16) -> bool {
        u16::from(self.event.thread) == thread
    }

    /// Whether a read reads after the list what it read in the trace.
    fn reads_the_same(&self, list: &[Step]) -> bool {
        self.event.kind != Kind::Read || latest_write(list, self.event.subject) == self.last_write
    }

    /// Whether an outer acquire stands after the list in trace order among the outer acquires of its lock.
    fn keeps_order(&self, list: &[Step]) -> bool {
        !self.is_outer_acquire()
            || !list.iter().any(|earlier| {
                earlier.is_outer_acquire()
                    && earlier.event.subject == self.event.subject
                    && earlier.position > self.position
            })
    }

    /// Whether the event is enabled after the list, which has of each thread the first events: it is not in the list, and all earlier events
    /// of its thread are, and the spawn of its thread.
    pub(crate) fn is_enabled(&self, list: &[Step]) -> bool {
        count_of(list, u16::from(self.event.thread)) == self.rank && has(list, self.spawn)
    }

    /// Whether the list, which has of each thread the first events, has all that a join awaits.
    fn finds_awaited(&self, list: &[Step]) -> bool {
        count_of(list, self.event.subject) >= self.awaited.events && has(list, self.awaited.spawn)
    }

    /// Whether the list with the step after it is a sync-preserving correct reordering, where the list is one.
    pub(crate) fn may_follow(&self, list: &[Step]) -> bool {
        self.is_enabled(list)
            && self.finds_awaited(list)
            && is_admitted(list, &self.event)
            && self.reads_the_same(list)
            && self.keeps_order(list)
    }
}

/// Whether an event of the kind names a thread.
pub(crate) fn names_thread(kind: Kind) -> bool {
    kind == Kind::Spawn || kind == Kind::Join
}

/// How many events of the thread the list has.
fn count_of(list: &[Step], thread: u16) -> usize {
    list.iter().filter(|step| step.is_of(thread)).count()
}

/// Whether the list has the position, if there is one.
fn has(list: &[Step], position: Option<u16>) -> bool {
    position.is_none_or(|position| list.iter().any(|step| step.position == position))
}

/// Where the list spawns the thread, if it does.
fn spawn_of(list: &[Step], thread: u16) -> Option<u16> {
    list.iter()
        .find(|step| step.spawns(thread))
        .map(|step| step.position)
}

/// What an event after the list awaits.
fn awaited_by(list: &[Step], event: &Event) -> Awaited {
    if event.kind != Kind::Join {
        return Awaited::default();
    }
    Awaited {
        events: count_of(list, event.subject),
        spawn: spawn_of(list, event.subject),
    }
}

/// Where the latest write to the variable in the list stands in the trace.
fn latest_write(list: &[Step], variable: u16) -> Option<u16> {
    list.iter()
        .rev()
        .find(|step| step.event.kind == Kind::Write && step.event.subject == variable)
        .map(|step| step.position)
}

/// Whether the list is a sync-preserving correct reordering: each step may follow those before it.
pub(crate) fn is_reordering(list: &[Step]) -> bool {
    list.iter()
        .enumerate()
        .all(|(i, step)| step.may_follow(&list[..i]))
}

/// The steps of a trace, in order.
#[derive(Clone, Drop)]
pub(crate) struct Trace {
    steps: Vec<Step>,
}

impl Trace {
    /// The trace with no event.
    pub(crate) fn new(heap: Global) -> Trace {
        Trace {
            steps: Vec::new(heap),
        }
    }

    /// The steps.
    pub(crate) fn steps(&self) -> &[Step] {
        self.steps.as_slice()
    }

    /// Lets the event come next.
    pub(crate) fn extend(&mut self, event: Event) -> anyhow::Result<()> {
        let position = u16::try_from(self.steps.len())?;
        let thread = u16::from(event.thread);
        let last_write = if event.kind == Kind::Read {
            latest_write(self.steps(), event.subject)
        } else {
            None
        };
        let step = Step {
            position,
            event,
            rank: count_of(self.steps(), thread),
            spawn: spawn_of(self.steps(), thread),
            awaited: awaited_by(self.steps(), &event),
            depth: depth_of(self.steps(), event.thread, event.subject),
            last_write,
        };
        self.steps.push(step)?;
        Ok(())
    }

    /// Takes the last event off again.
    pub(crate) fn shorten(&mut self) {
        let _ = self.steps.pop();
    }
}
