//! What traces may name.
use anyhow::anyhow;
use std::alloc::Global;
use trace::event::Event;
use trace::kind::Kind;
use trace::record::event_of;

/// Every kind of event.
const KINDS: [Kind; 6] = [
    Kind::Read,
    Kind::Write,
    Kind::Acquire,
    Kind::Release,
    Kind::Spawn,
    Kind::Join,
];

/// How many threads, variables and locks traces may name.
#[derive(Clone, Copy)]
pub(crate) struct Shape {
    pub(crate) threads: u8,
    pub(crate) variables: u8,
    pub(crate) locks: u8,
    /// Whether threads may be spawned and joined.
    pub(crate) spawns: bool,
}

impl Shape {
    /// How many subjects the events of the kind may name.
    fn subjects(&self, kind: Kind) -> u8 {
        match kind {
            Kind::Read | Kind::Write => self.variables,
            Kind::Acquire | Kind::Release => self.locks,
            Kind::Spawn | Kind::Join if self.spawns => self.threads,
            Kind::Spawn | Kind::Join => 0,
        }
    }

    /// Every event of the shape, by kind, thread and subject.
    pub(crate) fn events(&self, heap: Global) -> anyhow::Result<Vec<Event>> {
        KINDS
            .iter()
            .flat_map(|kind| (0..self.threads).map(move |thread| (*kind, thread)))
            .flat_map(|(kind, thread)| {
                (0..self.subjects(kind)).map(move |subject| event(kind, thread, u16::from(subject)))
            })
            .try_collect(heap)
    }
}

/// The event of a thread on a subject.
pub(crate) fn event(kind: Kind, thread: u8, subject: u16) -> anyhow::Result<Event> {
    event_of(kind, thread, subject, 0).map_err(|_| anyhow!("the shape passes the limits of events"))
}
