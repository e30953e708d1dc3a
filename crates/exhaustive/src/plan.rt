//! Which traces are tried.
use crate::all::compare_all;
use crate::drawn::{Manner, compare_drawn};
use crate::shape::Shape;
use crate::tally::Tally;
use std::alloc::Global;

/// Which traces of a shape are tried.
#[derive(Clone, Copy)]
pub(crate) enum Choice {
    /// All with at most so many events.
    All { most: usize },
    /// So many, drawn by the generator in this manner.
    Drawn { traces: u64, manner: Manner },
}

impl Choice {
    /// So many, each of at least so many events, of which so many in eight are accesses.
    pub(crate) fn drawn(traces: u64, least: u8, accesses: u8) -> Choice {
        Choice::Drawn {
            traces,
            manner: Manner { least, accesses },
        }
    }
}

/// Traces that are tried together.
#[derive(Clone, Copy)]
pub(crate) struct Plan {
    pub(crate) shape: Shape,
    pub(crate) choice: Choice,
}

impl Plan {
    /// Those of the traces with so many threads, variables and locks that the choice names.
    pub(crate) fn of(choice: Choice, threads: u8, variables: u8, locks: u8) -> Plan {
        Plan {
            shape: Shape {
                threads,
                variables,
                locks,
                spawns: false,
            },
            choice,
        }
    }

    /// The same, where threads may be spawned and joined.
    pub(crate) fn spawning(mut self) -> Plan {
        self.shape.spawns = true;
        self
    }

    /// Tries the traces of the plan.
    pub(crate) fn carry_out(&self, heap: Global) -> anyhow::Result<Tally> {
        match self.choice {
            Choice::All { most } => compare_all(heap, self.shape, most),
            Choice::Drawn { traces, manner } => compare_drawn(heap, self.shape, manner, traces),
        }
    }
}
