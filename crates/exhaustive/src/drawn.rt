//! Larger traces, drawn by a fixed generator.
ghost use Rattle.std.specs.Prelude.{◌<◌};

use crate::check::{holder_of, is_admitted, is_known};
use crate::compare::compare;
use crate::shape::{Shape, event};
use crate::steps::Trace;
use crate::tally::Tally;
use std::alloc::Global;
use trace::event::Event;
use trace::kind::Kind;
use trace::limits::LOCKS;

/// How many events more than the fewest a trace may have.
const MORE: u8 = 3;

/// Where threads may be spawned and joined, of eight events so many do it on average.
const SPAWNS: u8 = 2;

/// How often an event is drawn for a trace at most. Nearly all traces are full long before.
const DRAWS: usize = 255;

/// How traces are drawn.
#[derive(Clone, Copy)]
pub(crate) struct Manner {
    /// How many events a trace has at least.
    pub(crate) least: u8,
    /// Of eight events so many are accesses on average.
    pub(crate) accesses: u8,
}

impl Manner {
    /// How many events a trace has at most.
    pub(crate) fn most(&self) -> u8 {
        self.least.saturating_add(MORE)
    }
}

// numbers of its own, so that what is printed stays the same
/// A linear congruential generator, the shape of what it draws, the manner, and the thread that is at work.
#[derive(Drop)]
struct Generator {
    state: u64,
    shape: Shape,
    manner: Manner,
    thread: u8,
}

impl Generator {
    /// A number below the bound; 0 where there is none.
    fn below(&mut self, bound: u8) -> u8
        ensures { 0 < bound → result < bound }
    {
        self.state = self
            .state
            .wrapping_mul(6364136223846793005)
            .wrapping_add(1442695040888963407);
        if bound == 0 {
            return 0;
        }
        ((self.state >> 33) % u64::from(bound)) as u8
    }

    /// The thread that is at work now: a new one in a third of the cases.
    fn thread(&mut self) -> u8 {
        if self.below(3) == 0 {
            self.thread = self.below(self.shape.threads);
        }
        self.thread
    }

    /// An access to some variable.
    fn access(&mut self) -> anyhow::Result<Event> {
        let kind = if self.below(2) == 0 {
            Kind::Read
        } else {
            Kind::Write
        };
        let thread = self.thread();
        let variable = self.below(self.shape.variables);
        event(kind, thread, u16::from(variable))
    }

    /// An acquire of one of the last locks; where a thread holds it, by that thread, or in three of five cases a release.
    fn turn(&mut self, trace: &Trace) -> anyhow::Result<Event> {
        let lock = (LOCKS - 1).saturating_sub(u16::from(self.below(self.shape.locks)));
        match holder_of(trace.steps(), lock) {
            Some(holder) if self.below(5) < 3 => event(Kind::Release, holder, lock),
            Some(holder) => event(Kind::Acquire, holder, lock),
            None => event(Kind::Acquire, self.thread(), lock),
        }
    }

    /// A spawn of some thread, if the trace does not know it; else, and in one of four cases, a join.
    fn deed(&mut self, trace: &Trace) -> anyhow::Result<Event> {
        let thread = self.thread();
        let other = u16::from(self.below(self.shape.threads));
        let kind = if is_known(trace.steps(), other) || self.below(4) == 0 {
            Kind::Join
        } else {
            Kind::Spawn
        };
        event(kind, thread, other)
    }

    /// An event, which the trace check need not admit after the trace.
    fn some_event(&mut self, trace: &Trace) -> anyhow::Result<Event> {
        let drawn = self.below(8);
        let accesses = self.manner.accesses;
        if drawn < accesses {
            self.access()
        } else if self.shape.spawns && drawn < accesses.saturating_add(SPAWNS) {
            self.deed(trace)
        } else {
            self.turn(trace)
        }
    }

    /// A trace.
    fn trace(&mut self, heap: Global) -> anyhow::Result<Trace> {
        let mut trace = Trace::new(heap);
        let length = usize::from(self.manner.least.saturating_add(self.below(MORE + 1)));
        for _ in 0..DRAWS {
            if trace.steps().len() == length {
                break;
            }
            let event = self.some_event(&trace)?;
            if is_admitted(trace.steps(), &event) {
                trace.extend(event)?;
            }
        }
        Ok(trace)
    }
}

/// Compares on so many traces of the shape, drawn in the manner.
pub(crate) fn compare_drawn(
    heap: Global,
    shape: Shape,
    manner: Manner,
    traces: u64,
) -> anyhow::Result<Tally> {
    let mut generator = Generator {
        state: 1,
        shape,
        manner,
        thread: 0,
    };
    let mut tally = Tally::default();
    for _ in 0..traces {
        compare(heap, &generator.trace(heap)?, &mut tally)?;
    }
    Ok(tally)
}
