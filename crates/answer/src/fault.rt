//! Why a session refuses a record or a question.
ghost use Rattle.std.specs.Prelude.{◌≡◌};
ghost use Rattle.answer.specs.declared.fault.EntryFault.TheVariants.{Record, Trace, Reel};
ghost use Rattle.answer.specs.Faults.{entry_number, entry_layer, pair_number, pair_layer};

use reel::ReelFault;
use trace::fault::Fault;
use trace::locks::TraceFault;
use trace::record::RecordFault;

/// Where a refusal comes from.
#[derive(Clone, Copy, PartialEq, Eq, Debug)]
pub enum Layer {
    /// The bytes are no record.
    Record,
    /// The trace check does not admit the event.
    Trace,
    /// The reel is full.
    Reel,
    /// The positions cannot be asked about.
    Pair,
    /// There is no race to show.
    Verdict,
    /// The buffer is too short.
    Buffer,
}

/// A refusal that one layer gives.
pub trait Layered: Fault {
    ghost use Rattle.answer.specs.declared.fault.Layer.{Layer};

    ghost layer: { Self → Layer };

    /// The layer that refuses.
    fn layer(self) -> Layer
        ensures { result ≡ layer self };
}

/// Why a record is not taken: what the layer that refuses it says of it.
#[derive(Clone, Copy, PartialEq, Debug)]
pub enum EntryFault {
    Record(RecordFault),
    Trace(TraceFault),
    Reel(ReelFault),
}

impl Fault for EntryFault {
    ghost number = { entry_number };

    fn number(self) -> u8 {
        match self {
            EntryFault::Record(fault) => fault.number(),
            EntryFault::Trace(fault) => fault.number(),
            EntryFault::Reel(fault) => fault.number(),
        }
    }
}

impl Layered for EntryFault {
    ghost layer = { entry_layer };

    fn layer(self) -> Layer {
        match self {
            EntryFault::Record(_) => Layer::Record,
            EntryFault::Trace(_) => Layer::Trace,
            EntryFault::Reel(_) => Layer::Reel,
        }
    }
}

impl From<RecordFault> for EntryFault {
    ghost from_gives = { λ f r. r ≡ Record f };

    fn from(fault: RecordFault) -> EntryFault {
        EntryFault::Record(fault)
    }
}

impl From<TraceFault> for EntryFault {
    ghost from_gives = { λ f r. r ≡ Trace f };

    fn from(fault: TraceFault) -> EntryFault {
        EntryFault::Trace(fault)
    }
}

impl From<ReelFault> for EntryFault {
    ghost from_gives = { λ f r. r ≡ Reel f };

    fn from(fault: ReelFault) -> EntryFault {
        EntryFault::Reel(fault)
    }
}

/// Why two positions cannot be asked about, in the order in which it is looked for.
#[derive(Clone, Copy, PartialEq, Eq, Debug)]
pub enum PairFault {
    /// One of them has no event.
    NoEvent,
    /// The first is not the lower one.
    Order,
    /// There is no conflict between their events.
    NoConflict,
}

impl Fault for PairFault {
    ghost number = { pair_number };

    fn number(self) -> u8 {
        match self {
            PairFault::NoEvent => 8,
            PairFault::Order => 9,
            PairFault::NoConflict => 10,
        }
    }
}

impl Layered for PairFault {
    ghost layer = { pair_layer };

    fn layer(self) -> Layer {
        Layer::Pair
    }
}

/// A refused record: why, and how many records of the call stand before it.
#[derive(Clone, Copy, PartialEq, Debug)]
pub struct EntryRefusal {
    pub fault: EntryFault,
    pub index: usize,
}
