//! Verdicts, and why a call about races is refused.
ghost use Rattle.std.specs.Prelude.{◌≡◌, ℕ};
ghost use Rattle.answer.specs.declared.verdict.WitnessFault.TheVariants.{Pair, Buffer};
ghost use Rattle.answer.specs.declared.verdict.PartnersFault.TheVariants.{Buffer as BufferOf};
ghost use Rattle.answer.specs.Verdicts.{verdict_number, witness_number, witness_layer, partners_number, partners_layer};

use crate::collector::BufferFault;
use crate::fault::{Layer, Layered, PairFault};
use trace::fault::Fault;

/// Whether two accesses race.
#[derive(Clone, Copy, PartialEq, Eq, Debug)]
pub enum Verdict {
    NoRace,
    Race,
}

impl Verdict {
    /// 0 for no race, 1 for race.
    pub fn number(self) -> u8
        ensures { result ≡ verdict_number self }
    {
        match self {
            Verdict::NoRace => 0,
            Verdict::Race => 1,
        }
    }
}

/// The positions of two accesses that race, the earlier one first.
#[derive(Clone, Copy, PartialEq, Eq, Debug)]
pub struct RacePair {
    pub first: u16,
    pub second: u16,
}

/// An entry of a buffer that stands for a racing pair.
pub trait Entry: Copy {
    ghost entry: { ℕ → ℕ → Self };

    /// The entry of the pair of p and q.
    fn of(p: u16, q: u16) -> Self
        ensures { result ≡ entry p q };
}

/// In a list for q, the pair is told by p alone.
impl Entry for u16 {
    ghost entry = { λ p q. p };

    fn of(p: u16, _q: u16) -> u16 {
        p
    }
}

/// In a list of pairs it is told by both positions.
impl Entry for RacePair {
    ghost entry = { λ p q. record { first = p; second = q } };

    fn of(p: u16, q: u16) -> RacePair {
        RacePair {
            first: p,
            second: q,
        }
    }
}

/// Why there is no witness.
#[derive(Clone, Copy, PartialEq, Debug)]
pub enum WitnessFault {
    /// The two positions cannot be asked about.
    Pair(PairFault),
    /// The two do not race.
    NoRace,
    /// The witness is longer than the buffer.
    Buffer(BufferFault),
}

impl Fault for WitnessFault {
    ghost number = { witness_number };

    fn number(self) -> u8 {
        match self {
            WitnessFault::Pair(fault) => fault.number(),
            WitnessFault::NoRace => 11,
            WitnessFault::Buffer(fault) => fault.number(),
        }
    }
}

impl Layered for WitnessFault {
    ghost layer = { witness_layer };

    fn layer(self) -> Layer {
        match self {
            WitnessFault::Pair(fault) => fault.layer(),
            WitnessFault::NoRace => Layer::Verdict,
            WitnessFault::Buffer(fault) => fault.layer(),
        }
    }
}

impl From<PairFault> for WitnessFault {
    ghost from_gives = { λ f r. r ≡ Pair f };

    fn from(fault: PairFault) -> WitnessFault {
        WitnessFault::Pair(fault)
    }
}

impl From<BufferFault> for WitnessFault {
    ghost from_gives = { λ f r. r ≡ Buffer f };

    fn from(fault: BufferFault) -> WitnessFault {
        WitnessFault::Buffer(fault)
    }
}

/// Why there is no list of partners.
#[derive(Clone, Copy, PartialEq, Debug)]
pub enum PartnersFault {
    /// The position has no event.
    NoEvent,
    /// The buffer has too few places for the partners.
    Buffer(BufferFault),
}

impl Fault for PartnersFault {
    ghost number = { partners_number };

    fn number(self) -> u8 {
        match self {
            PartnersFault::NoEvent => 8,
            PartnersFault::Buffer(fault) => fault.number(),
        }
    }
}

impl Layered for PartnersFault {
    ghost layer = { partners_layer };

    fn layer(self) -> Layer {
        match self {
            PartnersFault::NoEvent => Layer::Pair,
            PartnersFault::Buffer(fault) => fault.layer(),
        }
    }
}

impl From<BufferFault> for PartnersFault {
    ghost from_gives = { λ f r. r ≡ BufferOf f };

    fn from(fault: BufferFault) -> PartnersFault {
        PartnersFault::Buffer(fault)
    }
}
