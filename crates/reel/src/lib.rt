//! Reels, which keep the events of a trace: what each reel offers, and two of them.
#![tactic(auto)]

ghost use Rattle.std.specs.Prelude.{◌≡◌, ℕ, ◌≤◌, List, [], length};
ghost use Rattle.std.specs.List.{slice_get};
ghost use Rattle.trace.specs.declared.event.Event.{Event};
ghost use Rattle.reel.specs.declared.TheConstants.{MOST_EVENTS};
ghost use Rattle.reel.specs.Reels.{reel_number, Taken};
ghost use Rattle.reel.specs.Lent.{recorded_in};
ghost use Rattle.reel.specs.Passing.{left_of};

use events::Events;
use trace::event::Event;
use trace::fault::Fault;

pub mod board;
pub mod events;
pub mod host;
#[cfg(test)]
mod tests;
pub mod theorems;

/// How many events a reel can have at most.
pub const MOST_EVENTS: usize = 65_535;

/// Why a reel does not take an event.
#[derive(Clone, Copy, PartialEq, Eq, Debug)]
pub enum ReelFault {
    /// It holds as many events as it has room for.
    Full,
}

impl Fault for ReelFault {
    ghost number = { reel_number };

    fn number(self) -> u8 {
        match self {
            ReelFault::Full => 7,
        }
    }
}

/// A reel: a store of events, in the order in which they were taken. What it means is the list `events` of those that it has, and its
/// capacity `room`, which never changes. `lent` are the bytes that a caller lends to it, as they are, and `loan` names the loan, so that the
/// lender knows the bytes again; both are empty where no one lends any.
pub trait Reel {
    ghost events: { Self → List Event };

    ghost room: { Self → ℕ };

    ghost lent: { Self → List ℕ };

    ghost loan: { Self → List ℕ };

    ghost few: { (x : Self) → length (events x) ≤ room x };

    ghost small: { (x : Self) → room x ≤ MOST_EVENTS };

    /// How many events the reel has.
    fn count(&self) -> usize
        ensures { result ≡ length (events self.now) };

    /// How many events the reel can have.
    fn capacity(&self) -> usize
        ensures { result ≡ room self.now };

    /// The event at a position; none exactly when the position is not below the count.
    fn event(&self, k: usize) -> Option<Event>
        ensures { result ≡ slice_get (events self.now) k };

    /// Takes one event more, if there is room. Of the lent bytes it writes those of the event's record, in its place.
    fn take(&mut self, e: Event) -> Result<(), ReelFault>
        ensures taken { Taken (room self.old) (events self.old) e result (events self.new) }
        ensures same { room self.new ≡ room self.old }
        ensures lent { lent self.new ≡ recorded_in (lent self.old) (events self.old) (events self.new) }
        ensures loan { loan self.new ≡ loan self.old };

    /// Lets all events go, and writes no lent byte.
    fn wipe(&mut self)
        ensures events { events self.new ≡ [] }
        ensures same { room self.new ≡ room self.old }
        ensures lent { lent self.new ≡ lent self.old }
        ensures loan { loan self.new ≡ loan self.old };

    /// The events, from the first on.
    final fn iter(&self) -> Events<'_, Self>
    where
        Self: Sized,
        ensures { left_of events result ≡ events self.now }
    {
        Events {
            reel: self,
            next: 0,
        }
    }
}
