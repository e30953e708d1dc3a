//! A session and the calls that put records into it.
ghost use Rattle.std.specs.Prelude.{◌≡◌, ◌≤◌, ℕ, [], length};
ghost use Rattle.std.specs.List.{slice_get};
ghost use Rattle.trace.specs.Faults.{told};
ghost use Rattle.trace.specs.Traces.{Admits};
ghost use Rattle.answer.specs.Faults.{at_index};
ghost use Rattle.reel.specs.Passing.{left_of};
ghost use Rattle.session.specs.States.{State};
ghost use Rattle.session.specs.Entries.{Stands, Takes, enter, load};

use crate::length::{RECORD_SHIFT, is_whole};
use crate::records::enter_records;
use answer::fault::{EntryFault, EntryRefusal};
use reel::events::Events;
use reel::{MOST_EVENTS, Reel, ReelFault};
use std::marker::Model;
use trace::check::TraceCheck;
use trace::event::Event;
use trace::record::{RecordFault, decode};

mod lists;
mod questions;
mod races;

/// The events are in the reel, and the trace check keeps what it keeps at their end.
#[derive(Drop)]
pub struct Session<R: Reel> {
    reel: R,
    check: TraceCheck,
}

/// Of a session its callers see the trace so far, which the trace check admits, how many events it can have, and the bytes that are lent to
/// its reel.
impl<R: Reel> Model for Session<R> {
    ghost Value = { State };

    ghost view = { λ s. record { trace = R.events s.reel; room = R.room s.reel; lent = R.lent s.reel; loan = R.loan s.reel } };

    ghost invariant = { λ s. Stands s.check (R.events s.reel) };
}

impl<R: Reel> Session<R> {
    /// Opens a session over the reel, which is wiped. No lent byte is written.
    pub fn open(mut reel: R) -> Session<R>
        ensures trace { result.trace ≡ [] }
        ensures room { result.room ≡ R.Reel.room reel }
        ensures lent { result.lent ≡ R.Reel.lent reel }
        ensures loan { result.loan ≡ R.Reel.loan reel }
    {
        reel.wipe();
        Session {
            reel,
            check: TraceCheck::new(),
        }
    }

    /// Hands the reel back, with the events and the lent bytes that the session has.
    pub fn into_reel(self) -> R
        ensures trace { R.Reel.events result ≡ self.trace }
        ensures room { R.Reel.room result ≡ self.room }
        ensures lent { R.Reel.lent result ≡ self.lent }
        ensures loan { R.Reel.loan result ≡ self.loan }
    {
        let Session { reel, check: _ } = self;
        reel
    }

    /// Takes the event of a record, if no check refuses it.
    fn take_record(&mut self, record: &[u8]) -> Result<(), EntryFault>
        ensures { let t = self.old.trace in Takes (enter self.old.room t «record».now) self.old «record».now (told (at_index 0) result) self.new }
    {
        let event = decode(record)?;
        if self.reel.count() >= self.reel.capacity() {
            // the trace check comes first, and keeps no event that the reel refuses
            let kept = self.check;
            self.check.turn(&event)?;
            self.check = kept;
            return Err(EntryFault::from(ReelFault::Full));
        }
        self.check.turn(&event)?;
        self.reel.take(event)?;
        Ok(())
    }

    /// Enter: takes one record.
    pub fn enter(&mut self, record: &[u8]) -> Result<(), EntryRefusal>
        ensures { let t = self.old.trace in Takes (enter self.old.room t «record».now) self.old «record».now result self.new }
    {
        self.take_record(record)
            .map_err(|fault| EntryRefusal { fault, index: 0 })
    }

    /// Load: takes the records of a dump, one after another, up to the first that is refused; answers how many it took.
    pub fn load(&mut self, dump: &[u8]) -> Result<usize, EntryRefusal>
        ensures { let t = self.old.trace in Takes (load self.old.room t dump.now) self.old dump.now result self.new }
    {
        if !is_whole(dump.len()) {
            let fault = EntryFault::from(RecordFault::Length);
            let index = dump.len() >> RECORD_SHIFT;
            return Err(EntryRefusal { fault, index });
        }
        enter_records(self, dump)
    }

    /// How many events the session has.
    pub fn count(&self) -> usize
        ensures { result ≡ length self.now.trace }
    {
        self.reel.count()
    }

    /// How many events it can have.
    pub fn capacity(&self) -> usize
        ensures { result ≡ self.now.room }
    {
        self.reel.capacity()
    }

    /// The event at a position; none exactly when the position is not below the count.
    pub fn event(&self, position: usize) -> Option<Event>
        ensures { result ≡ slice_get self.now.trace position }
    {
        self.reel.event(position)
    }

    /// The events, from the first on; the trace check admits them, and they are 65,535 at most.
    pub fn iter(&self) -> Events<'_, R>
        ensures events { left_of R.Reel.events result ≡ self.now.trace }
        ensures admitted { Admits self.now.trace }
        ensures few { length self.now.trace ≤ MOST_EVENTS }
    {
        self.reel.iter()
    }
}
