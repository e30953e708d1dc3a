//! The events of a reel, one after another.
ghost use Rattle.std.specs.Iterator.{YieldsFirst, item_count};
ghost use Rattle.reel.specs.Passing.{left_of};

use crate::Reel;
use trace::event::Event;

/// Gives the events of a reel from a position on.
#[derive(Drop)]
pub struct Events<'a, R> {
    pub(crate) reel: &'a R,
    pub(crate) next: usize,
}

impl<R: Reel> Iterator for Events<'_, R> {
    type Item = Event;

    ghost next_gives = { YieldsFirst (left_of R.Reel.events) };

    ghost remaining = { item_count (left_of R.Reel.events) };

    fn next(&mut self) -> Option<Event> {
        let event = self.reel.event(self.next)?;
        self.next += 1;
        Some(event)
    }
}
