//! What a reel in lent bytes does. Of the bytes, only those of a record that is taken are written.
ghost use Rattle.std.specs.Prelude.{◌≡◌, [], ◌∷◌, length};
ghost use Rattle.reel.specs.Reels.{Taken};
ghost use Rattle.reel.specs.Stored.{room_in, room_small};
ghost use Rattle.reel.specs.Lent.{recorded_in};
ghost use Rattle.reel.specs.Hosts.{held, held_few};

use crate::host::HostReel;
use crate::{MOST_EVENTS, Reel, ReelFault};
use trace::event::Event;
use trace::record::{RECORD, decode, encode};

impl<'a> HostReel<'a> {
    /// An empty reel over the bytes.
    pub fn over(bytes: &'a mut [u8]) -> HostReel<'a>
        ensures events { held result ≡ [] }
        ensures room { room_in result.bytes.now ≡ room_in bytes.old }
        ensures bytes { result.bytes.now ≡ bytes.old }
        ensures loan { result.bytes.ghost_name ≡ bytes.entry.ghost_name }
    {
        HostReel { bytes, count: 0 }
    }

    /// Hands the bytes back.
    pub fn into_bytes(self) -> &'a mut [u8]
        ensures bytes { result.now ≡ self.entry.bytes.now }
        ensures loan { result.ghost_name ≡ self.entry.bytes.ghost_name }
    {
        let HostReel { bytes, count: _ } = self;
        bytes
    }
}

impl Reel for HostReel<'_> {
    ghost events = { held };

    ghost room = { λ x. room_in x.bytes.now };

    ghost lent = { λ x. x.bytes.now };

    ghost loan = { λ x. x.bytes.ghost_name ∷ [] };

    ghost few = { held_few };

    ghost small = { λ x. room_small (length x.bytes.now) };

    fn count(&self) -> usize {
        self.count
    }

    fn capacity(&self) -> usize {
        (self.bytes.len() / RECORD).min(MOST_EVENTS)
    }

    fn event(&self, k: usize) -> Option<Event> {
        if k >= self.count {
            return None;
        }
        decode(&self.bytes[RECORD * k..RECORD * k + RECORD]).ok()
    }

    fn take(&mut self, e: Event) -> Result<(), ReelFault>
        ensures taken { Taken (room_in self.old.bytes.now) (held self.old) e result (held self.new) }
        ensures same { room_in self.new.bytes.now ≡ room_in self.old.bytes.now }
        ensures lent { self.new.bytes.now ≡ recorded_in self.old.bytes.now (held self.old) (held self.new) }
        ensures loan { self.new.bytes.ghost_name ∷ [] ≡ self.old.bytes.ghost_name ∷ [] }
    {
        if self.count >= self.capacity() {
            return Err(ReelFault::Full);
        }
        let HostReel { bytes, count } = self;
        let at = RECORD * *count;
        bytes[at..at + RECORD].copy_from_slice(&encode(&e));
        *count += 1;
        Ok(())
    }

    fn wipe(&mut self)
        ensures events { held self.new ≡ [] }
        ensures same { room_in self.new.bytes.now ≡ room_in self.old.bytes.now }
        ensures lent { self.new.bytes.now ≡ self.old.bytes.now }
        ensures loan { self.new.bytes.ghost_name ∷ [] ≡ self.old.bytes.ghost_name ∷ [] }
    {
        self.count = 0;
    }
}
