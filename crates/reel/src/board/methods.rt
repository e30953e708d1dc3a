//! What a reel in a table of its own does.
ghost use Rattle.std.specs.Prelude.{◌≡◌, []};
ghost use Rattle.std.proofs.Common.{lit≤};
ghost use Rattle.reel.specs.Boards.{board_room, kept, kept_few};

use crate::board::BoardReel;
use crate::board::table::{ENTRIES, Table};
use crate::{Reel, ReelFault};
use trace::event::Event;

impl BoardReel {
    /// An empty reel.
    pub fn new() -> BoardReel
        ensures { kept result ≡ [] }
    {
        BoardReel {
            table: Table::new(),
        }
    }
}

impl Reel for BoardReel {
    ghost events = { kept };

    ghost room = { λ _. board_room };

    ghost lent = { λ _. [] };

    ghost loan = { λ _. [] };

    ghost few = { kept_few };

    ghost small = { λ _. lit≤ tt };

    fn count(&self) -> usize {
        self.table.count
    }

    fn capacity(&self) -> usize {
        ENTRIES
    }

    fn event(&self, k: usize) -> Option<Event> {
        if k >= self.table.count {
            return None;
        }
        Some(self.table.at(k))
    }

    fn take(&mut self, e: Event) -> Result<(), ReelFault> {
        if self.table.count >= ENTRIES {
            return Err(ReelFault::Full);
        }
        self.table.put(e);
        Ok(())
    }

    fn wipe(&mut self) {
        self.table.count = 0;
    }
}
