//! Fills a caller's buffer from its start.
ghost use Rattle.std.specs.Prelude.{[], ◌∷◌, ◌≡◌, ℕ, ◌≤◌, length, Ok};
ghost use Rattle.answer.specs.Buffers.{buffer_number, buffer_layer};

use crate::fault::{Layer, Layered};
use trace::fault::Fault;

/// Why a buffer takes no entry.
#[derive(Clone, Copy, PartialEq, Eq, Debug)]
pub enum BufferFault {
    /// More came than it has places for.
    Full,
}

impl Fault for BufferFault {
    ghost number = { buffer_number };

    fn number(self) -> u8 {
        match self {
            BufferFault::Full => 12,
        }
    }
}

impl Layered for BufferFault {
    ghost layer = { buffer_layer };

    fn layer(self) -> Layer {
        Layer::Buffer
    }
}

/// The first entries of the buffer are written, as many as `written` says; the others are as the caller left them. Where an entry found no
/// place, `written` is the refusal, and all places are written; it and all further entries are let go.
#[derive(Drop)]
pub struct Collector<'a, T> {
    entries: &'a mut [T],
    written: Result<usize, BufferFault>,
    ghost within: { (n : ℕ) → written ≡ Ok n → n ≤ length entries.now },
}

impl<'a, T: Copy> Collector<'a, T> {
    ghost use Rattle.answer.specs.Collectors.{Adds};

    /// A collector that has written nothing.
    pub fn over(entries: &'a mut [T]) -> Collector<'a, T>
        ensures written { result.written ≡ Ok 0 }
        ensures entries { result.entries.now ≡ entries.old }
        ensures lender { result.entries.ghost_name ≡ entries.entry.ghost_name }
    {
        Collector {
            entries,
            written: Ok(0),
        }
    }

    /// Writes one entry more, if the buffer has a place for it.
    pub fn push(&mut self, entry: T)
        ensures { Adds (entry ∷ []) self.old self.new }
    {
        let Ok(at) = self.written else {
            return;
        };
        if at >= self.entries.len() {
            self.written = Err(BufferFault::Full);
            return;
        }
        self.entries[at] = entry;
        self.written = Ok(at + 1);
    }

    /// How many entries there were, or the refusal where some found no place.
    pub fn answer(&self) -> Result<usize, BufferFault>
        ensures { result ≡ self.now.written }
    {
        self.written
    }
}
