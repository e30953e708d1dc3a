//! Whether a length is a whole number of records, decided by its lowest bits.
ghost use Rattle.std.specs.Prelude.{◌≡◌, ℕ, ◌*◌, ◌↔◌, true};

use trace::record::RECORD;

/// The bits of a length below those that count whole records.
const LOWEST_BITS: usize = RECORD - 1;

/// How many these are.
pub(crate) const RECORD_SHIFT: u32 = 3;

/// Whether so many bytes are whole records, by the lowest three bits alone.
pub fn is_whole(length: usize) -> bool
    ensures { (result ≡ true) ↔ ((n : ℕ) × (length ≡ 8 * n)) }
{
    length & LOWEST_BITS == 0
}
