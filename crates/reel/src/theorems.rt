//! The theorems on lent bytes. The contract of the function is a group of them, so the crate is proved only with their proofs; it does
//! nothing.
ghost use Rattle.reel.specs.Lent.{LentStays, LentRecords, LentTogether};

/// What lent bytes hold: they stay where no event comes; else the records of the events are in their places, in one step or in more.
pub fn lent_bytes()
    ensures { LentStays × LentRecords × LentTogether }
{}
