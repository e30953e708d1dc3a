//! Examples of what a C host is answered. They are the contract of the function, so the crate is proved only with their proofs; the function does
//! nothing.
ghost use Rattle.host.specs.Examples.{EmptyDump, CutDump, RaceDump, OneAnswer};

/// The numbers for an empty dump, for one that is cut short and for two records that race, and that there is no other.
pub fn host_answers()
    ensures { EmptyDump × CutDump × RaceDump × OneAnswer }
{}
