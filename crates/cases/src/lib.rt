//! Worked examples of what a session answers. The contract of the function is the list of them, so the crate is proved only with
//! their proofs; the function does nothing.
#![tactic(auto)]

ghost use Rattle.cases.specs.Cases.{AllAdmitted, SectionsRace, SectionsOrdered, LockedNoRace, ReadNoRace, ReadRaces, ChainNoRace, ThreeSwept, OneLockedRaces, InnerSection, WorkerAwaited};
ghost use Rattle.cases.specs.Cases.{WitnessVetted, LocksByHolder, LocksDeep, ThreadsByLife, PairsRefused, LastSubjects, SubjectsRefused, DumpLengths, LastRoom};

pub mod lent;
#[cfg(test)]
mod tests;

/// The answers on eight small traces, and at the limits of records, dumps and reels.
pub fn worked_cases()
    ensures { AllAdmitted × SectionsRace × SectionsOrdered × LockedNoRace × ReadNoRace × ReadRaces × ChainNoRace × ThreeSwept × OneLockedRaces × InnerSection
        × WorkerAwaited × WitnessVetted × LocksByHolder × LocksDeep × ThreadsByLife × PairsRefused × LastSubjects × SubjectsRefused × DumpLengths × LastRoom }
{}
