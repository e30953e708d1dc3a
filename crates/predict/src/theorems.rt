//! The theorems that seeds have closures, and on what the closures of the two orders are. The contract of each function is a
//! group of them, so the crate is proved only with their proofs; the functions do nothing.

ghost use Rattle.trace.specs.Cuts.{SyncWants, HappensBeforeWants, SchedulableWants};
ghost use Rattle.trace.specs.Orders.{HappensBefore, SchedulableHappensBefore};
ghost use Rattle.predict.specs.ClosureExists.{Existing, Reaching, JustBeforeSeeds, JustBefore};

/// Seeds inside a trace that the trace check admits have a closure under each of the three rules.
pub fn existing_closures()
    ensures { Existing SyncWants × Existing HappensBeforeWants × Existing SchedulableWants }
{}

/// In a trace that the trace check admits, seeds reach each event of any closure of them under one of the three rules.
pub fn reaching_closures()
    ensures { Reaching SyncWants × Reaching HappensBeforeWants × Reaching SchedulableWants }
{}

/// In a trace that the trace check admits, the closure of seeds under the rule of happens-before has just the events that happen
/// before one of them, and that under the rule of schedulable happens-before just those before one of them in that order; so
/// that of one seed q just what is before q.
pub fn closures_by_order()
    ensures seeds { JustBeforeSeeds HappensBeforeWants HappensBefore × JustBeforeSeeds SchedulableWants SchedulableHappensBefore }
    ensures seed { JustBefore HappensBeforeWants HappensBefore × JustBefore SchedulableWants SchedulableHappensBefore }
{}
