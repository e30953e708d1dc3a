//! The relations that the contracts cite, each on small examples: it holds of a right answer, and not of a wrong one, which the comment on the
//! example names after the word wrong. The contract of each function is the list of the examples about its subject, so the crate is proved only
//! with their proofs; the functions do nothing.
#![tactic(auto)]

ghost use Rattle.relations.specs.Traces.{NoSecondHolder, NoneJoined, SpawnedOnce, PreviousLatest, PreviousSpawn, LastWriteOfVariable, ReleaseOfThread, ReleaseFrees, TableChanges, HeldTurnedAway, TakenWithRoom};
ghost use Rattle.relations.specs.Reorderings.{AscendingOnly, LatestBehind, InTraceOnly, OnceOnly, ThreadOrderKept, LocksKept, ReadsKept, SpawnsKept, AwaitedKept, EnabledOnceSpawned, EnabledAfterAll};
ghost use Rattle.relations.specs.Reorderings.{SectionsSwapped, SwapRefused, SectionReorders};
ghost use Rattle.relations.specs.Next.{AcquiresAgree, ThreadHad, ReadAgrees, AcquireComes, TableAnswered};
ghost use Rattle.relations.specs.Rules.{LawsNeedCause, SyncOfTwo, SyncOfRead, ThreadsWanted, ReleaseWanted, BothWanted, HalvesOfSync, ReleaseMissed, MissedOutside, SearchEnough};
ghost use Rattle.relations.specs.Closures.{CutFromFirst, LessInside, ClosedWithRelease, ClosureLeast, SeedsPrevious, SeedsInTrace, ReleaseReached, ClosesBetween};
ghost use Rattle.relations.specs.Closures.{OutsideSections, FoundOutside};
ghost use Rattle.relations.specs.Orders.{ReleaseFirst, SectionsInOrder, NotBeforeByRead, WorkerInOrder, ReadInOrder, NotScheduledByOther};
ghost use Rattle.relations.specs.Buffers.{FilledAtStart, FilledWhenShort, FilledCollects, CollectedAtStart, OfferedCounts, AddsCount};
ghost use Rattle.relations.specs.Entries.{EventTaken, FullRefuses, RecordedAsRead, StandsUpToDate};
ghost use Rattle.relations.specs.Races.{OtherVerdict, OtherAnswer, OtherRefusal, SchedulablePair, WitnessClosed, LeastShown, SectionShown, WitnessWritten};
ghost use Rattle.relations.specs.Races.{PairsThatRace, BothPartners, AcquireAlone, PartnersWritten, PartnersRefused, PairsInOrder, SweepWhole, SweepFits};
ghost use Rattle.relations.specs.Runs.{VerdictSays, ListSays, FullServed, CutServed, VerdictServed, EmptyUpheld, EnteredStays};
ghost use Rattle.relations.specs.Runs.{RaceOnceEntered, VerdictStays, WitnessAgrees, WitnessStays};
ghost use Rattle.relations.specs.Texts.{LineOfPair, AllLines, PairsReported, RecordsReported, CutReported, NothingReported, RefusalsAnswered};
ghost use Rattle.relations.specs.Texts.{RecordsAnswered, RaceTold, WitnessShown, PartnersListed, RacesFound, LineTold, LineAlone};

/// Traces, what the trace check keeps, and reels.
pub fn traces()
    ensures { NoSecondHolder × NoneJoined × SpawnedOnce × PreviousLatest × PreviousSpawn × LastWriteOfVariable × ReleaseOfThread × ReleaseFrees
        × TableChanges × HeldTurnedAway × TakenWithRoom }
{}

/// Reorderings.
pub fn reorderings()
    ensures { AscendingOnly × LatestBehind × InTraceOnly × OnceOnly × ThreadOrderKept × LocksKept × ReadsKept × SpawnsKept × AwaitedKept × EnabledOnceSpawned
        × EnabledAfterAll × SectionsSwapped × SwapRefused × SectionReorders }
{}

/// Events that may come next.
pub fn next_events()
    ensures { AcquiresAgree × ThreadHad × ReadAgrees × AcquireComes × TableAnswered }
{}

/// Rules.
pub fn rules()
    ensures { LawsNeedCause × SyncOfTwo × SyncOfRead × ThreadsWanted × ReleaseWanted × BothWanted × HalvesOfSync × ReleaseMissed × MissedOutside
        × SearchEnough }
{}

/// Cuts and closures.
pub fn closures()
    ensures { CutFromFirst × LessInside × ClosedWithRelease × ClosureLeast × SeedsPrevious × SeedsInTrace × ReleaseReached × ClosesBetween
        × OutsideSections × FoundOutside }
{}

/// Happens-before and schedulable happens-before.
pub fn orders()
    ensures { ReleaseFirst × SectionsInOrder × NotBeforeByRead × WorkerInOrder × ReadInOrder × NotScheduledByOther }
{}

/// What a caller's buffer holds.
pub fn buffers()
    ensures { FilledAtStart × FilledWhenShort × FilledCollects × CollectedAtStart × OfferedCounts × AddsCount }
{}

/// Records that are offered to a session.
pub fn entries()
    ensures { EventTaken × FullRefuses × RecordedAsRead × StandsUpToDate }
{}

/// Verdicts, witnesses, partners and sweeps.
pub fn races()
    ensures { OtherVerdict × OtherAnswer × OtherRefusal × SchedulablePair × WitnessClosed × LeastShown × SectionShown × WitnessWritten
        × PairsThatRace × BothPartners × AcquireAlone × PartnersWritten × PartnersRefused × PairsInOrder × SweepWhole × SweepFits }
{}

/// Calls and how they are answered, and whole runs.
pub fn runs()
    ensures { VerdictSays × ListSays × FullServed × CutServed × VerdictServed × EmptyUpheld × EnteredStays × RaceOnceEntered
        × VerdictStays × WitnessAgrees × WitnessStays }
{}

/// The texts that the programs print.
pub fn texts()
    ensures { LineOfPair × AllLines × PairsReported × RecordsReported × CutReported × NothingReported × RefusalsAnswered
        × RecordsAnswered × RaceTold × WitnessShown × PartnersListed × RacesFound × LineTold × LineAlone }
{}
