//! The theorems on what Enter and Load come to. The contract of each function is a group of them, so the crate is proved only with
//! their proofs; the functions do nothing.

ghost use Rattle.session.specs.Entries.{enter_all, load};
ghost use Rattle.session.specs.LoadTheorems.{TakesAll, AddsAll, LoadStops, LoadMeasures, LoadsWhole, EnterAllStops, EnterTakes, EnterAdds, EnterKeeps};

/// Enter takes a record just if it is that of an event which the trace check admits next and for which there is room; else the events
/// stay, and the record is refused.
pub fn entering()
    ensures { EnterTakes × EnterAdds × EnterKeeps }
{}

/// Load takes all records of a dump just if it can; else, of a dump of whole records, it takes those before the first that is refused. It
/// refuses with 1 just where the dump is no whole number of records.
pub fn loading()
    ensures { TakesAll load × AddsAll load × LoadStops × LoadMeasures × LoadsWhole }
{}

/// Records of any bytes that are entered one after another are all taken just if they can be; else those before the first that is
/// refused.
pub fn entering_all()
    ensures { TakesAll enter_all × AddsAll enter_all × EnterAllStops }
{}
