//! The answers of a session, each compared with what the search through all reorderings found.
use crate::check::refusal_of;
use crate::search::Search;
use crate::steps::{Step, Trace};
use crate::tally::Tally;
use reel::Reel;
use reel::board::BoardReel;
use reel::host::HostReel;
use session::session::Session;
use std::alloc::{AllocError, Global};
use trace::fault::Fault;
use trace::record::encode;

mod lists;
mod pairs;
mod vets;

/// How many positions there are at most.
const PLACES: usize = 16;

/// What an entry of a buffer is before the buffer is handed in.
const BLANK: u16 = 0xffff;

/// A session with a trace, beside the search through the reorderings of that trace.
#[derive(Drop)]
struct Comparison<'a, R: Reel> {
    session: &'a Session<R>,
    search: &'a Search<'a>,
    tally: &'a mut Tally,
}

impl<R: Reel> Comparison<'_, R> {
    /// Compares all that the session says.
    fn compare(&mut self) -> Result<(), AllocError> {
        self.compare_pairs()?;
        self.compare_lists()?;
        self.compare_vets()
    }
}

/// Enters the events of the trace.
fn enter<R: Reel>(session: &mut Session<R>, trace: &[Step], tally: &mut Tally) {
    for step in trace {
        tally.compare(session.enter(&encode(&step.event)).is_ok());
    }
}

/// Enters each event again, if the trace check refuses it at the end of the trace, and compares with what number.
fn enter_refused<R: Reel>(session: &mut Session<R>, trace: &[Step], tally: &mut Tally) {
    for step in trace {
        if let Some(number) = refusal_of(trace, &step.event) {
            let refused = session.enter(&encode(&step.event)).err();
            tally.compare(refused.is_some_and(|refusal| refusal.fault.number() == number));
        }
    }
}

/// Compares all that a session over the reel says of the trace.
fn compare_over<R: Reel + Drop>(
    reel: R,
    search: &Search<'_>,
    tally: &mut Tally,
) -> Result<(), AllocError> {
    let mut session = Session::open(reel);
    enter(&mut session, search.trace, tally);
    let mut comparison = Comparison {
        session: &session,
        search: &*search,
        tally,
    };
    comparison.compare()?;
    enter_refused(&mut session, search.trace, tally);
    Ok(())
}

/// Compares all that a session says of the trace, which has at most 16 events. The two reels take turns.
pub(crate) fn compare(heap: Global, trace: &Trace, tally: &mut Tally) -> Result<(), AllocError> {
    let search = Search::through(heap, trace.steps())?;
    tally.count(&search);
    if tally.traces % 2 == 0 {
        compare_over(HostReel::over(&mut [0; 128]), &search, tally)?;
    } else {
        compare_over(BoardReel::new(), &search, tally)?;
    }
    tally.keep(trace)
}
