//! What was tried, in numbers.
use crate::search::Search;
use crate::steps::{Trace, names_thread};
use std::alloc::AllocError;
use std::ops::AddAssign;

/// How much was tried, and how many answers differ from what the search found.
#[derive(Default, Drop)]
pub(crate) struct Tally {
    pub(crate) traces: u64,
    /// How many inner acquires and inner releases the traces have.
    pub(crate) inner: u64,
    /// How many spawns and joins they have.
    pub(crate) spawns: u64,
    pub(crate) pairs: u64,
    pub(crate) races: u64,
    pub(crate) reorderings: u64,
    pub(crate) answers: u64,
    pub(crate) differences: u64,
    /// The first trace on which an answer differs, if there is one.
    pub(crate) differs: Option<Trace>,
}

impl Tally {
    /// Counts what a search has tried.
    pub(crate) fn count(&mut self, search: &Search<'_>) {
        let inner = search.trace.iter().filter(|step| step.is_inner()).count();
        let spawns = search
            .trace
            .iter()
            .filter(|step| names_thread(step.event.kind))
            .count();
        let pairs = search.findings.len();
        let races = search
            .findings
            .iter()
            .filter(|finding| finding.is_race())
            .count();
        self.traces = self.traces.saturating_add(1);
        self.inner = self.inner.saturating_add(inner as u64);
        self.spawns = self.spawns.saturating_add(spawns as u64);
        self.reorderings = self.reorderings.saturating_add(search.reorderings);
        self.pairs = self.pairs.saturating_add(pairs as u64);
        self.races = self.races.saturating_add(races as u64);
    }

    /// Counts an answer, and whether it is the one that was found.
    pub(crate) fn compare(&mut self, same: bool) {
        self.answers = self.answers.saturating_add(1);
        if !same {
            self.differences = self.differences.saturating_add(1);
        }
    }

    /// Keeps the trace, if an answer on it is the first that differs.
    pub(crate) fn keep(&mut self, trace: &Trace) -> Result<(), AllocError> {
        if self.differences > 0 && self.differs.is_none() {
            self.differs = Some(trace.clone()?);
        }
        Ok(())
    }
}

/// Adds what another tally has, which was made later.
impl AddAssign for Tally {
    fn add_assign(&mut self, other: Tally) {
        self.traces = self.traces.saturating_add(other.traces);
        self.inner = self.inner.saturating_add(other.inner);
        self.spawns = self.spawns.saturating_add(other.spawns);
        self.pairs = self.pairs.saturating_add(other.pairs);
        self.races = self.races.saturating_add(other.races);
        self.reorderings = self.reorderings.saturating_add(other.reorderings);
        self.answers = self.answers.saturating_add(other.answers);
        self.differences = self.differences.saturating_add(other.differences);
        if self.differs.is_none() {
            self.differs = other.differs;
        }
    }
}
