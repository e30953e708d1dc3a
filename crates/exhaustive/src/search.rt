//! The search through every sync-preserving correct reordering of a trace.
use crate::steps::{Step, is_reordering};
use answer::verdict::Verdict;
use std::alloc::{AllocError, Global};
use std::collections::BTreeSet;

/// What the lists that leave two events enabled have in common.
#[derive(Drop)]
pub(crate) struct Shown {
    /// How many positions the shortest of them has.
    pub(crate) least: usize,
    /// The positions that all of them have.
    pub(crate) common: BTreeSet<u16>,
}

impl Shown {
    /// What one list shows.
    fn by(heap: Global, list: &[Step]) -> Result<Shown, AllocError> {
        let common = list.iter().map(|step| step.position).collect(heap)?;
        Ok(Shown {
            least: list.len(),
            common,
        })
    }

    /// Takes one more list into account.
    fn add(&mut self, list: &[Step]) {
        self.least = self.least.min(list.len());
        self.common.retain(|position| list.iter().any(|step| step.position == *position));
    }
}

/// Two conflicting events, the earlier one first, and what the lists show that leave both enabled, if there are any.
#[derive(Drop)]
pub(crate) struct Finding {
    pub(crate) first: Step,
    pub(crate) second: Step,
    pub(crate) shown: Option<Shown>,
}

impl Finding {
    /// Whether the list leaves both events enabled.
    pub(crate) fn is_enabled(&self, list: &[Step]) -> bool {
        self.first.is_enabled(list) && self.second.is_enabled(list)
    }

    /// Takes a list into account, if it leaves both events enabled.
    fn note(&mut self, heap: Global, list: &[Step]) -> Result<(), AllocError> {
        if self.is_enabled(list) {
            match &mut self.shown {
                Some(shown) => shown.add(list),
                None => self.shown = Some(Shown::by(heap, list)?),
            }
        }
        Ok(())
    }

    /// Whether the list is a sync-preserving correct reordering that leaves both events enabled.
    pub(crate) fn is_left_by(&self, list: &[Step]) -> bool {
        is_reordering(list) && self.is_enabled(list)
    }

    /// Whether the two events race.
    pub(crate) fn is_race(&self) -> bool {
        self.shown.is_some()
    }

    /// The verdict on the two events.
    pub(crate) fn verdict(&self) -> Verdict {
        if self.is_race() {
            Verdict::Race
        } else {
            Verdict::NoRace
        }
    }

    /// Where the two events stand.
    pub(crate) fn positions(&self) -> (usize, usize) {
        (
            usize::from(self.first.position),
            usize::from(self.second.position),
        )
    }
}

/// Of so many lists one is kept as a sample.
const SAMPLED: u64 = 128;

/// Whether the list with the number is kept as a sample: many of the first, and fewer and fewer later.
fn is_sample(number: u64) -> bool {
    number.is_power_of_two() || number % SAMPLED == 0
}

/// A search, and what it has seen so far.
#[derive(Drop)]
pub(crate) struct Search<'a> {
    pub(crate) heap: Global,
    pub(crate) trace: &'a [Step],
    /// The list that it is at.
    list: Vec<Step>,
    /// The conflicting pairs, by the later and then the earlier position.
    pub(crate) findings: Vec<Finding>,
    /// How many sync-preserving correct reorderings there were.
    pub(crate) reorderings: u64,
    /// How many lists were none, but would be without their last position.
    broken: u64,
    /// Some lists of both sorts.
    pub(crate) samples: Vec<Vec<Step>>,
}

/// The conflicting pairs of a trace, by the later and then the earlier position.
fn pairs_of(heap: Global, trace: &[Step]) -> Result<Vec<Finding>, AllocError> {
    trace
        .iter()
        .enumerate()
        .flat_map(|(q, second)| trace[..q].iter().map(move |first| (*first, *second)))
        .filter(|(first, second)| first.event.conflicts(&second.event))
        .map(|(first, second)| Finding {
            first,
            second,
            shown: None,
        })
        .collect(heap)
}

impl<'a> Search<'a> {
    /// Takes a reordering into account.
    fn visit(&mut self) -> Result<(), AllocError> {
        self.reorderings = self.reorderings.saturating_add(1);
        for finding in self.findings.iter_mut() {
            finding.note(self.heap, self.list.as_slice())?;
        }
        if is_sample(self.reorderings) {
            self.samples.push(self.list.clone()?)?;
        }
        Ok(())
    }

    /// Takes into account that the list with the step after it is no reordering.
    fn turn_away(&mut self, step: &Step) -> Result<(), AllocError> {
        self.broken = self.broken.saturating_add(1);
        if is_sample(self.broken) {
            let mut sample = self.list.clone()?;
            sample.push(*step)?;
            self.samples.push(sample)?;
        }
        Ok(())
    }

    /// Visits the list and every longer one that begins with it, by at most `left` positions more.
    ///
    /// The conditions on a reordering are on each of its positions and those before it, so what a reordering begins with is one too. So this
    /// comes to every one, a position at a time, though it goes no further from a list that is none.
    fn explore(&mut self, left: usize) -> Result<(), AllocError> {
        self.visit()?;
        if left == 0 {
            return Ok(());
        }
        for step in self.trace {
            if step.may_follow(self.list.as_slice()) {
                self.list.push(*step)?;
                self.explore(left - 1)?;
                let _ = self.list.pop();
            } else {
                self.turn_away(step)?;
            }
        }
        Ok(())
    }

    /// The search through all reorderings of the trace. None has more positions than the trace.
    pub(crate) fn through(heap: Global, trace: &'a [Step]) -> Result<Search<'a>, AllocError> {
        let mut search = Search {
            heap,
            trace,
            list: Vec::new(heap),
            findings: pairs_of(heap, trace)?,
            reorderings: 0,
            broken: 0,
            samples: Vec::new(heap),
        };
        search.explore(trace.len())?;
        Ok(search)
    }
}
