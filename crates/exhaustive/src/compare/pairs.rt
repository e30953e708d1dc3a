//! What is said of one pair: Judge, Witness, Unordered and Schedulable.
use crate::compare::{BLANK, Comparison, PLACES};
use crate::relations::{happens_before, is_scheduled_before, leads};
use crate::search::{Finding, Search, Shown};
use crate::steps::Step;
use answer::verdict::WitnessFault;
use reel::Reel;
use std::alloc::AllocError;

/// Where the previous event of the step stands: the latest earlier one of its thread, or the spawn of its thread where there is none.
fn previous_of(trace: &[Step], step: &Step) -> Option<u16> {
    trace
        .iter()
        .rev()
        .find(|other| other.event.thread == step.event.thread && other.position < step.position)
        .map(|other| other.position)
        .or(step.spawn)
}

/// Whether happens-before does not put the first event of a pair before the second.
fn is_unordered(search: &Search<'_>, finding: &Finding) -> Result<bool, AllocError> {
    let p = finding.first.position;
    let q = finding.second.position;
    Ok(!leads(search.heap, happens_before, search.trace, p, q)?)
}

/// Whether the second event of a pair has no previous event, or the first is not before that in schedulable happens-before.
fn is_schedulable(search: &Search<'_>, finding: &Finding) -> Result<bool, AllocError> {
    let p = finding.first.position;
    let Some(last) = previous_of(search.trace, &finding.second) else {
        return Ok(true);
    };
    Ok(!leads(search.heap, is_scheduled_before, search.trace, p, last)?)
}

/// Whether the list is a least reordering that leaves both events of a racing pair enabled, in trace order: as long as the shortest one, and
/// of the positions that all of them have.
fn is_witness(
    search: &Search<'_>,
    finding: &Finding,
    shown: &Shown,
    list: &[u16],
) -> Result<bool, AllocError> {
    let steps: Vec<Step> = list
        .iter()
        .filter_map(|position| search.trace.get(usize::from(*position)).copied())
        .collect(search.heap)?;
    Ok(
        list.len() == shown.least
            && steps.len() == shown.least
            && list.iter().eq(shown.common.iter())
            && finding.is_left_by(steps.as_slice()),
    )
}

impl<R: Reel> Comparison<'_, R> {
    /// Compares what Judge says of a pair.
    fn compare_judge(&mut self, finding: &Finding) {
        let (p, q) = finding.positions();
        self.tally
            .compare(self.session.judge(p, q) == Ok(finding.verdict()));
    }

    /// Compares what Unordered and Schedulable say of a pair.
    fn compare_relations(&mut self, finding: &Finding) -> Result<(), AllocError> {
        let (p, q) = finding.positions();
        let unordered = is_unordered(self.search, finding)?;
        self.tally
            .compare(self.session.unordered(p, q) == Ok(unordered));
        let schedulable = is_schedulable(self.search, finding)?;
        self.tally
            .compare(self.session.schedulable(p, q) == Ok(schedulable));
        Ok(())
    }

    /// Compares what Witness says of a pair.
    fn compare_witness(&mut self, finding: &Finding) -> Result<(), AllocError> {
        let mut buffer = [BLANK; PLACES];
        let (p, q) = finding.positions();
        let same = match (self.session.witness(p, q, &mut buffer), &finding.shown) {
            (Ok(count), Some(shown)) if count <= PLACES => {
                is_witness(self.search, finding, shown, &buffer[..count])?
            }
            (Err(WitnessFault::NoRace), None) => true,
            _ => false,
        };
        self.tally.compare(same);
        Ok(())
    }

    /// Compares all that is said of each pair.
    pub(super) fn compare_pairs(&mut self) -> Result<(), AllocError> {
        let search = self.search;
        for finding in &search.findings {
            self.compare_judge(finding);
            self.compare_relations(finding)?;
            self.compare_witness(finding)?;
        }
        Ok(())
    }
}
