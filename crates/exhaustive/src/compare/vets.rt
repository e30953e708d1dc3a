//! What Vet says of some lists that the search met, and of the same from back to front.
use crate::compare::Comparison;
use crate::steps::{Step, is_reordering};
use reel::Reel;
use std::alloc::AllocError;

impl<R: Reel> Comparison<'_, R> {
    /// Compares what Vet says of the list, for each pair.
    fn compare_vet(&mut self, list: &[Step]) -> Result<(), AllocError> {
        let search = self.search;
        let positions: Vec<u16> = list.iter().map(|step| step.position).collect(search.heap)?;
        let reordering = is_reordering(list);
        for finding in &search.findings {
            let (p, q) = finding.positions();
            let answer = self.session.vet(p, q, positions.as_slice());
            let left = reordering && finding.is_enabled(list);
            self.tally.compare(answer == Ok(left));
        }
        Ok(())
    }

    /// Compares what Vet says of each sample, and of the sample from back to front.
    pub(super) fn compare_vets(&mut self) -> Result<(), AllocError> {
        let search = self.search;
        for sample in &search.samples {
            self.compare_vet(sample.as_slice())?;
            let reversed: Vec<Step> = sample.iter().rev().copied().collect(search.heap)?;
            self.compare_vet(reversed.as_slice())?;
        }
        Ok(())
    }
}
