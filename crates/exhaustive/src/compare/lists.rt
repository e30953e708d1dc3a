//! What is listed: Partners and Sweep.
use crate::compare::{BLANK, Comparison, PLACES};
use answer::verdict::RacePair;
use reel::Reel;
use std::alloc::AllocError;

/// How many pairs of positions below 16 there are.
const PAIRS: usize = 120;

/// Whether the buffer begins with the list, and has blanks after it.
fn holds<T: PartialEq>(buffer: &[T], list: &[T], blank: &T) -> bool {
    buffer
        .strip_prefix(list)
        .is_some_and(|rest| rest.iter().all(|entry| *entry == *blank))
}

/// Whether the call fills the first entries of the blank buffer with the list, and answers how many these are.
fn lists<T: PartialEq, E: Drop, F: FnOnce(&mut [T]) -> Result<usize, E>>(
    buffer: &mut [T],
    call: F,
    list: &[T],
    blank: &T,
) -> bool
    requires { F.IsAlwaysCallable call }
{
    call(buffer).is_ok_and(|count| count == list.len()) && holds(buffer, list, blank)
}

impl<R: Reel> Comparison<'_, R> {
    /// Compares the partners of q, which are the positions that race with it, ascending.
    fn compare_partners(&mut self, q: u16) -> Result<(), AllocError> {
        let partners: Vec<u16> = self
            .search
            .findings
            .iter()
            .filter(|finding| finding.second.position == q && finding.is_race())
            .map(|finding| finding.first.position)
            .collect(self.search.heap)?;
        let session = self.session;
        let same = lists(
            &mut [BLANK; PLACES],
            |buffer| session.partners(usize::from(q), buffer),
            partners.as_slice(),
            &BLANK,
        );
        self.tally.compare(same);
        Ok(())
    }

    /// Compares the sweep, which is the racing pairs, by the later and then the earlier position.
    fn compare_sweep(&mut self) -> Result<(), AllocError> {
        let races: Vec<RacePair> = self
            .search
            .findings
            .iter()
            .filter(|finding| finding.is_race())
            .map(|finding| RacePair {
                first: finding.first.position,
                second: finding.second.position,
            })
            .collect(self.search.heap)?;
        let blank = RacePair {
            first: BLANK,
            second: BLANK,
        };
        let session = self.session;
        let same = lists(
            &mut [blank; PAIRS],
            |buffer| session.sweep(buffer),
            races.as_slice(),
            &blank,
        );
        self.tally.compare(same);
        Ok(())
    }

    /// Compares the partners of each position, and the sweep.
    pub(super) fn compare_lists(&mut self) -> Result<(), AllocError> {
        for step in self.search.trace {
            self.compare_partners(step.position)?;
        }
        self.compare_sweep()
    }
}
