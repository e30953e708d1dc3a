//! Lists of racing pairs.
ghost use Rattle.std.specs.Prelude.{ℕ, List, map};
ghost use Rattle.answer.specs.Buffers.{Filled};
ghost use Rattle.answer.specs.Collectors.{Adds};
ghost use Rattle.session.specs.Races.{PartnersOf, Partnered, SweepOf, Swept};
ghost use Rattle.answer.specs.declared.verdict.RacePair.{RacePair as Pair};

use crate::session::Session;
use answer::collector::{BufferFault, Collector};
use answer::verdict::{Entry, PartnersFault, RacePair};
use predict::closure::closure_before;
use predict::rules::SyncRule;
use reel::Reel;

impl<R: Reel> Session<R> {
    /// Collects the partners of q, ascending.
    pub(super) fn collect_partners<T: Entry>(&self, q: usize, out: &mut Collector<'_, T>)
        ensures { (ps : List ℕ) × PartnersOf self.now.trace q ps × Adds (map (λ p. T.Entry.entry p q) ps) out.old out.new }
    {
        if q >= self.count() {
            return;
        }
        let base = closure_before(&SyncRule {}, &self.reel, &[q]);
        for p in 0..q {
            if self.races_beyond(&base, p, q) {
                // every position fits
                out.push(T::of(p as u16, q as u16));
            }
        }
    }

    /// Writes the partners of q, ascending.
    fn write_partners(&self, q: usize, buffer: &mut [u16]) -> Result<usize, BufferFault>
        ensures { (ps : List ℕ) × PartnersOf self.now.trace q ps × Filled ps buffer.old result buffer.new }
    {
        let mut out = Collector::over(buffer);
        self.collect_partners(q, &mut out);
        out.answer()
    }

    /// Partners: writes every position below q that races with q, ascending, and answers how many they are.
    pub fn partners(&self, q: usize, buffer: &mut [u16]) -> Result<usize, PartnersFault>
        ensures { Partnered self.now.trace q buffer.old result buffer.new }
    {
        if q >= self.count() {
            return Err(PartnersFault::NoEvent);
        }
        Ok(self.write_partners(q, buffer)?)
    }

    /// Collects every racing pair, by the later and then the earlier position.
    fn collect_sweep(&self, out: &mut Collector<'_, RacePair>)
        ensures { (xs : List Pair) × SweepOf self.now.trace xs × Adds xs out.old out.new }
    {
        for q in 0..self.count() {
            self.collect_partners(q, out);
        }
    }

    /// Sweep: writes every racing pair, by the later and then the earlier position, and answers how many they are.
    pub fn sweep(&self, buffer: &mut [RacePair]) -> Result<usize, BufferFault>
        ensures { Swept self.now.trace buffer.old result buffer.new }
    {
        let mut out = Collector::over(buffer);
        self.collect_sweep(&mut out);
        out.answer()
    }
}
