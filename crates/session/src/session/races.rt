//! Races: Judge and Witness.
ghost use Rattle.std.specs.Prelude.{◌≡◌, true, ◌↔◌, [], ◌∷◌, length, None};
ghost use Rattle.trace.specs.Traces.{Admits};
ghost use Rattle.session.specs.Questions.{pair_refusal};
ghost use Rattle.trace.specs.Lookups.{previous_events};
ghost use Rattle.trace.specs.Cuts.{SyncWants, listed};
ghost use Rattle.predict.specs.Held.{held, Closes};
ghost use Rattle.answer.specs.Buffers.{Filled};
ghost use Rattle.answer.specs.Collectors.{Adds};
ghost use Rattle.session.specs.Races.{RacingPair, Witness, Shows, Witnessed, Races, OutsideSync, FoundRace, Judged};

use crate::session::Session;
use answer::collector::{BufferFault, Collector};
use answer::fault::PairFault;
use answer::verdict::{Verdict, WitnessFault};
use predict::closure::{closure_before, closure_before_from};
use predict::cut::Cut;
use predict::lookup::is_outside;
use predict::rules::SyncRule;
use reel::Reel;

impl<R: Reel> Session<R> {
    /// The sync closure of the previous events of p and q, if the two race.
    pub(super) fn race(&self, p: usize, q: usize) -> Option<Cut>
        ensures found { let t = self.now.trace in (None ≡ pair_refusal t p q → FoundRace t p q result) }
        ensures admitted { Admits self.now.trace }
    {
        let before = closure_before(&SyncRule {}, &self.reel, &[p, q]);
        is_outside(&self.reel, &before, p).then_some(before)
    }

    /// Whether p races with q, where `base` is the sync closure of the previous event of q, which every closure for q has inside.
    pub(super) fn races_beyond(&self, base: &Cut, p: usize, q: usize) -> bool
        ensures { let t = self.now.trace in (Closes SyncWants t (previous_events t (q ∷ [])) base.now.bounds → (result ≡ true) ↔ RacingPair t p q) }
    {
        if self.check_pair(p, q).is_err() {
            return false;
        }
        if !is_outside(&self.reel, base, p) {
            return false;
        }
        let before = closure_before_from(&SyncRule {}, &self.reel, *base, &[p, q]);
        is_outside(&self.reel, &before, p)
    }

    /// Judge: whether the events at p and q race.
    pub fn judge(&self, p: usize, q: usize) -> Result<Verdict, PairFault>
        ensures closure { let t = self.now.trace in Judged t p q (OutsideSync t p q) result }
        ensures races { let t = self.now.trace in Judged t p q (Races t p q) result }
    {
        self.check_pair(p, q)?;
        match self.race(p, q) {
            Some(_) => Ok(Verdict::Race),
            None => Ok(Verdict::NoRace),
        }
    }

    /// Collects the positions that the cut has, ascending.
    fn collect_cut(&self, cut: &Cut, out: &mut Collector<'_, u16>)
        ensures { let t = self.now.trace in Adds (listed (held t cut.now.bounds) (length t)) out.old out.new }
    {
        for (position, event) in self.reel.iter().enumerate() {
            if cut.holds(position, &event) {
                // every position fits
                out.push(position as u16);
            }
        }
    }

    /// Writes the positions that the cut has, ascending.
    fn write_cut(&self, cut: &Cut, buffer: &mut [u16]) -> Result<usize, BufferFault>
        ensures { let t = self.now.trace in Filled (listed (held t cut.now.bounds) (length t)) buffer.old result buffer.new }
    {
        let mut out = Collector::over(buffer);
        self.collect_cut(cut, &mut out);
        out.answer()
    }

    /// Witness: writes the events of the sync closure of the previous events of p and q, in trace order, and answers how many they are.
    pub fn witness(&self, p: usize, q: usize, buffer: &mut [u16]) -> Result<usize, WitnessFault>
        ensures closure { let t = self.now.trace in Witnessed t p q (Witness t p q) buffer.old result buffer.new }
        ensures shows { let t = self.now.trace in Witnessed t p q (Shows t p q) buffer.old result buffer.new }
    {
        self.check_pair(p, q)?;
        let cut = self.race(p, q).ok_or(WitnessFault::NoRace)?;
        Ok(self.write_cut(&cut, buffer)?)
    }
}
