//! The closure of seeds under a rule: a cut that grows until the rule misses no event.
ghost use Rattle.std.specs.Prelude.{◌≡◌, ℕ, List, fold};
ghost use Rattle.std.specs.Iterator.{IsFinite, Drains};
ghost use Rattle.trace.specs.Traces.{Admits};
ghost use Rattle.trace.specs.Lookups.{previous_events};
ghost use Rattle.trace.specs.Cuts.{Closed, Inside, AllReached};
ghost use Rattle.predict.specs.Held.{held, taken_in, SeedsWithin, Closes};

use crate::cut::Cut;
use crate::lookup::previous;
use crate::rule::Rule;
use reel::Reel;

/// Takes in the event at a position, if there is one, and all before it in its thread.
fn take_in<R: Reel>(cut: &mut Cut, reel: &R, position: usize)
    ensures { let t = R.Reel.events reel.now in cut.new.bounds ≡ taken_in t cut.old.bounds position }
{
    if let Some(event) = reel.event(position) {
        cut.take_in(position, &event);
    }
}

/// The cut with the events at the seeds, and all before them in their threads.
fn with_seeds<R: Reel, I: Iterator<Item = usize> + Drop>(reel: &R, start: Cut, seeds: I) -> Cut
    requires can { I.can_next seeds }
    requires ends { IsFinite (I.remaining seeds) }
    ensures { let t = R.Reel.events reel.now in
        ((ss : List ℕ) × Drains I.next_gives seeds ss × (result.bounds ≡ fold (taken_in t) start.bounds ss)) }
{
    let mut cut = start;
    for seed in seeds {
        take_in(&mut cut, reel, seed);
    }
    cut
}

/// The cut, grown by what the rule misses until it misses nothing.
fn grown<R: Reel, S: Rule<R>>(rule: &S, reel: &R, start: Cut) -> Cut
    ensures kept { let t = R.Reel.events reel.now in Inside (held t start.bounds) (held t result.bounds) }
    ensures closed { let t = R.Reel.events reel.now in (Admits t → Closed S.Rule.wants t (held t result.bounds)) }
    ensures reached { let t = R.Reel.events reel.now in ((ss : List ℕ) → Admits t
        → AllReached S.Rule.wants t ss (held t start.bounds) → AllReached S.Rule.wants t ss (held t result.bounds)) }
{
    let mut cut = start;
    while let Some(position) = rule.missing(reel, &cut) {
        take_in(&mut cut, reel, position);
    }
    cut
}

/// The closure of the seeds, from a cut on that has only events that the seeds reach.
pub fn closure_from<R: Reel, S: Rule<R>>(rule: &S, reel: &R, start: Cut, seeds: &[usize]) -> Cut
    ensures { let t = R.Reel.events reel.now in (Admits t → SeedsWithin t seeds.now
        → AllReached S.Rule.wants t seeds.now (held t start.bounds) → Closes S.Rule.wants t seeds.now result.bounds) }
{
    grown(rule, reel, with_seeds(reel, start, seeds.iter().copied()))
}

/// The closure of the seeds.
pub fn closure<R: Reel, S: Rule<R>>(rule: &S, reel: &R, seeds: &[usize]) -> Cut
    ensures { let t = R.Reel.events reel.now in (Admits t → SeedsWithin t seeds.now
        → Closes S.Rule.wants t seeds.now result.bounds) }
{
    closure_from(rule, reel, Cut::empty(), seeds)
}

/// The closure of the previous events of some events, from a cut on that has only events that these seeds reach.
pub fn closure_before_from<R: Reel, S: Rule<R>>(
    rule: &S,
    reel: &R,
    start: Cut,
    events: &[usize],
) -> Cut
    ensures { let t = R.Reel.events reel.now in (Admits t
        → AllReached S.Rule.wants t (previous_events t events.now) (held t start.bounds)
        → Closes S.Rule.wants t (previous_events t events.now) result.bounds) }
{
    let seeds = events.iter().filter_map(|event| previous(reel, *event));
    grown(rule, reel, with_seeds(reel, start, seeds))
}

/// The closure of the previous events of some events.
pub fn closure_before<R: Reel, S: Rule<R>>(rule: &S, reel: &R, events: &[usize]) -> Cut
    ensures { let t = R.Reel.events reel.now in (Admits t → Closes S.Rule.wants t (previous_events t events.now) result.bounds) }
{
    closure_before_from(rule, reel, Cut::empty(), events)
}
