//! What the events of a cut want of threads.
ghost use Rattle.std.specs.Prelude.{◌≡◌, ℕ, Some, None, length, slice_index_or};
ghost use Rattle.trace.specs.Cuts.{ThreadWants};
ghost use Rattle.trace.specs.Limits.{threads};
ghost use Rattle.predict.specs.Held.{Misses};
ghost use Rattle.predict.specs.Parts.{wanted_of, spawn_noted, event_noted};

use crate::cut::Cut;
use reel::Reel;
use trace::event::Event;
use trace::kind::Kind;
use trace::limits::THREAD_COUNT;

/// Of each thread a spawn so far, and its latest event so far, each if it is outside the cut.
#[derive(Clone, Copy)]
struct Outside {
    // arrays, since a board has no heap
    spawns: [Option<usize>; THREAD_COUNT],
    latest: [Option<usize>; THREAD_COUNT],
    ghost as_many: { length spawns ≡ threads },
    ghost whole: { length latest ≡ threads },
}

impl Outside {
    /// Nothing is outside so far.
    fn new() -> Outside
        ensures spawns { (p : ℕ) → slice_index_or result.spawns p None ≡ None }
        ensures latest { (p : ℕ) → slice_index_or result.latest p None ≡ None }
    {
        Outside {
            spawns: [None; THREAD_COUNT],
            latest: [None; THREAD_COUNT],
        }
    }

    /// What an event of the cut wants of these: the spawn of its thread, and a join the spawn or the last event of the thread that it awaits.
    fn wanted(&self, event: &Event) -> Option<usize>
        ensures { result ≡ wanted_of self.now.spawns self.now.latest event.now }
    {
        let spawn = self.spawns[usize::from(event.thread)];
        if spawn.is_some() || event.kind != Kind::Join {
            return spawn;
        }
        let awaited = usize::from(event.subject);
        self.spawns[awaited].or(self.latest[awaited])
    }

    /// Takes note of an event outside the cut.
    fn note(&mut self, position: usize, event: &Event)
        ensures spawns { (p : ℕ) → slice_index_or self.new.spawns p None ≡ spawn_noted p position event.now (slice_index_or self.old.spawns p None) }
        ensures latest { (p : ℕ) → slice_index_or self.new.latest p None ≡ event_noted p position event.now (slice_index_or self.old.latest p None) }
    {
        self.latest[usize::from(event.thread)] = Some(position);
        if event.kind == Kind::Spawn {
            self.spawns[usize::from(event.subject)] = Some(position);
        }
    }
}

/// What an event of the cut wants of threads, if that is outside the cut: a spawn, or the last event that a join awaits.
pub(crate) fn missing_thread_event<R: Reel>(reel: &R, cut: &Cut) -> Option<usize>
    ensures { let t = R.Reel.events reel.now in Misses ThreadWants t cut.now.bounds result }
{
    let mut outside = Outside::new();
    let end = cut.end();
    for (k, event) in reel.iter().enumerate() {
        if k >= end {
            break;
        }
        if cut.holds(k, &event) {
            let wanted = outside.wanted(&event);
            if wanted.is_some() {
                return wanted;
            }
        } else {
            outside.note(k, &event);
        }
    }
    None
}
