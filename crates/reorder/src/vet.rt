//! Decides whether a list of positions is a sync-preserving correct reordering of a trace.
ghost use Rattle.std.specs.Prelude.{◌≡◌, ℕ, ◌<◌, true, cond, ◌↔◌, [], ◌∷◌, ◌++◌, Some, None, IsSome, IfSome};
ghost use Rattle.std.proofs.Props.{props};
ghost use mathlib.Core.List.{Memᴰ};
ghost use Rattle.trace.specs.declared.event.Event.{Event};
ghost use Rattle.trace.specs.declared.kind.Kind.TheVariants.{Acquire};
ghost use Rattle.trace.specs.Traces.{At, Previous, SpawnOf};
ghost use Rattle.trace.specs.Lookups.{spawns};
ghost use Rattle.trace.specs.Reorderings.{picked, LatestWrite, Enabled, Leaves};
ghost use Rattle.trace.specs.Checks.{Tells};
ghost use Rattle.reorder.specs.Comes.{Reorders, AcquiredBefore, HasSpawns, HasEvents, Agrees, Answered};

use predict::lookup::{is_write_at, last_write};
use reel::Reel;
use trace::check::TraceCheck;
use trace::event::Event;
use trace::kind::Kind;

/// Whether the event spawns the thread.
fn is_spawn_of(event: Event, thread: u16) -> bool
    ensures { result ≡ spawns thread event }
{
    event.kind == Kind::Spawn && event.subject == thread
}

/// A list of positions that is a sync-preserving correct reordering of the reel's trace, and what the trace check keeps after its events.
#[derive(Drop)]
struct Reordering<'a, R: Reel> {
    reel: &'a R,
    list: &'a [u16],
    check: TraceCheck,
    ghost reorders: { ∥ Reorders (R.Reel.events reel.now) list.now ∥₁ },
    ghost told: { Tells check (picked (R.Reel.events reel.now) list.now) } by { Prim.hlevel props },
}

impl<'a, R: Reel> Reordering<'a, R> {
    /// The list as a reordering of the reel's trace, if it is one.
    fn of(reel: &'a R, list: &'a [u16]) -> Option<Self>
        ensures decided { let t = R.Reel.events reel.now in IsSome result ↔ Reorders t list.now }
        ensures same { IfSome result (λ r. (r.reel.now ≡ reel.now) × (r.list.now ≡ list.now)) }
    {
        let mut so_far = Reordering {
            reel,
            list: &list[..0],
            check: TraceCheck::new(),
        };
        for (i, position) in list.iter().enumerate() {
            if !so_far.goes_on(usize::from(*position), &list[..=i]) {
                return None;
            }
        }
        Some(so_far)
    }

    /// Whether the position stands in the list.
    fn has(&self, position: usize) -> bool
        ensures { (result ≡ true) ↔ Memᴰ position self.now.list.now }
    {
        match u16::try_from(position) {
            Ok(k) => self.list.contains(&k),
            Err(_) => false,
        }
    }

    /// Whether each spawn and each event of the thread before the position stands in the list.
    fn has_before(&self, position: usize, thread: u16) -> bool
        ensures { let t = R.Reel.events self.now.reel.now in (result ≡ true)
            ↔ (HasSpawns t self.now.list.now position thread × HasEvents t self.now.list.now position thread) }
    {
        for earlier in (0..position).rev() {
            match self.reel.event(earlier) {
                // with an event a reordering has the spawns and the events of its thread before it
                Some(event) if u16::from(event.thread) == thread => return self.has(earlier),
                Some(event) if is_spawn_of(event, thread) && !self.has(earlier) => return false,
                _ => (),
            }
        }
        true
    }

    /// Whether the previous event of the position, if there is one, stands in the list, and each spawn of its thread.
    fn has_previous(&self, position: usize) -> bool
        ensures { let t = R.Reel.events self.now.reel.now in (result ≡ true)
            ↔ (((d : ℕ) → Previous t position d → Memᴰ d self.now.list.now)
            × ((s : ℕ) → SpawnOf t s position → Memᴰ s self.now.list.now)) }
    {
        match self.reel.event(position) {
            Some(event) => self.has_before(position, u16::from(event.thread)),
            None => true,
        }
    }

    /// Whether the position is enabled after the list.
    fn is_enabled(&self, position: usize) -> bool
        ensures { let t = R.Reel.events self.now.reel.now in (result ≡ true) ↔ Enabled t self.now.list.now position }
    {
        !self.has(position) && self.has_previous(position)
    }

    /// Whether each of the events is enabled after the list.
    fn leaves_enabled(&self, events: &[usize]) -> bool
        ensures { let t = R.Reel.events self.now.reel.now in (result ≡ true)
            ↔ ((e : ℕ) → Memᴰ e events.now → Enabled t self.now.list.now e) }
    {
        events.iter().all(|event| self.is_enabled(*event))
    }

    /// The latest write to the variable in the list.
    fn latest_write(&self, variable: u16) -> Option<usize>
        ensures { let t = R.Reel.events self.now.reel.now in ((w : ℕ) → (result ≡ Some w) ↔ LatestWrite t self.now.list.now variable w) }
    {
        self.list
            .iter()
            .rev()
            .map(|k| usize::from(*k))
            .find(|position| is_write_at(self.reel, *position, variable))
    }

    /// Whether the first position, if it has an acquire of the lock, stands before the other.
    fn is_acquired_before(&self, acquire: usize, position: usize, lock: u16) -> bool
        ensures { let t = R.Reel.events self.now.reel.now in (result ≡ true)
            ↔ ((e : Event) → At t acquire e → e.kind ≡ Acquire → e.subject ≡ lock → acquire < position) }
    {
        if acquire < position {
            return true;
        }
        match self.reel.event(acquire) {
            Some(event) if event.kind == Kind::Acquire => event.subject != lock,
            _ => true,
        }
    }

    /// Whether the acquires of the lock in the list, inner ones too, stand before the position.
    fn all_acquired_before(&self, position: usize, lock: u16) -> bool
        ensures { let t = R.Reel.events self.now.reel.now in (result ≡ true) ↔ ((a : ℕ) → Memᴰ a self.now.list.now
            → (e : Event) → At t a e → e.kind ≡ Acquire → e.subject ≡ lock → a < position) }
    {
        self.list.iter().all(|k| self.is_acquired_before(usize::from(*k), position, lock))
    }

    /// Whether the outer acquires of the lock in the list stand before the position.
    fn acquired_before(&self, position: usize, lock: u16) -> bool
        ensures { let t = R.Reel.events self.now.reel.now in (result ≡ true) ↔ AcquiredBefore t self.now.list.now position lock }
    {
        // only where some acquire does not, it has to be told which are outer
        if self.all_acquired_before(position, lock) {
            return true;
        }
        let mut check = TraceCheck::new();
        for k in self.list.iter() {
            let acquire = usize::from(*k);
            if let Some(event) = self.reel.event(acquire) {
                if event.kind == Kind::Acquire
                    && event.subject == lock
                    && acquire >= position
                    && check.depth(event.thread, event.subject) == 0
                {
                    return false;
                }
                // the trace check refuses no event of a reordering
                let _ = check.turn(&event);
            }
        }
        true
    }

    /// Whether the event at the position, if that is enabled, agrees with the trace after the list: a read has its last write there, an
    /// outer acquire comes after the earlier outer acquires of its lock, and a join after the spawn and the events of the thread that it awaits.
    fn agrees(&self, position: usize, event: &Event) -> bool
        ensures { let t = R.Reel.events self.now.reel.now in (At t position event.now → Enabled t self.now.list.now position
            → (result ≡ true) ↔ Agrees t self.now.list.now position event.now) }
    {
        match event.kind {
            Kind::Read => self.latest_write(event.subject) == last_write(self.reel, position),
            Kind::Acquire => {
                self.check.depth(event.thread, event.subject) > 0
                    || self.acquired_before(position, event.subject)
            }
            Kind::Join => self.has_before(position, event.subject),
            Kind::Write | Kind::Release | Kind::Spawn => true,
        }
    }

    /// Whether the position may come next. The longer list, which has it behind the others, is then the list.
    fn goes_on(&mut self, position: usize, longer: &'a [u16]) -> bool
        requires { longer.now ≡ self.old.list.now ++ (position ∷ []) }
        ensures answered { let t = R.Reel.events self.old.reel.now in
            Answered t self.old.list.now position (cond result (Some self.new.check) None) }
        ensures same { self.new.reel.now ≡ self.old.reel.now }
        ensures longer { result ≡ true → self.new.list.now ≡ longer.now }
    {
        let Some(event) = self.reel.event(position) else {
            return false;
        };
        if !self.is_enabled(position)
            || !self.agrees(position, &event)
            || self.check.turn(&event).is_err()
        {
            return false;
        }
        self.list = longer;
        true
    }
}

/// Whether the list is a sync-preserving correct reordering of the reel's trace that leaves the events enabled.
pub fn leaves<R: Reel>(reel: &R, events: &[usize], list: &[u16]) -> bool
    ensures { let t = R.Reel.events reel.now in (result ≡ true) ↔ Leaves t events.now list.now }
{
    Reordering::of(reel, list).is_some_and(|reordering| reordering.leaves_enabled(events))
}
