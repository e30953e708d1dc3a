//! What the table of threads does.
ghost use Rattle.std.specs.Prelude.{◌≡◌, ℕ};
ghost use Rattle.trace.specs.Faults.{trace_number, refusal_in};
ghost use Rattle.trace.specs.Traces.{begin, name};
ghost use Rattle.trace.specs.Threads.{unknown, lives, life_refusal};

use crate::event::Event;
use crate::kind::Kind;
use crate::life::Life;
use crate::limits::THREAD_COUNT;
use crate::locks::TraceFault;
use crate::threads::ThreadTable;

impl ThreadTable {
    /// Of no thread anything is known.
    pub(crate) fn new() -> ThreadTable
        ensures { (p : ℕ) → lives result p ≡ unknown }
    {
        let unknown = Life {
            begun: false,
            named: false,
            joined: false,
        };
        ThreadTable {
            lives: [unknown; THREAD_COUNT],
        }
    }

    /// Whether the event may come next, as far as threads are concerned.
    pub(crate) fn check(&self, event: &Event) -> Result<(), TraceFault>
        ensures { refusal_in trace_number result ≡ life_refusal (lives self.now) event.now }
    {
        if self.lives[usize::from(event.thread)].joined {
            return Err(TraceFault::Ended);
        }
        let own = event.subject == u16::from(event.thread);
        match event.kind {
            Kind::Spawn => {
                let awaits = self.lives[usize::from(event.subject)];
                if own || awaits.begun || awaits.named {
                    return Err(TraceFault::NotStartable);
                }
            }
            Kind::Join => {
                if own {
                    return Err(TraceFault::NotStartable);
                }
            }
            Kind::Read | Kind::Write | Kind::Acquire | Kind::Release => {}
        }
        Ok(())
    }

    /// Takes note of the event.
    pub(crate) fn note(&mut self, event: &Event)
        ensures { (p : ℕ) → lives self.new p ≡ name event.now.kind event.now.subject (begin event.now.thread (lives self.old)) p }
    {
        self.lives[usize::from(event.thread)].begun = true;
        match event.kind {
            Kind::Spawn => self.lives[usize::from(event.subject)].named = true,
            Kind::Join => {
                let life = &mut self.lives[usize::from(event.subject)];
                life.named = true;
                life.joined = true;
            }
            Kind::Read | Kind::Write | Kind::Acquire | Kind::Release => {}
        }
    }
}
