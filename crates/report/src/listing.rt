//! The listing of a dump: a line for each event, then their number; or the line of the first refusal.
ghost use Rattle.std.specs.Prelude.{◌≡◌, IfOk, Some, string_bytes};
ghost use Rattle.answer.specs.Faults.{refusal};
ghost use Rattle.report.specs.Texts.{deed, level, at_depth, event_line, event_lines, events_line, listing, refusal_line};

use answer::fault::EntryRefusal;
use reel::Reel;
use session::session::Session;
use std::alloc::{AllocError, Global};
use std::fmt;
use trace::check::TraceCheck;
use trace::event::Event;
use trace::fault::Fault;
use trace::kind::Kind;

/// What an event of a kind does, and to what.
#[derive(Clone, Copy)]
struct Deed(Kind);

impl fmt::Display for Deed {
    ghost output = { λ d. Some (deed d.0) };

    fn fmt<W: fmt::Write>(&self, f: &mut fmt::Formatter<W>) -> fmt::Result {
        f.write_str(match self.0 {
            Kind::Read => "reads variable",
            Kind::Write => "writes variable",
            Kind::Acquire => "acquires lock",
            Kind::Release => "releases lock",
            Kind::Spawn => "spawns thread",
            Kind::Join => "joins thread",
        })
    }
}

/// How deep a hold is.
#[derive(Clone, Copy)]
struct Level(u16);

impl Level {
    /// Of the hold that an acquire makes, or that a release ends, where the thread is so deep in the lock before it; the other kinds have none.
    fn of(kind: Kind, depth: u8) -> Level
        ensures { result.0 ≡ level kind depth }
    {
        Level(match kind {
            Kind::Read | Kind::Write | Kind::Spawn | Kind::Join => 0,
            Kind::Acquire => u16::from(depth) + 1,
            Kind::Release => u16::from(depth),
        })
    }
}

impl fmt::Display for Level {
    ghost output = { λ l. Some (at_depth l.0) };

    fn fmt<W: fmt::Write>(&self, f: &mut fmt::Formatter<W>) -> fmt::Result {
        let depth = self.0;
        if depth > 1 {
            write!(f, " at depth {depth}")
        } else {
            Ok(())
        }
    }
}

/// The line of the event at a position, whose thread is so deep in its lock before it.
#[derive(Clone, Copy)]
struct EventLine {
    position: usize,
    event: Event,
    depth: u8,
}

impl fmt::Display for EventLine {
    ghost output = { λ l. Some (event_line l.position l.event l.depth) };

    fn fmt<W: fmt::Write>(&self, f: &mut fmt::Formatter<W>) -> fmt::Result {
        let position = self.position;
        let thread = self.event.thread;
        let deed = Deed(self.event.kind);
        let subject = self.event.subject;
        let level = Level::of(self.event.kind, self.depth);
        let site = self.event.site;
        writeln!(
            f,
            "{position} thread {thread} {deed} {subject}{level} site {site}"
        )
    }
}

/// The line with the number of events.
#[derive(Clone, Copy)]
pub(crate) struct EventsLine(pub(crate) usize);

impl fmt::Display for EventsLine {
    ghost output = { λ l. Some (events_line l.0) };

    fn fmt<W: fmt::Write>(&self, f: &mut fmt::Formatter<W>) -> fmt::Result {
        let count = self.0;
        writeln!(f, "events {count}")
    }
}

/// The line of a refusal.
#[derive(Clone, Copy)]
struct RefusalLine(EntryRefusal);

impl fmt::Display for RefusalLine {
    ghost output = { λ l. Some (refusal_line (refusal l.0)) };

    fn fmt<W: fmt::Write>(&self, f: &mut fmt::Formatter<W>) -> fmt::Result {
        let number = self.0.fault.number();
        let index = self.0.index;
        writeln!(f, "refused {number} record {index}")
    }
}

/// The text of the line of the event at a position, whose thread is so deep in its lock before it.
pub fn event_line(
    heap: Global,
    position: usize,
    event: &Event,
    depth: u8,
) -> Result<String, AllocError>
    ensures { IfOk result (λ s. string_bytes s ≡ event_line position event.now depth) }
{
    let line = EventLine {
        position,
        event: *event,
        depth,
    };
    line.to_string(heap)
}

/// The text of the line with the number of events.
pub fn events_line(heap: Global, count: usize) -> Result<String, AllocError>
    ensures { IfOk result (λ s. string_bytes s ≡ events_line count) }
{
    EventsLine(count).to_string(heap)
}

/// The text of the line of a refusal.
pub fn refusal_line(heap: Global, refused: &EntryRefusal) -> Result<String, AllocError>
    ensures { IfOk result (λ s. string_bytes s ≡ refusal_line (refusal refused.now)) }
{
    RefusalLine(*refused).to_string(heap)
}

/// The lines of a session's events.
#[derive(Drop)]
struct EventLines<'a, R: Reel>(&'a Session<R>);

impl<R: Reel> fmt::Display for EventLines<'_, R> {
    ghost output = { λ l. Some (event_lines l.0.now.trace 0 l.0.now.trace) };

    fn fmt<W: fmt::Write>(&self, f: &mut fmt::Formatter<W>) -> fmt::Result {
        let mut check = TraceCheck::new();
        for (position, event) in self.0.iter().enumerate() {
            let depth = check.depth(event.thread, event.subject);
            let line = EventLine {
                position,
                event,
                depth,
            };
            write!(f, "{line}")?;
            let Ok(()) = check.turn(&event) else {
                unreachable!()
            };
        }
        Ok(())
    }
}

/// The listing of a session's events.
pub fn listing<R: Reel>(heap: Global, session: &Session<R>) -> Result<String, AllocError>
    ensures { IfOk result (λ s. string_bytes s ≡ listing session.now.trace) }
{
    let lines = EventLines(session);
    let last = EventsLine(session.count());
    format!(in heap; "{lines}{last}")
}
