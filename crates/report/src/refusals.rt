//! Why a record or a question is refused, in words.
ghost use Rattle.std.specs.Prelude.{◌≡◌, IfOk, Some, slice_index, string_bytes};
ghost use Rattle.trace.specs.Faults.{trace_number};
ghost use Rattle.trace.specs.Records.{kind_of};
ghost use Rattle.answer.specs.Faults.{entry_number, refusal};
ghost use Rattle.answer.specs.Verdicts.{witness_number};
ghost use Rattle.report.specs.Refusals.{record_at, subject_in, past_limit, trace_words, record_words, question_words, refused_record, refused_question};

use answer::collector::BufferFault;
use answer::fault::{EntryFault, EntryRefusal, PairFault};
use answer::verdict::WitnessFault;
use reel::ReelFault;
use std::alloc::{AllocError, Global};
use std::fmt;
use trace::fault::Fault;
use trace::kind::Kind;
use trace::limits::{LOCKS, THREADS, VARIABLES};
use trace::locks::TraceFault;
use trace::record::{RECORD, RecordFault};

/// How deep a lock is held at most: as deep as a byte says.
const DEEPEST: u8 = u8::MAX;

/// Record `index` of an input.
fn record_at(input: &[u8], index: usize) -> &[u8]
    ensures { result.now ≡ record_at input.now index }
{
    let rest = input.get(index.saturating_mul(RECORD)..).unwrap_or(&[]);
    rest.get(..RECORD).unwrap_or(rest)
}

/// A variable, a lock or a thread that is past the last one, by the kind of the event that names it.
#[derive(Clone, Copy)]
struct PastLimit {
    kind: Option<Kind>,
    subject: u16,
}

impl fmt::Display for PastLimit {
    ghost output = { λ l. Some (past_limit l.kind l.subject) };

    fn fmt<W: fmt::Write>(&self, f: &mut fmt::Formatter<W>) -> fmt::Result {
        let subject = self.subject;
        match self.kind {
            Some(Kind::Read | Kind::Write) => {
                write!(f, "variable {subject} is not below {VARIABLES}")
            }
            None | Some(Kind::Acquire | Kind::Release) => {
                write!(f, "lock {subject} is not below {LOCKS}")
            }
            Some(Kind::Spawn) => write!(f, "spawned thread {subject} is not below {THREADS}"),
            Some(Kind::Join) => write!(f, "joined thread {subject} is not below {THREADS}"),
        }
    }
}

/// An event that the trace check turns away: its thread, its subject, and why.
#[derive(Clone, Copy)]
struct TurnedAway {
    thread: u8,
    subject: u16,
    fault: TraceFault,
}

impl fmt::Display for TurnedAway {
    ghost output = { λ e. Some (trace_words e.thread e.subject (trace_number e.fault)) };

    fn fmt<W: fmt::Write>(&self, f: &mut fmt::Formatter<W>) -> fmt::Result {
        let thread = self.thread;
        let subject = self.subject;
        match self.fault {
            TraceFault::Ended => write!(f, "thread {thread} was joined by an earlier event"),
            TraceFault::NotStartable if u16::from(thread) == subject => {
                write!(f, "thread {thread} cannot spawn or join itself")
            }
            TraceFault::NotStartable => {
                write!(
                    f,
                    "spawns thread {subject}, which has events, or was spawned or joined before"
                )
            }
            TraceFault::AlreadyHeld => {
                write!(f, "acquires lock {subject}, which another thread holds")
            }
            TraceFault::TooDeep => {
                write!(
                    f,
                    "acquires lock {subject}, which thread {thread} would hold more than {DEEPEST} deep"
                )
            }
            TraceFault::NotHolder => {
                write!(
                    f,
                    "releases lock {subject}, which thread {thread} does not hold"
                )
            }
        }
    }
}

/// A refused record: its bytes, and what refuses it where there is room for so many events.
#[derive(Clone, Copy)]
struct RefusedRecord<'a> {
    room: usize,
    bytes: &'a [u8],
    fault: EntryFault,
}

impl RefusedRecord<'_> {
    /// Byte `index`, 0 where there is none.
    fn byte(&self, index: usize) -> u8
        ensures { result ≡ slice_index self.now.bytes.now index }
    {
        self.bytes.get(index).copied().unwrap_or(0)
    }

    /// The kind of the event, if there is one with that number.
    fn kind(&self) -> Option<Kind>
        ensures { result ≡ kind_of (slice_index self.now.bytes.now 0) }
    {
        Kind::try_from(self.byte(0)).ok()
    }

    /// The number of the variable, the lock or the thread that it names.
    fn subject(&self) -> u16
        ensures { result ≡ subject_in self.now.bytes.now }
    {
        u16::from_le_bytes([self.byte(2), self.byte(3)])
    }
}

impl fmt::Display for RefusedRecord<'_> {
    ghost output = { λ r. Some (record_words r.room r.bytes.now (entry_number r.fault)) };

    fn fmt<W: fmt::Write>(&self, f: &mut fmt::Formatter<W>) -> fmt::Result {
        let thread = self.byte(1);
        let subject = self.subject();
        match self.fault {
            EntryFault::Record(RecordFault::Length) => {
                let length = self.bytes.len();
                write!(f, "{length} bytes, where a record has {RECORD}")
            }
            EntryFault::Record(RecordFault::Kind) => {
                let kind = self.byte(0);
                write!(f, "there is no kind {kind}")
            }
            EntryFault::Record(RecordFault::Thread) => {
                write!(f, "thread {thread} is not below {THREADS}")
            }
            EntryFault::Record(RecordFault::Subject) => {
                let kind = self.kind();
                PastLimit { kind, subject }.fmt(f)
            }
            EntryFault::Trace(fault) => {
                let turned = TurnedAway {
                    thread,
                    subject,
                    fault,
                };
                turned.fmt(f)
            }
            EntryFault::Reel(ReelFault::Full) => {
                let room = self.room;
                write!(f, "there is room for {room} events")
            }
        }
    }
}

/// The text of the line of a refused record, which is one of the input where there is room for so many events.
pub fn refused_record(
    heap: Global,
    room: usize,
    input: &[u8],
    refused: &EntryRefusal,
) -> Result<String, AllocError>
    ensures { IfOk result (λ s. string_bytes s ≡ refused_record room input.now (refusal refused.now)) }
{
    let fault = refused.fault;
    let number = fault.number();
    let index = refused.index;
    let bytes = record_at(input, index);
    let words = RefusedRecord { room, bytes, fault };
    format!(in heap; "refused {number} record {index}: {words}\n")
}

/// Two positions that are asked about, and how many events there are.
#[derive(Clone, Copy)]
pub(crate) struct Asked {
    pub(crate) count: usize,
    pub(crate) p: usize,
    pub(crate) q: usize,
}

/// A refused question: what was asked, and what refuses it. Every fault of a question is one of a witness.
#[derive(Clone, Copy)]
struct RefusedQuestion {
    asked: Asked,
    fault: WitnessFault,
}

impl fmt::Display for RefusedQuestion {
    ghost output = { λ r. Some (question_words r.asked.count r.asked.p r.asked.q (witness_number r.fault)) };

    fn fmt<W: fmt::Write>(&self, f: &mut fmt::Formatter<W>) -> fmt::Result {
        let Asked { count, p, q } = self.asked;
        match self.fault {
            WitnessFault::Pair(PairFault::NoEvent) => {
                write!(f, "there are {count} events, counted from 0")
            }
            WitnessFault::Pair(PairFault::Order) => write!(f, "event {p} is not before event {q}"),
            WitnessFault::Pair(PairFault::NoConflict) => write!(
                f,
                "events {p} and {q} are not a write and another access of one variable by different threads"
            ),
            WitnessFault::NoRace => write!(f, "events {p} and {q} do not race"),
            WitnessFault::Buffer(BufferFault::Full) => {
                write!(f, "there are more entries than places")
            }
        }
    }
}

/// The text of the line of a refused question.
pub(crate) fn refused_question(
    heap: Global,
    asked: Asked,
    fault: WitnessFault,
) -> Result<String, AllocError>
    ensures { IfOk result (λ s. string_bytes s ≡ refused_question asked.count asked.p asked.q (witness_number fault)) }
{
    let number = fault.number();
    let words = RefusedQuestion { asked, fault };
    format!(in heap; "refused {number}: {words}\n")
}
