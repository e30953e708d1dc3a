//! The record of an event: eight bytes, of the kind, the thread, the subject in two and the site in four, low byte first.
ghost use Rattle.std.specs.Prelude.{◌≡◌, Ok};
ghost use Rattle.trace.specs.declared.event.Event.{Event};
ghost use Rattle.trace.specs.Records.{number, kind_of, event_of, meaning, record_of};
ghost use Rattle.trace.specs.Faults.{record_number, told};
ghost use Rattle.trace.specs.declared.record.RecordFault.TheVariants.{Kind as Unknown};
ghost use Rattle.std.specs.Option.{ok_or};

use crate::event::Event;
use crate::fault::Fault;
use crate::kind::Kind;
use crate::limits::THREADS;

/// How many bytes a record has.
pub const RECORD: usize = 8;

/// Why bytes are no record, in the order in which it is looked for.
#[derive(Clone, Copy, PartialEq, Eq, Debug)]
pub enum RecordFault {
    /// There are not eight bytes.
    Length,
    /// No kind has the number.
    Kind,
    /// The thread is past the last one.
    Thread,
    /// The variable, the lock or the thread that it names is past the last one.
    Subject,
}

impl Fault for RecordFault {
    ghost number = { record_number };

    fn number(self) -> u8 {
        match self {
            RecordFault::Length => 1,
            RecordFault::Kind => 2,
            RecordFault::Thread => 3,
            RecordFault::Subject => 4,
        }
    }
}

/// The number of a kind.
impl From<Kind> for u8 {
    ghost from_gives = { λ kind n. n ≡ number kind };

    fn from(kind: Kind) -> u8 {
        match kind {
            Kind::Read => 1,
            Kind::Write => 2,
            Kind::Acquire => 3,
            Kind::Release => 4,
            Kind::Spawn => 5,
            Kind::Join => 6,
        }
    }
}

/// The kind with a number.
impl TryFrom<u8> for Kind {
    type Error = RecordFault;

    ghost try_from_gives = { λ n r. r ≡ ok_or (kind_of n) Unknown };

    fn try_from(byte: u8) -> Result<Kind, RecordFault> {
        match byte {
            1 => Ok(Kind::Read),
            2 => Ok(Kind::Write),
            3 => Ok(Kind::Acquire),
            4 => Ok(Kind::Release),
            5 => Ok(Kind::Spawn),
            6 => Ok(Kind::Join),
            _ => Err(RecordFault::Kind),
        }
    }
}

/// The event of these parts, if they are within their limits.
pub fn event_of(kind: Kind, thread: u8, subject: u16, site: u32) -> Result<Event, RecordFault>
    ensures { told record_number result ≡ event_of kind thread subject site }
{
    if thread >= THREADS {
        return Err(RecordFault::Thread);
    }
    if subject >= kind.subjects() {
        return Err(RecordFault::Subject);
    }
    Ok(Event {
        kind,
        thread,
        subject,
        site,
    })
}

/// What bytes mean.
pub fn decode(record: &[u8]) -> Result<Event, RecordFault>
    ensures answer { told record_number result ≡ meaning «record».now }
    ensures back { (e : Event) → result ≡ Ok e → record_of e ≡ «record».now }
{
    match record {
        [kind, thread, low, high, a, b, c, d] => {
            let kind = Kind::try_from(*kind)?;
            let subject = u16::from_le_bytes([*low, *high]);
            let site = u32::from_le_bytes([*a, *b, *c, *d]);
            event_of(kind, *thread, subject, site)
        }
        _ => Err(RecordFault::Length),
    }
}

/// The record of an event.
pub fn encode(event: &Event) -> [u8; RECORD]
    ensures bytes { result ≡ record_of event.now }
    ensures back { meaning result ≡ Ok event.now }
{
    let site = event.site;
    let [low, high] = event.subject.to_le_bytes();
    let [a, b, c, d] = site.to_le_bytes();
    [u8::from(event.kind), event.thread, low, high, a, b, c, d]
}
