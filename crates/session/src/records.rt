//! Records that are entered one after another, by Enter.
ghost use Rattle.session.specs.Entries.{offer, enter_all, Takes};

use crate::session::Session;
use answer::fault::EntryRefusal;
use reel::Reel;
use trace::record::RECORD;

/// Enters record `index` of some bytes, which is the index in its refusal.
fn enter_record<R: Reel>(
    session: &mut Session<R>,
    index: usize,
    record: &[u8],
) -> Result<(), EntryRefusal>
    ensures { let s = session.old in Takes (offer s.room s.trace index «record».now) s «record».now result session.new }
{
    session
        .enter(record)
        .map_err(|refused| EntryRefusal { index, ..refused })
}

/// Enters the records of some bytes one after another, up to the first that is refused, as the last is if it is cut short; answers how many
/// it entered.
pub fn enter_records<R: Reel>(session: &mut Session<R>, bytes: &[u8]) -> Result<usize, EntryRefusal>
    ensures { let s = session.old in Takes (enter_all s.room s.trace bytes.now) s bytes.now result session.new }
{
    for (index, record) in bytes.chunks(RECORD).enumerate() {
        enter_record(session, index, record)?;
    }
    Ok(bytes.len().div_ceil(RECORD))
}
