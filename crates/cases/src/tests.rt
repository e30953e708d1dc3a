//! The worked cases, asked of sessions over both reels.
use answer::fault::{EntryRefusal, Layer, Layered};
use answer::verdict::{RacePair, Verdict};
use reel::Reel;
use reel::board::BoardReel;
use reel::host::HostReel;
use session::session::Session;
use std::process::Abort;
use std::test::Fail;
use trace::fault::Fault;
use trace::kind::Kind;
use trace::limits::LOCKS;

mod checks;
mod reports;
mod sessions;

/// The record of a kind, a thread and a subject, which may be past their limits.
// the tests of session have this, `refused` and `number` too: what is under cfg(test) is not seen from another crate
fn record(kind: Kind, thread: u8, subject: u16) -> [u8; 8] {
    let [low, high] = subject.to_le_bytes();
    [u8::from(kind), thread, low, high, 0, 0, 0, 0]
}

/// The record of an event that is written as its thread, a letter and its subject: w writes a variable, r reads one, a acquires a lock, z
/// releases one, s spawns a thread and j joins one.
fn record_of(event: &str) -> Result<[u8; 8], Fail> {
    let [thread, letter, subject] = event.as_bytes() else {
        return Err(Fail::new("an event is three characters"));
    };
    let kind = match *letter {
        b'r' => Kind::Read,
        b'w' => Kind::Write,
        b'a' => Kind::Acquire,
        b'z' => Kind::Release,
        b's' => Kind::Spawn,
        b'j' => Kind::Join,
        _ => return Err(Fail::new("no such letter")),
    };
    let subject = subject.wrapping_sub(b'0');
    Ok(record(kind, thread.wrapping_sub(b'0'), u16::from(subject)))
}

/// A session over the reel into which the events are entered.
fn session_over<R: Reel + Drop>(reel: R, events: &str) -> Result<Session<R>, Fail> {
    let mut session = Session::open(reel);
    for event in events.split(' ') {
        session.enter(&record_of(event)?)?;
    }
    Ok(session)
}

/// The number, the layer and the index of a refusal.
fn refused<T: Drop>(answer: Result<T, EntryRefusal>) -> Option<(u8, Layer, usize)> {
    let refusal = answer.err()?;
    Some((refusal.fault.number(), refusal.fault.layer(), refusal.index))
}

/// The number of a refusal.
fn number<T: Drop, F: Fault>(answer: Result<T, F>) -> Option<u8> {
    answer.err().map(|fault| fault.number())
}

fn pair(first: u16, second: u16) -> RacePair {
    RacePair { first, second }
}

/// The events at 1 and 2 race, and 0 alone is the witness.
fn races_after_the_first<R: Reel>(rt: &impl Abort, session: &Session<R>) {
    assert_eq!(rt; session.judge(1, 2), Ok(Verdict::Race));
    let mut buffer = [9; 2];
    assert_eq!(rt; session.witness(1, 2, &mut buffer), Ok(1));
    assert_eq!(rt; buffer, [0, 9]);
}

fn asks_sections_between<R: Reel + Drop>(rt: &impl Abort, reel: R) -> Result<(), Fail> {
    let session = session_over(reel, "0w0 0a0 0z0 1a0 1z0 1w0")?;
    assert_eq!(rt; session.judge(0, 5), Ok(Verdict::Race));
    let mut buffer = [9; 3];
    assert_eq!(rt; session.witness(0, 5, &mut buffer), Ok(2));
    assert_eq!(rt; buffer, [3, 4, 9]);
    assert_eq!(rt; session.unordered(0, 5), Ok(false));
    assert_eq!(rt; session.schedulable(0, 5), Ok(false));
    assert_eq!(rt; session.vet(0, 5, &[3, 4]), Ok(true));
    assert_eq!(rt; session.vet(0, 5, &[4, 3]), Ok(false));
    assert_eq!(rt; session.vet(0, 5, &[3]), Ok(false));
    assert_eq!(rt; session.vet(0, 5, &[]), Ok(false));
    Ok(())
}

#[test]
fn sections_between(rt: HostRuntime) -> Result<(), Fail> {
    asks_sections_between(&rt, BoardReel::new())?;
    asks_sections_between(&rt, HostReel::over(&mut [0; 48]))
}

fn asks_writes_locked<R: Reel + Drop>(rt: &impl Abort, reel: R) -> Result<(), Fail> {
    let session = session_over(reel, "0a0 0w0 0z0 1a0 1w0 1z0")?;
    assert_eq!(rt; session.judge(1, 4), Ok(Verdict::NoRace));
    let mut buffer = [9; 3];
    assert_eq!(rt; number(session.witness(1, 4, &mut buffer)), Some(11));
    assert_eq!(rt; buffer, [9, 9, 9]);
    Ok(())
}

#[test]
fn writes_locked(rt: HostRuntime) -> Result<(), Fail> {
    asks_writes_locked(&rt, BoardReel::new())?;
    asks_writes_locked(&rt, HostReel::over(&mut [0; 48]))
}

fn asks_read_between<R: Reel + Drop>(rt: &impl Abort, reel: R) -> Result<(), Fail> {
    let session = session_over(reel, "0w0 0w1 1r1 1w0")?;
    assert_eq!(rt; session.judge(0, 3), Ok(Verdict::NoRace));
    assert_eq!(rt; session.unordered(0, 3), Ok(true));
    assert_eq!(rt; session.schedulable(0, 3), Ok(false));
    races_after_the_first(rt, &session);
    Ok(())
}

#[test]
fn read_between(rt: HostRuntime) -> Result<(), Fail> {
    asks_read_between(&rt, BoardReel::new())?;
    asks_read_between(&rt, HostReel::over(&mut [0; 32]))
}

fn asks_through_section<R: Reel + Drop>(rt: &impl Abort, reel: R) -> Result<(), Fail> {
    let session = session_over(reel, "0w0 0w1 1a0 1w2 1r1 1z0 2r2 2a0 2w0")?;
    assert_eq!(rt; session.judge(0, 8), Ok(Verdict::NoRace));
    assert_eq!(rt; session.unordered(0, 8), Ok(true));
    Ok(())
}

#[test]
fn through_section(rt: HostRuntime) -> Result<(), Fail> {
    asks_through_section(&rt, BoardReel::new())?;
    asks_through_section(&rt, HostReel::over(&mut [0; 72]))
}

fn asks_three_accesses<R: Reel + Drop>(rt: &impl Abort, reel: R) -> Result<(), Fail> {
    let session = session_over(reel, "0w0 1r0 2w0")?;
    let mut pairs = [pair(9, 9); 4];
    assert_eq!(rt; session.sweep(&mut pairs).ok(), Some(3));
    assert_eq!(rt; pairs, [pair(0, 1), pair(0, 2), pair(1, 2), pair(9, 9)]);
    let mut two = [pair(9, 9); 2];
    assert_eq!(rt; number(session.sweep(&mut two)), Some(12));
    assert_eq!(rt; two, [pair(0, 1), pair(0, 2)]);
    assert_eq!(rt; number(session.judge(0, 3)), Some(8));
    assert_eq!(rt; number(session.judge(2, 2)), Some(9));
    Ok(())
}

#[test]
fn three_accesses(rt: HostRuntime) -> Result<(), Fail> {
    asks_three_accesses(&rt, BoardReel::new())?;
    asks_three_accesses(&rt, HostReel::over(&mut [0; 24]))
}

fn asks_one_locked<R: Reel + Drop>(rt: &impl Abort, reel: R) -> Result<(), Fail> {
    let mut session = session_over(reel, "0a0 0w0 1w0")?;
    races_after_the_first(rt, &session);
    session.enter(&record_of("0z0")?)?;
    races_after_the_first(rt, &session);
    Ok(())
}

#[test]
fn one_locked(rt: HostRuntime) -> Result<(), Fail> {
    asks_one_locked(&rt, BoardReel::new())?;
    asks_one_locked(&rt, HostReel::over(&mut [0; 32]))
}

fn asks_inner_section<R: Reel + Drop>(rt: &impl Abort, reel: R) -> Result<(), Fail> {
    let session = session_over(reel, "0a0 0a0 0z0 0w0 0z0 1w0 1a0 1w0")?;
    assert_eq!(rt; session.judge(3, 7), Ok(Verdict::NoRace));
    assert_eq!(rt; session.judge(3, 5), Ok(Verdict::Race));
    let mut buffer = [9; 4];
    assert_eq!(rt; session.witness(3, 5, &mut buffer), Ok(3));
    assert_eq!(rt; buffer, [0, 1, 2, 9]);
    Ok(())
}

#[test]
fn inner_section(rt: HostRuntime) -> Result<(), Fail> {
    asks_inner_section(&rt, BoardReel::new())?;
    asks_inner_section(&rt, HostReel::over(&mut [0; 64]))
}

#[test]
fn deepest_hold(rt: HostRuntime) -> Result<(), Fail> {
    let mut session = Session::open(BoardReel::new());
    for _ in 0..u8::MAX {
        session.enter(&record_of("0a0")?)?;
    }
    let deep = Some((13, Layer::Trace, 0));
    assert_eq!(rt; refused(session.enter(&record_of("0a0")?)), deep);
    assert_eq!(rt; session.count(), usize::from(u8::MAX));
    for _ in 0..u8::MAX {
        session.enter(&record_of("0z0")?)?;
    }
    assert_eq!(rt; refused(session.enter(&record_of("1a0")?)), None);
    Ok(())
}

fn enters_at_the_limits<R: Reel + Drop>(rt: &impl Abort, reel: R) -> Result<(), Fail> {
    let mut session = session_over(reel, "0a0")?;
    let locked = Some((6, Layer::Trace, 0));
    assert_eq!(rt; refused(session.enter(&record_of("1z0")?)), locked);
    let held = Some((5, Layer::Trace, 0));
    assert_eq!(rt; refused(session.enter(&record_of("1a0")?)), held);
    assert_eq!(rt; refused(session.enter(&record_of("0a0")?)), None);
    assert_eq!(rt; refused(session.enter(&record(Kind::Read, 0, 1023))), None);
    assert_eq!(rt; refused(session.enter(&record(Kind::Write, 0, 1023))), None);
    assert_eq!(rt;
        refused(session.enter(&record(Kind::Acquire, 0, LOCKS - 1))),
        None
    );
    let past = Some((4, Layer::Record, 0));
    assert_eq!(rt; refused(session.enter(&record(Kind::Read, 0, 1024))), past);
    assert_eq!(rt; refused(session.enter(&record(Kind::Write, 0, 1024))), past);
    assert_eq!(rt;
        refused(session.enter(&record(Kind::Acquire, 0, LOCKS))),
        past
    );
    assert_eq!(rt;
        refused(session.enter(&record(Kind::Release, 0, LOCKS))),
        past
    );
    assert_eq!(rt; session.count(), 5);
    Ok(())
}

#[test]
fn limits_of_records(rt: HostRuntime) -> Result<(), Fail> {
    enters_at_the_limits(&rt, BoardReel::new())?;
    enters_at_the_limits(&rt, HostReel::over(&mut [0; 40]))
}

fn loads_by_length<R: Reel + Drop>(rt: &impl Abort, reel: R) {
    let mut session = Session::open(reel);
    assert_eq!(rt; session.load(&[]).ok(), Some(0));
    assert_eq!(rt;
        refused(session.load(&[1; 17])),
        Some((1, Layer::Record, 2))
    );
    assert_eq!(rt; session.count(), 0);
}

#[test]
fn lengths_of_dumps(rt: HostRuntime) {
    loads_by_length(&rt, BoardReel::new());
    loads_by_length(&rt, HostReel::over(&mut [0; 32]));
}

#[test]
fn last_room_of_the_board_reel(rt: HostRuntime) -> Result<(), Fail> {
    let mut session = Session::open(BoardReel::new());
    for _ in 0..1023 {
        session.enter(&record(Kind::Read, 0, 0))?;
    }
    assert_eq!(rt; refused(session.enter(&record(Kind::Read, 0, 0))), None);
    assert_eq!(rt; session.count(), 1024);
    let full = Some((7, Layer::Reel, 0));
    assert_eq!(rt; refused(session.enter(&record(Kind::Read, 0, 0))), full);
    assert_eq!(rt; session.count(), 1024);
    Ok(())
}
