//! The checks of the trace check in their order: each refusal where what is looked at later is wrong too.
use super::{record, record_of, refused, session_over};
use answer::fault::Layer;
use reel::host::HostReel;
use session::session::Session;
use std::test::Fail;
use trace::kind::Kind;
use trace::limits::{LOCKS, THREADS};
use trace::record::RECORD;

/// Two events that fill a reel, an event that may not come next, and the number with which it is refused. The trace check comes before the full
/// reel, and 15 before all else that it looks at.
const REFUSED: [(&str, &str, u8); 14] = [
    ("0w0 0j1", "1w0", 15),
    ("1w0 0j1", "1s1", 15),
    ("0s1 0j1", "1j1", 15),
    ("0s1 0j1", "1s0", 15),
    ("0a0 0j1", "1a0", 15),
    ("1a0 0j1", "1z1", 15),
    ("0w0 1w0", "0s0", 14),
    ("0w0 1w0", "0j0", 14),
    ("0w0 1w0", "0s1", 14),
    ("0s1 2w0", "2s1", 14),
    ("0j1 2w0", "2s1", 14),
    ("0a0 0a0", "1a0", 5),
    ("0a0 0a0", "1z0", 6),
    ("0a0 0z0", "0z0", 6),
];

#[test]
fn order_of_checks(rt: HostRuntime) -> Result<(), Fail> {
    for (events, event, number) in &REFUSED {
        let mut bytes = [0; 2 * RECORD];
        let mut session = session_over(HostReel::over(&mut bytes), events)?;
        let refusal = Some((*number, Layer::Trace, 0));
        assert_eq!(rt; refused(session.enter(&record_of(event)?)), refusal);
        assert_eq!(rt; session.count(), 2);
    }
    Ok(())
}

#[test]
fn order_of_checks_in_the_deepest_hold(rt: HostRuntime) -> Result<(), Fail> {
    let mut bytes = [0; 256 * RECORD];
    let mut session = Session::open(HostReel::over(&mut bytes));
    for _ in 0..u8::MAX {
        session.enter(&record_of("1a0")?)?;
    }
    let deep = Some((13, Layer::Trace, 0));
    assert_eq!(rt; refused(session.enter(&record_of("1a0")?)), deep);
    session.enter(&record_of("0j1")?)?;
    assert_eq!(rt; session.count(), session.capacity());
    let ended = Some((15, Layer::Trace, 0));
    assert_eq!(rt; refused(session.enter(&record_of("1a0")?)), ended);
    let held = Some((5, Layer::Trace, 0));
    assert_eq!(rt; refused(session.enter(&record_of("0a0")?)), held);
    Ok(())
}

#[test]
fn records_of_joined_threads(rt: HostRuntime) -> Result<(), Fail> {
    let mut bytes = [0; 2 * RECORD];
    let mut session = session_over(HostReel::over(&mut bytes), "1w0 0j1")?;
    let past = Some((4, Layer::Record, 0));
    let lock = record(Kind::Acquire, 1, LOCKS);
    assert_eq!(rt; refused(session.enter(&lock)), past);
    let join = record(Kind::Join, 1, u16::from(THREADS));
    assert_eq!(rt; refused(session.enter(&join)), past);
    let thread = Some((3, Layer::Record, 0));
    let spawn = record(Kind::Spawn, THREADS, 1);
    assert_eq!(rt; refused(session.enter(&spawn)), thread);
    Ok(())
}

#[test]
fn joined_and_spawned_threads(rt: HostRuntime) -> Result<(), Fail> {
    let mut bytes = [0; 8 * RECORD];
    let mut session = session_over(HostReel::over(&mut bytes), "0s1 0j1 0j1 2j1 0j3 2j0 2s4")?;
    assert_eq!(rt; session.count(), 7);
    assert_eq!(rt; refused(session.enter(&record_of("4s5")?)), None);
    Ok(())
}
