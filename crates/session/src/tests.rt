//! Sessions over both reels on a few records.
use crate::session::Session;
use answer::collector::BufferFault;
use answer::fault::{EntryRefusal, Layer, Layered, PairFault};
use answer::verdict::{PartnersFault, RacePair, Verdict, WitnessFault};
use reel::Reel;
use reel::board::BoardReel;
use reel::host::HostReel;
use std::process::Abort;
use std::test::Fail;
use trace::fault::Fault;
use trace::kind::Kind;
use trace::limits::LOCKS;

// `cases` has this and the two below too: what is under cfg(test) is not seen from another crate
fn record(kind: Kind, thread: u8, subject: u16) -> [u8; 8] {
    let [low, high] = subject.to_le_bytes();
    [u8::from(kind), thread, low, high, 7, 0, 0, 0]
}

/// The number, the layer and the index of a refusal.
fn refused<T: Drop>(answer: Result<T, EntryRefusal>) -> Option<(u8, Layer, usize)> {
    let refusal = answer.err()?;
    Some((refusal.fault.number(), refusal.fault.layer(), refusal.index))
}

/// The trace check and the limits, at a session with room for four events at least.
fn enters<R: Reel + Drop>(rt: &impl Abort, reel: R) -> Result<(), Fail> {
    let mut session = Session::open(reel);
    assert_eq!(rt; refused(session.enter(&record(Kind::Acquire, 0, 0))), None);
    assert_eq!(rt;
        refused(session.enter(&record(Kind::Release, 1, 0))),
        Some((6, Layer::Trace, 0))
    );
    assert_eq!(rt;
        refused(session.enter(&record(Kind::Acquire, 1, 0))),
        Some((5, Layer::Trace, 0))
    );
    assert_eq!(rt;
        refused(session.enter(&record(Kind::Write, 15, 1023))),
        None
    );
    assert_eq!(rt;
        refused(session.enter(&record(Kind::Read, 15, 1024))),
        Some((4, Layer::Record, 0))
    );
    assert_eq!(rt;
        refused(session.enter(&record(Kind::Acquire, 2, LOCKS - 1))),
        None
    );
    assert_eq!(rt;
        refused(session.enter(&record(Kind::Acquire, 2, LOCKS))),
        Some((4, Layer::Record, 0))
    );
    assert_eq!(rt; session.count(), 3);
    let Some(event) = session.event(1) else {
        return Err(Fail::new("no event"));
    };
    assert_eq!(rt; (event.thread, event.subject, event.site), (15, 1023, 7));
    assert!(rt; session.event(3).is_none());
    Ok(())
}

/// Loads, at a session with room for four events at least.
fn loads<R: Reel + Drop>(rt: &impl Abort, reel: R) {
    let mut session = Session::open(reel);
    assert_eq!(rt; session.load(&[]).ok(), Some(0));
    assert_eq!(rt;
        refused(session.load(&[1; 17])),
        Some((1, Layer::Record, 2))
    );
    assert_eq!(rt; session.count(), 0);
    // 0a5 0z5 0z5 0r5: the third record is refused
    let dump = [
        3, 0, 5, 0, 7, 0, 0, 0, 4, 0, 5, 0, 7, 0, 0, 0, 4, 0, 5, 0, 7, 0, 0, 0, 1, 0, 5, 0, 7, 0,
        0, 0,
    ];
    assert_eq!(rt; refused(session.load(&dump)), Some((6, Layer::Trace, 2)));
    assert_eq!(rt; session.count(), 2);
    assert_eq!(rt; session.load(&dump[0..16]).ok(), Some(2));
    assert_eq!(rt;
        refused(session.load(&dump[0..12])),
        Some((1, Layer::Record, 1))
    );
    assert_eq!(rt; session.count(), 4);
}

#[test]
fn over_a_board_reel(rt: HostRuntime) -> Result<(), Fail> {
    enters(&rt, BoardReel::new())?;
    loads(&rt, BoardReel::new());
    Ok(())
}

#[test]
fn over_a_host_reel(rt: HostRuntime) -> Result<(), Fail> {
    let mut bytes = [0xff; 47];
    enters(&rt, HostReel::over(&mut bytes))?;
    loads(&rt, HostReel::over(&mut bytes));
    Ok(())
}

fn full<R: Reel + Drop>(rt: &impl Abort, reel: R, room: usize) {
    let mut session = Session::open(reel);
    assert_eq!(rt; session.capacity(), room);
    for k in 0..room {
        // a cast, since a remainder by 1,024 fits
        let subject = (k % 1024) as u16;
        assert_eq!(rt;
            refused(session.enter(&record(Kind::Read, 0, subject))),
            None
        );
    }
    assert_eq!(rt;
        refused(session.enter(&record(Kind::Read, 0, 0))),
        Some((7, Layer::Reel, 0))
    );
    assert_eq!(rt;
        refused(session.load(&record(Kind::Read, 0, 0))),
        Some((7, Layer::Reel, 0))
    );
    assert_eq!(rt;
        refused(session.enter(&record(Kind::Release, 0, 0))),
        Some((6, Layer::Trace, 0))
    );
    assert_eq!(rt; session.count(), room);
}

#[test]
fn full_reels(rt: HostRuntime) {
    full(&rt, BoardReel::new(), 1024);
    full(&rt, HostReel::over(&mut []), 0);
    full(&rt, HostReel::over(&mut [0; 23]), 2);
}

/// A session over a board reel with these events: kind, thread, subject.
fn session_of(events: &[(Kind, u8, u16)]) -> Result<Session<BoardReel>, Fail> {
    let mut session = Session::open(BoardReel::new());
    for (kind, thread, subject) in events {
        session.enter(&record(*kind, *thread, *subject))?;
    }
    Ok(session)
}

/// The number of the refusal of a question.
fn number<T: Drop, F: Fault>(answer: Result<T, F>) -> Option<u8> {
    answer.err().map(|fault| fault.number())
}

#[test]
fn critical_sections_apart(rt: HostRuntime) -> Result<(), Fail> {
    // A: 0w0 0a0 0z0 1a0 1z0 1w0
    let a = session_of(&[
        (Kind::Write, 0, 0),
        (Kind::Acquire, 0, 0),
        (Kind::Release, 0, 0),
        (Kind::Acquire, 1, 0),
        (Kind::Release, 1, 0),
        (Kind::Write, 1, 0),
    ])?;
    assert_eq!(rt; a.judge(0, 5).ok(), Some(Verdict::Race));
    let mut buffer = [9; 3];
    assert_eq!(rt; a.witness(0, 5, &mut buffer).ok(), Some(2));
    assert_eq!(rt; buffer, [3, 4, 9]);
    assert_eq!(rt; a.partners(5, &mut buffer).ok(), Some(1));
    assert_eq!(rt; buffer, [0, 4, 9]);
    assert_eq!(rt; a.unordered(0, 5).ok(), Some(false));
    assert_eq!(rt; a.schedulable(0, 5).ok(), Some(false));
    assert_eq!(rt; a.vet(0, 5, &[3, 4]).ok(), Some(true));
    assert_eq!(rt; a.vet(0, 5, &[4, 3]).ok(), Some(false));
    assert_eq!(rt; a.vet(0, 5, &[3]).ok(), Some(false));
    assert_eq!(rt; a.vet(0, 5, &[]).ok(), Some(false));
    assert_eq!(rt; a.vet(0, 5, &[3, 4, 3]).ok(), Some(false));
    assert_eq!(rt; a.vet(0, 5, &[3, 4, 600]).ok(), Some(false));
    assert_eq!(rt; number(a.vet(1, 5, &[3, 4])), Some(10));
    Ok(())
}

#[test]
fn reads_and_locks(rt: HostRuntime) -> Result<(), Fail> {
    // C: 0w0 0w1 1r1 1w0
    let c = session_of(&[
        (Kind::Write, 0, 0),
        (Kind::Write, 0, 1),
        (Kind::Read, 1, 1),
        (Kind::Write, 1, 0),
    ])?;
    assert_eq!(rt; c.judge(0, 3).ok(), Some(Verdict::NoRace));
    assert_eq!(rt; c.judge(1, 2).ok(), Some(Verdict::Race));
    let mut buffer = [9; 1];
    assert_eq!(rt; c.witness(0, 3, &mut buffer), Err(WitnessFault::NoRace));
    assert_eq!(rt; buffer, [9]);
    assert_eq!(rt; c.unordered(0, 3).ok(), Some(true));
    assert_eq!(rt; c.schedulable(0, 3).ok(), Some(false));
    assert_eq!(rt; c.vet(0, 3, &[2]).ok(), Some(false));
    // D: 0w0 0w1 1a0 1w2 1r1 1z0 2r2 2a0 2w0
    let d = session_of(&[
        (Kind::Write, 0, 0),
        (Kind::Write, 0, 1),
        (Kind::Acquire, 1, 0),
        (Kind::Write, 1, 2),
        (Kind::Read, 1, 1),
        (Kind::Release, 1, 0),
        (Kind::Read, 2, 2),
        (Kind::Acquire, 2, 0),
        (Kind::Write, 2, 0),
    ])?;
    assert_eq!(rt; d.judge(0, 8).ok(), Some(Verdict::NoRace));
    assert_eq!(rt; d.unordered(0, 8).ok(), Some(true));
    // E: 0w0 1r0 2w0
    let e = session_of(&[(Kind::Write, 0, 0), (Kind::Read, 1, 0), (Kind::Write, 2, 0)])?;
    assert_eq!(rt;
        e.partners(2, &mut buffer),
        Err(PartnersFault::Buffer(BufferFault::Full))
    );
    assert_eq!(rt; buffer, [0]);
    assert_eq!(rt; e.partners(3, &mut buffer), Err(PartnersFault::NoEvent));
    let mut pairs = [RacePair {
        first: 9,
        second: 9,
    }; 4];
    assert_eq!(rt; e.sweep(&mut pairs).ok(), Some(3));
    assert_eq!(rt; (pairs[0].first, pairs[0].second), (0, 1));
    assert_eq!(rt; (pairs[2].first, pairs[2].second), (1, 2));
    assert_eq!(rt; pairs[3].first, 9);
    assert_eq!(rt; e.sweep(&mut pairs[0..2]), Err(BufferFault::Full));
    assert_eq!(rt; (pairs[1].first, pairs[1].second), (0, 2));
    assert_eq!(rt; number(e.vet(0, 3, &[])), Some(8));
    assert_eq!(rt; number(e.vet(2, 2, &[])), Some(9));
    assert_eq!(rt; number(e.unordered(3, 0)), Some(8));
    assert_eq!(rt; e.schedulable(0, 2).ok(), Some(true));
    Ok(())
}
