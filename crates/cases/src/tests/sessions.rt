//! Further answers of sessions: events read back, dumps with a refused record, full reels, lists with damaged positions, short buffers.
use super::{record, record_of, refused, session_over};
use answer::collector::BufferFault;
use answer::fault::{Layer, PairFault};
use answer::verdict::PartnersFault;
use reel::Reel;
use reel::board::BoardReel;
use reel::host::HostReel;
use session::records::enter_records;
use session::session::Session;
use std::process::Abort;
use std::test::Fail;
use trace::kind::Kind;

/// Events are read back as recorded, at a session with room for two events at least.
fn keeps<R: Reel + Drop>(rt: &impl Abort, reel: R) -> Result<(), Fail> {
    let mut session = Session::open(reel);
    session.enter(&record_of("0a0")?)?;
    session.enter(&record(Kind::Write, 15, 1023))?;
    assert_eq!(rt; session.count(), 2);
    let Some(event) = session.event(1) else {
        return Err(Fail::new("no event"));
    };
    assert_eq!(rt; (event.thread, event.subject), (15, 1023));
    assert!(rt; session.event(2).is_none());
    Ok(())
}

#[test]
fn kept_events(rt: HostRuntime) -> Result<(), Fail> {
    keeps(&rt, BoardReel::new())?;
    keeps(&rt, HostReel::over(&mut [0xff; 23]))
}

/// Two records, the second of which is refused, and part of a third, at a session with room for three events at least.
fn loads<R: Reel + Drop>(rt: &impl Abort, reel: R) {
    let mut session = Session::open(reel);
    let dump = [1, 0, 5, 0, 7, 0, 0, 0, 4, 0, 5, 0, 7, 0, 0, 0, 1, 0];
    assert_eq!(rt; refused(session.load(&dump)), Some((1, Layer::Record, 2)));
    assert_eq!(rt; session.count(), 0);
    assert_eq!(rt;
        refused(session.load(&dump[0..16])),
        Some((6, Layer::Trace, 1))
    );
    assert_eq!(rt; session.count(), 1);
    assert_eq!(rt;
        refused(session.load(&dump[0..12])),
        Some((1, Layer::Record, 1))
    );
    assert_eq!(rt; session.count(), 1);
    assert_eq!(rt;
        refused(enter_records(&mut session, &dump)),
        Some((6, Layer::Trace, 1))
    );
    assert_eq!(rt;
        refused(enter_records(&mut session, &dump[0..12])),
        Some((1, Layer::Record, 1))
    );
    assert_eq!(rt; session.count(), 3);
}

#[test]
fn damaged_dumps(rt: HostRuntime) {
    loads(&rt, BoardReel::new());
    loads(&rt, HostReel::over(&mut [0xff; 31]));
}

fn full<R: Reel + Drop>(rt: &impl Abort, reel: R, room: usize) {
    let mut session = Session::open(reel);
    assert_eq!(rt; session.capacity(), room);
    for _ in 0..room {
        assert_eq!(rt; refused(session.enter(&record(Kind::Read, 0, 0))), None);
    }
    let reel_full = Some((7, Layer::Reel, 0));
    assert_eq!(rt;
        refused(session.enter(&record(Kind::Read, 0, 0))),
        reel_full
    );
    assert_eq!(rt; refused(session.load(&record(Kind::Read, 0, 0))), reel_full);
    let not_holder = Some((6, Layer::Trace, 0));
    assert_eq!(rt;
        refused(session.enter(&record(Kind::Release, 0, 0))),
        not_holder
    );
    assert_eq!(rt; session.count(), room);
}

#[test]
fn full_reels(rt: HostRuntime) {
    full(&rt, HostReel::over(&mut []), 0);
    full(&rt, HostReel::over(&mut [0; 23]), 2);
}

#[test]
fn damaged_lists(rt: HostRuntime) -> Result<(), Fail> {
    let session = session_over(BoardReel::new(), "0w0 0a0 0z0 1a0 1z0 1w0")?;
    assert_eq!(rt; session.vet(0, 5, &[3, 4, 3]), Ok(false));
    assert_eq!(rt; session.vet(0, 5, &[3, 4, 600]), Ok(false));
    assert_eq!(rt; session.vet(0, 6, &[3, 4]), Err(PairFault::NoEvent));
    assert_eq!(rt; session.vet(5, 0, &[3, 4]), Err(PairFault::Order));
    assert_eq!(rt; session.vet(1, 5, &[3, 4]), Err(PairFault::NoConflict));
    Ok(())
}

#[test]
fn short_buffers(rt: HostRuntime) -> Result<(), Fail> {
    let session = session_over(BoardReel::new(), "0w0 1r0 2w0 2a0")?;
    let mut buffer = [9; 3];
    assert_eq!(rt; session.partners(2, &mut buffer), Ok(2));
    assert_eq!(rt; buffer, [0, 1, 9]);
    let mut short = [9; 1];
    let too_short = Err(PartnersFault::Buffer(BufferFault::Full));
    assert_eq!(rt; session.partners(2, &mut short), too_short);
    assert_eq!(rt; short, [0]);
    assert_eq!(rt; session.partners(3, &mut short), Ok(0));
    assert_eq!(rt;
        session.partners(4, &mut short),
        Err(PartnersFault::NoEvent)
    );
    assert_eq!(rt; short, [0]);
    Ok(())
}
