//! Both reels on a few events.
use crate::Reel;
use crate::board::BoardReel;
use crate::host::HostReel;
use std::test::Fail;
use trace::kind::Kind;
use trace::record::event_of;

#[test]
fn host_reel_writes_records(rt: HostRuntime) -> Result<(), Fail> {
    let mut bytes = [0xff; 20];
    let e = event_of(Kind::Write, 3, 1000, 0x01020304)?;
    {
        let mut reel = HostReel::over(&mut bytes);
        assert_eq!(rt; reel.capacity(), 2);
        reel.take(e)?;
        reel.take(e)?;
        assert!(rt; reel.take(e).is_err());
        let Some(last) = reel.event(1) else {
            return Err(Fail::new("no event"));
        };
        assert_eq!(rt; last.subject, 1000);
        assert!(rt; reel.event(2).is_none());
        reel.wipe();
        assert_eq!(rt; reel.count(), 0);
    }
    assert_eq!(rt; &bytes[8..16], [2, 3, 0xe8, 3, 4, 3, 2, 1].as_slice());
    assert_eq!(rt; bytes[16], 0xff);
    Ok(())
}

#[test]
fn board_reel_keeps_events(rt: HostRuntime) -> Result<(), Fail> {
    let mut reel = BoardReel::new();
    for k in 0..1024 {
        reel.take(event_of(Kind::Read, 0, k, 0)?)?;
    }
    let Some(last) = reel.event(1023) else {
        return Err(Fail::new("no event"));
    };
    assert_eq!(rt; last.subject, 1023);
    assert!(rt; reel.take(last).is_err());
    reel.wipe();
    assert_eq!(rt; reel.count(), 0);
    Ok(())
}
