//! Records on a few examples.
use crate::fault::Fault;
use crate::kind::Kind;
use crate::limits::{LOCKS, THREADS};
use crate::record::{decode, encode};
use std::test::Fail;

/// The number of the refusal of some bytes.
fn refusal(bytes: &[u8]) -> Option<u8> {
    decode(bytes).err().map(|fault| fault.number())
}

#[test]
fn records(rt: HostRuntime) -> Result<(), Fail> {
    let [low, high] = (LOCKS - 1).to_le_bytes();
    let record = [4, 15, low, high, 0xff, 0, 0, 0x80];
    let event = decode(&record)?;
    assert_eq!(rt; event.kind, Kind::Release);
    assert_eq!(rt;
        (event.thread, event.subject, event.site),
        (15, LOCKS - 1, 0x8000_00ff)
    );
    assert_eq!(rt; encode(&event), record);
    assert_eq!(rt; refusal(&[1, 0, 0xff, 3, 0, 0, 0, 0]), None);
    assert_eq!(rt; refusal(&[0, 16, 0xff, 0xff]), Some(1));
    assert_eq!(rt; refusal(&[1; 9]), Some(1));
    assert_eq!(rt; refusal(&[7, 16, 0xff, 0xff, 0, 0, 0, 0]), Some(2));
    assert_eq!(rt; refusal(&[1, 16, 0xff, 0xff, 0, 0, 0, 0]), Some(3));
    let [low, high] = LOCKS.to_le_bytes();
    assert_eq!(rt; refusal(&[3, 15, low, high, 0, 0, 0, 0]), Some(4));
    assert_eq!(rt; refusal(&[4, 15, low, high, 0, 0, 0, 0]), Some(4));
    assert_eq!(rt; refusal(&[2, 15, 0, 4, 0, 0, 0, 0]), Some(4));
    assert_eq!(rt; refusal(&[5, 0, THREADS - 1, 0, 0, 0, 0, 0]), None);
    assert_eq!(rt; refusal(&[6, 16, 0xff, 0xff, 0, 0, 0, 0]), Some(3));
    assert_eq!(rt; refusal(&[5, 15, THREADS, 0, 0, 0, 0, 0]), Some(4));
    assert_eq!(rt; refusal(&[6, 15, 0, 1, 0, 0, 0, 0]), Some(4));
    Ok(())
}
