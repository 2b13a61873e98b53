//! Logs that are empty or full.
use super::*;
use std::test::Fail;

const FIRST: Change = Change {
    address: 3,
    was: 0,
    becomes: u64::MAX,
};

const SECOND: Change = Change {
    address: 7,
    was: 1,
    becomes: 2,
};

#[test]
fn a_log_without_room_takes_nothing(rt: HostRuntime) -> Result<(), Fail> {
    let mut log = WriteLog::new(rt.alloc(), 0)?;
    assert!(rt; !log.has_room());
    assert!(rt; !log.push(FIRST));
    assert_eq!(rt; log.len(), 0);
    assert_eq!(rt; log.get(0), None);
    log.clear();
    assert!(rt; !log.push(FIRST));
    Ok(())
}

#[test]
fn a_log_with_room_for_two_takes_two(rt: HostRuntime) -> Result<(), Fail> {
    let mut log = WriteLog::new(rt.alloc(), 2)?;
    assert!(rt; log.push(FIRST));
    assert_eq!(rt; log.len(), 1);
    assert!(rt; log.push(SECOND));
    assert!(rt; !log.has_room());
    assert!(rt; !log.push(FIRST));
    assert_eq!(rt; log.len(), 2);
    assert_eq!(rt; log.get(0), Some(FIRST));
    assert_eq!(rt; log.get(1), Some(SECOND));
    assert_eq!(rt; log.get(2), None);
    assert_eq!(rt; log.get(u64::MAX), None);
    log.clear();
    assert_eq!(rt; log.len(), 0);
    assert_eq!(rt; log.get(0), None);
    assert!(rt; log.push(SECOND));
    assert_eq!(rt; log.get(0), Some(SECOND));
    Ok(())
}
