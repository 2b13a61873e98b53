//! The plain core under each of its questions, and the first and last phase.
use super::*;

#[test]
fn plain_core_is_honest(rt: HostRuntime) {
    let mut core = PlainCore::new();
    core.begin(3);
    assert_eq!(rt; core.value(7), 7);
    assert_eq!(rt; core.written(u64::MAX), u64::MAX);
    assert!(rt; core.test(true));
    assert!(rt; !core.test(false));
    let place = Place {
        phase: Phase::First,
        index: 5,
    };
    let site = Site {
        place,
        act: Act::Load(2),
    };
    assert_eq!(rt; core.times(site), Times::Once);
    assert_eq!(rt; core.next(place), place);
}

#[test]
fn phases_are_numbered_from_0(rt: HostRuntime) {
    assert_eq!(rt; Phase::Guard.number(), 0);
    assert_eq!(rt; Phase::Done.number(), 10);
}
