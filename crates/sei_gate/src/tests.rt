//! A gate at its first and last numbers.
use super::*;
use sei_fault::{Phase, PlainCore};
use std::test::Fail;

const PHASES: [Phase; 11] = [
    Phase::Guard,
    Phase::Take,
    Phase::First,
    Phase::Restore,
    Phase::Second,
    Phase::Compare,
    Phase::Verify,
    Phase::Enter,
    Phase::Give,
    Phase::Send,
    Phase::Done,
];

#[test]
fn all_phases_in_their_order_are_closed(rt: HostRuntime) -> Result<(), Fail> {
    let mut gate = Gate::new();
    let mut core = PlainCore::new();
    for phase in PHASES {
        assert!(rt; gate.complete(&mut core, phase));
    }
    assert_eq!(rt; gate.done, 11);
    Ok(())
}

#[test]
fn a_phase_is_closed_once(rt: HostRuntime) -> Result<(), Fail> {
    let mut gate = Gate::new();
    let mut core = PlainCore::new();
    assert!(rt; gate.complete(&mut core, Phase::Guard));
    assert!(rt; !gate.complete(&mut core, Phase::Guard));
    assert!(rt; !gate.complete(&mut core, Phase::First));
    assert_eq!(rt; gate.done, 1);
    Ok(())
}

#[test]
fn the_last_number_stays(rt: HostRuntime) -> Result<(), Fail> {
    let mut gate = Gate { done: u64::MAX };
    let mut core = PlainCore::new();
    assert!(rt; !gate.complete(&mut core, Phase::Done));
    assert_eq!(rt; gate.done, u64::MAX);
    Ok(())
}
