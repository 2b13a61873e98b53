//! The core with a planned fault: each kind strikes once, at the first step that the plan fits.
use super::*;

const HERE: Place = Place {
    phase: Phase::First,
    index: 5,
};

const AFTER: Place = Place {
    phase: Phase::First,
    index: 6,
};

const LOAD: Site = Site {
    place: HERE,
    act: Act::Load(2),
};

const STORE: Site = Site {
    place: AFTER,
    act: Act::Store(2),
};

fn core_with(select: Select, kind: Kind) -> ScriptCore {
    ScriptCore::new(Some(Planned {
        phase: Phase::First,
        select,
        kind,
    }))
}

#[test]
fn a_read_is_altered_by_its_number_in_the_step(rt: HostRuntime) {
    let mut core = core_with(Select::Load(2), Kind::Read { nth: 1, mask: 6 });
    assert_eq!(rt; core.value(3), 3);
    assert_eq!(rt; core.times(LOAD), Times::Once);
    assert_eq!(rt; core.value(3), 3);
    assert_eq!(rt; core.written(3), 3);
    assert_eq!(rt; core.value(3), 5);
    assert_eq!(rt; core.value(3), 3);
    assert_eq!(rt; core.times(LOAD), Times::Once);
    assert_eq!(rt; core.value(3), 3);
    assert_eq!(rt; core.value(3), 3);
}

#[test]
fn the_first_write_of_the_step_is_altered(rt: HostRuntime) {
    let mut core = core_with(Select::Store(2), Kind::Write { mask: 6 });
    assert_eq!(rt; core.times(LOAD), Times::Once);
    assert_eq!(rt; core.written(3), 3);
    assert_eq!(rt; core.times(STORE), Times::Once);
    assert_eq!(rt; core.value(3), 3);
    assert_eq!(rt; core.written(3), 5);
    assert_eq!(rt; core.written(3), 3);
}

#[test]
fn the_first_test_of_the_step_is_negated(rt: HostRuntime) {
    let mut core = core_with(Select::Index(6), Kind::Flip);
    assert_eq!(rt; core.times(LOAD), Times::Once);
    assert!(rt; core.test(true));
    assert_eq!(rt; core.times(STORE), Times::Once);
    assert!(rt; core.test(false));
    assert!(rt; !core.test(false));
}

#[test]
fn an_act_is_skipped_once(rt: HostRuntime) {
    let mut core = core_with(Select::Load(2), Kind::Skip);
    assert_eq!(rt; core.times(STORE), Times::Once);
    assert_eq!(rt; core.times(LOAD), Times::Skip);
    assert_eq!(rt; core.times(LOAD), Times::Once);
}

#[test]
fn an_act_is_repeated_once(rt: HostRuntime) {
    let mut core = core_with(Select::Index(5), Kind::Repeat);
    assert_eq!(rt; core.times(LOAD), Times::Twice);
    assert_eq!(rt; core.times(LOAD), Times::Once);
}

#[test]
fn a_jump_leads_elsewhere_once(rt: HostRuntime) {
    let mut core = core_with(Select::Index(5), Kind::Jump { to: HERE });
    assert_eq!(rt; core.times(LOAD), Times::Once);
    assert_eq!(rt; core.next(AFTER), HERE);
    assert_eq!(rt; core.times(LOAD), Times::Once);
    assert_eq!(rt; core.next(AFTER), AFTER);
}

#[test]
fn a_plan_is_over_with_its_step(rt: HostRuntime) {
    let mut core = core_with(Select::Index(5), Kind::Jump { to: AFTER });
    assert_eq!(rt; core.times(LOAD), Times::Once);
    assert_eq!(rt; core.next(AFTER), AFTER);
    assert_eq!(rt; core.times(LOAD), Times::Once);
    assert_eq!(rt; core.next(HERE), HERE);
}

#[test]
fn a_mask_of_0_alters_nothing(rt: HostRuntime) {
    let mut core = core_with(Select::Index(5), Kind::Read { nth: 0, mask: 0 });
    assert_eq!(rt; core.times(LOAD), Times::Once);
    assert_eq!(rt; core.value(3), 3);
    strikes_alter();
}

#[test]
fn begin_changes_nothing(rt: HostRuntime) {
    let mut core = core_with(Select::Index(5), Kind::Write { mask: 1 });
    assert_eq!(rt; core.times(LOAD), Times::Once);
    core.begin(1);
    assert_eq!(rt; core.written(8), 9);
    core.begin(2);
    assert_eq!(rt; core.times(LOAD), Times::Once);
    assert_eq!(rt; core.written(8), 8);
}

#[test]
fn without_a_plan_all_is_honest(rt: HostRuntime) {
    let mut core = ScriptCore::new(None);
    assert_eq!(rt; core.times(LOAD), Times::Once);
    assert_eq!(rt; core.value(3), 3);
    assert_eq!(rt; core.written(3), 3);
    assert!(rt; core.test(true));
    assert_eq!(rt; core.next(AFTER), AFTER);
}
