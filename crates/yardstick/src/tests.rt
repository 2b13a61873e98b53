//! A few calls of each kind.
use crate::calls::measure;
use crate::order::{Command, CoreKind, Order, Way};
use mc_model::Geometry;
use std::test::Fail;

#[test]
fn each_kind_of_call_makes_its_steps(rt: HostRuntime) -> Result<(), Fail> {
    let geometry = Geometry {
        buckets: 1,
        slots: 1,
        value_words: 3,
    };
    let cases = [
        (CoreKind::Plain, Way::Step),
        (CoreKind::Plain, Way::Run),
        (CoreKind::Script, Way::Step),
        (CoreKind::Script, Way::Run),
    ];
    for (core, way) in cases {
        for (command, steps) in [
            (Command::Set, 197),
            (Command::Get, 197),
            (Command::Miss, 111),
        ] {
            let order = Order {
                core,
                way,
                command,
                calls: 3,
                geometry,
                key: 1,
                value: 1,
            };
            match measure(rt.alloc(), &order) {
                Ok(made) => {
                    assert_eq!(rt; made.calls, 3);
                    assert_eq!(rt; made.steps, 3 * steps);
                }
                Err(_) => assert!(rt; false),
            }
        }
    }
    Ok(())
}
