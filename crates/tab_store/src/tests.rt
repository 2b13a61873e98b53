//! The part, for the smallest buckets.
use super::*;
use mc_model::Geometry;
use std::test::Fail;

const SMALLEST: Geometry = Geometry {
    buckets: 1,
    slots: 1,
    value_words: 3,
};

/// How many statements each part has.
const STATEMENTS: [(Part, usize); 4] = [
    (Part::Set, 141),
    (Part::Add, 119),
    (Part::Replace, 92),
    (Part::Cas, 104),
];

#[test]
fn parts_are_made(rt: HostRuntime) -> Result<(), Fail> {
    for (part, count) in STATEMENTS {
        let made = fragment(rt.alloc(), &SMALLEST, part)?;
        assert_eq!(rt; made.stmts.len(), count);
    }
    Ok(())
}
