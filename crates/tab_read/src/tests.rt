//! Each part, for the smallest buckets.
use super::*;
use mc_model::Geometry;
use std::test::Fail;

const SMALLEST: Geometry = Geometry {
    buckets: 1,
    slots: 1,
    value_words: 3,
};

/// How many statements each part has.
const STATEMENTS: [(Part, usize); 8] = [
    (Part::Get, 87),
    (Part::Gets, 87),
    (Part::Gat, 104),
    (Part::Gats, 104),
    (Part::Touch, 66),
    (Part::Delete, 50),
    (Part::Flush, 13),
    (Part::Fixed, 6),
];

#[test]
fn each_part_is_made(rt: HostRuntime) -> Result<(), Fail> {
    for (part, length) in STATEMENTS {
        let made = fragment(rt.alloc(), &SMALLEST, part)?;
        assert_eq!(rt; made.stmts.len(), length);
    }
    Ok(())
}
