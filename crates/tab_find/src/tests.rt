//! How many statements each part and each program has, for the smallest buckets.
use super::*;
use mc_model::{Geometry, texts};
use sei_stmt::{Fragment, Program};
use std::test::Fail;

const SMALLEST: Geometry = Geometry {
    buckets: 1,
    slots: 1,
    value_words: 3,
};

#[test]
fn each_part_is_made(rt: HostRuntime) -> Result<(), Fail> {
    let lengths = [
        (Part::Moment, 11),
        (Part::Find, 37),
        (Part::Free, 6),
        (Part::CopyKey, 5),
        (Part::CopyValue, 10),
    ];
    for (part, length) in lengths {
        let made = fragment(rt.alloc(), &SMALLEST, part)?;
        assert_eq!(rt; made.stmts.len(), length);
    }
    Ok(())
}

/// How many statements a program has.
fn count(rt: HostRuntime, program: &Program) -> Result<usize, Fail> {
    Ok(Fragment::of(rt.alloc(), program)?.stmts.len())
}

#[test]
fn each_program_that_shows_is_made(rt: HostRuntime) -> Result<(), Fail> {
    assert_eq!(rt; count(rt, &load_item(rt.alloc())?)?, 10);
    assert_eq!(rt; count(rt, &show_run(rt.alloc())?)?, 4);
    assert_eq!(rt; count(rt, &show_value(rt.alloc())?)?, 10);
    assert_eq!(rt; count(rt, &say(rt.alloc(), texts::END)?)?, 3);
    assert_eq!(rt; count(rt, &answer_text(rt.alloc(), texts::STORED)?)?, 5);
    Ok(())
}

#[test]
fn each_program_that_stores_is_made(rt: HostRuntime) -> Result<(), Fail> {
    assert_eq!(rt; count(rt, &load_call(rt.alloc())?)?, 6);
    assert_eq!(rt; count(rt, &expiry(rt.alloc())?)?, 15);
    assert_eq!(rt; count(rt, &put_item(rt.alloc(), inputs::BLOCK)?)?, 19);
    assert_eq!(rt; count(rt, &put_expiry(rt.alloc())?)?, 2);
    assert_eq!(rt; count(rt, &draw_item(rt.alloc(), inputs::BLOCK)?)?, 22);
    assert_eq!(rt; count(rt, &make_item(rt.alloc(), inputs::BLOCK)?)?, 35);
    assert_eq!(rt; count(rt, &remove_item(rt.alloc())?)?, 1);
    assert_eq!(rt; count(rt, &clear_items(rt.alloc())?)?, 4);
    assert_eq!(rt; count(rt, &keep_item(rt.alloc()))?, 0);
    Ok(())
}
