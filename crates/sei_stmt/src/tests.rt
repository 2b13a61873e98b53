//! The refusals of a table, and the calls on a table and a fragment.
use super::*;
use std::test::Fail;

/// Puts out the sum of two constants, if they differ.
const GOOD: [Stmt; 6] = [
    Stmt::Const { to: 0, number: 7 },
    Stmt::Const {
        to: 31,
        number: u64::MAX,
    },
    Stmt::JumpEq {
        left: 0,
        right: 31,
        offset: 2,
    },
    Stmt::Add {
        to: 1,
        left: 0,
        right: 31,
    },
    Stmt::Emit { from: 1 },
    Stmt::Halt,
];

fn refusal(rt: HostRuntime, stmts: &[Stmt]) -> Result<Option<TableError>, Fail> {
    let mut list = Vec::new(rt.alloc());
    list.extend_from_slice(stmts)?;
    Ok(Table::new(list).err())
}

#[test]
fn each_cause_is_answered(rt: HostRuntime) -> Result<(), Fail> {
    let no_register = Stmt::Move { to: 31, from: 32 };
    let out = Stmt::Jump { offset: 5 };
    let jump_out = Some(TableError::JumpOut { at: 0 });
    assert_eq!(rt; refusal(rt, &[])?, Some(TableError::Empty));
    assert_eq!(rt; refusal(rt, &[out])?, jump_out);
    assert_eq!(rt;
        refusal(rt, &[Stmt::Jump { offset: 1 }, Stmt::Halt])?,
        jump_out
    );
    assert_eq!(rt;
        refusal(rt, &[Stmt::Jump { offset: -2 }, Stmt::Halt])?,
        jump_out
    );
    assert_eq!(rt; refusal(rt, &[Stmt::Jump { offset: i64::MIN }])?, jump_out);
    assert_eq!(rt;
        refusal(rt, &[Stmt::Jump { offset: -1 }])?,
        Some(TableError::NoHalt)
    );
    assert_eq!(rt; refusal(rt, &[GOOD[0]])?, Some(TableError::NoHalt));
    assert_eq!(rt;
        refusal(rt, &[out, no_register])?,
        Some(TableError::BadRegister { at: 1 })
    );
    assert_eq!(rt; refusal(rt, &GOOD)?, None);
    Ok(())
}

#[test]
fn a_table_gives_its_statements(rt: HostRuntime) -> Result<(), Fail> {
    let mut list = Vec::new(rt.alloc());
    list.extend_from_slice(&GOOD)?;
    match Table::new(list) {
        Ok(table) => {
            assert_eq!(rt; table.len(), 6);
            assert_eq!(rt; table.get(1), Some(GOOD[1]));
            assert_eq!(rt; table.get(5), Some(Stmt::Halt));
            assert_eq!(rt; table.get(6), None);
            assert_eq!(rt; table.get(u64::MAX), None);
        }
        Err(_) => assert!(rt; false),
    }
    Ok(())
}

#[test]
fn a_jump_counts_from_the_next_statement(rt: HostRuntime) -> Result<(), Fail> {
    assert_eq!(rt; target(3, 0), 4);
    assert_eq!(rt; target(3, 2), 6);
    assert_eq!(rt; target(3, -1), 3);
    assert_eq!(rt; target(3, -4), 0);
    Ok(())
}

#[test]
fn a_fragment_is_placed_behind(rt: HostRuntime) -> Result<(), Fail> {
    let mut into = Vec::new(rt.alloc());
    into.extend_from_slice(&GOOD[..3])?;
    let mut stmts = Vec::new(rt.alloc());
    stmts.extend_from_slice(&GOOD[4..])?;
    let fragment = Fragment { stmts };
    assert_eq!(rt; place(&mut into, &fragment), Ok(3));
    assert_eq!(rt; into.len(), 5);
    assert_eq!(rt; into[2], GOOD[2]);
    assert_eq!(rt; into[3], GOOD[4]);
    assert_eq!(rt; into[4], GOOD[5]);
    Ok(())
}

#[test]
fn each_cause_has_a_text(rt: HostRuntime) -> Result<(), Fail> {
    let alloc = rt.alloc();
    assert_eq!(rt;
        format!(in alloc; "{}", TableError::Empty)?.as_str(),
        "the table has no statements"
    );
    assert_eq!(rt;
        format!(in alloc; "{}", TableError::BadRegister { at: 4 })?.as_str(),
        "statement 4 names a register that does not exist"
    );
    assert_eq!(rt;
        format!(in alloc; "{}", TableError::JumpOut { at: 0 })?.as_str(),
        "statement 0 jumps out of the table"
    );
    assert_eq!(rt;
        format!(in alloc; "{}", TableError::NoHalt)?.as_str(),
        "the last statement is not Halt"
    );
    Ok(())
}
