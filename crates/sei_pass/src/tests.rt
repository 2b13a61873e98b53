//! Passes over small tables, with the plain core and a clock that is set.
ghost use Rattle.sei_words.specs.LentBucket.{IsOf};
ghost use Rattle.sei_words.specs.Exits.{lent_at};

use super::*;
use mc_model::Geometry;
use sei_code::{Buffer, Coded, Rendered, WordList, message_code};
use sei_fault::{
    AbortCause, Act, Core, Kind, Phase, PlainCore, Planned, ScriptCore, Select, Times,
};
use sei_log::{Notes, WriteLog};
use sei_outside::SetClock;
use sei_stmt::{Handler, Stmt, Table};
use sei_words::{NoBucket, Words};
use std::test::Fail;

const SMALL: Geometry = Geometry {
    buckets: 1,
    slots: 1,
    value_words: 3,
};

/// Reads each input as one call of bucket 0 with the one input word 7, and answers `A`.
#[derive(Drop)]
struct Service {
    table: Table,
}

impl Handler for Service {
    ghost use Rattle.std.specs.Prelude.{[], ◌∷◌, Some};

    ghost behavior = { λ s. record { statements = s.table; calls = λ _. Some 1; parsed = λ _ _. Some (record { bucket = 0; words = 7 ∷ [] }); rendered = λ _. Some (65 ∷ []) } };

    fn calls(&self, _input: &[u8]) -> Option<u64> {
        Some(1)
    }

    fn bucket(&self, _input: &[u8], _nth: u64) -> Option<u64> {
        Some(0)
    }

    fn parse(&self, _input: &[u8], _nth: u64, into: &mut WordList) -> Option<u64> {
        into.clear();
        into.push(7);
        Some(0)
    }

    fn table(&self) -> &Table {
        &self.table
    }

    fn render(&self, _words: &[u64], into: &mut Buffer) -> Rendered {
        into.clear();
        if into.push(b'A') {
            Rendered::Done
        } else {
            Rendered::Full
        }
    }
}

/// The input `x` as message 2, whose reply is message 5.
fn sealed() -> Sealed {
    Sealed {
        number: 2,
        nth: Coded::seal(0),
        code: message_code(2, b"x"),
        answer: 5,
    }
}

/// One step of the first pass, at second 1000.
fn make(
    pass: &mut Pass,
    service: &Service,
    lent: Option<&mut Words>,
    log: &mut WriteLog,
    notes: &mut Notes,
    index: u64,
) -> PassStep
    requires { IsOf pass.old.space.geometry (lent_at lent) }
{
    let _code = pass.code();
    let mut core = PlainCore::new();
    let clock = SetClock { at: 1000 };
    let sealed = sealed();
    pass.step(
        Which::Making,
        service,
        b"x",
        &sealed,
        lent,
        log,
        notes,
        &mut core,
        &clock,
        index,
    )
}

fn serving(rt: HostRuntime, stmts: &[Stmt]) -> Result<Service, Fail> {
    let mut list = Vec::new(rt.alloc());
    list.extend_from_slice(stmts)?;
    let table = Table::new(list)?;
    Ok(Service { table })
}

const NO_NOTES: Notes = Notes {
    now: None,
    slot: None,
};

#[test]
fn a_pass_answers_and_halts(rt: HostRuntime) -> Result<(), Fail> {
    let alloc = rt.alloc();
    let service = serving(
        rt,
        &[
            Stmt::Parse,
            Stmt::Now { to: 3 },
            Stmt::Const { to: 1, number: 5 },
            Stmt::Emit { from: 1 },
            Stmt::Render,
            Stmt::Store {
                address: 3,
                from: 1,
            },
            Stmt::Halt,
        ],
    )?;
    let mut pass = Pass::new(alloc, &SMALL)?;
    let mut words = Words::new(alloc, &SMALL, 0)?;
    let mut log = WriteLog::new(alloc, 4)?;
    let mut notes = NO_NOTES;
    let first = make(
        &mut pass,
        &service,
        Some(&mut words),
        &mut log,
        &mut notes,
        0,
    );
    assert_eq!(rt; first, PassStep::Next { index: 1 });
    for index in 1..5 {
        let step = make(&mut pass, &service, None, &mut log, &mut notes, index);
        assert_eq!(rt; step, PassStep::Next { index: index + 1 });
    }
    assert_eq!(rt; notes.now, Some(Coded::seal(1000)));
    assert_eq!(rt; pass.bytes(), b"A".as_slice());
    assert_eq!(rt; pass.code(), Some(message_code(5, b"A")));
    assert_eq!(rt; pass.act(&service, 5), Some(Act::Store(1000)));
    let range = PassStep::Bad(AbortCause::Range { address: 1000 });
    assert_eq!(rt;
        make(&mut pass, &service, None, &mut log, &mut notes, 5),
        range
    );
    assert_eq!(rt;
        make(&mut pass, &service, None, &mut log, &mut notes, 6),
        PassStep::Halted
    );
    let behind = PassStep::Bad(AbortCause::Table { index: 7 });
    assert_eq!(rt;
        make(&mut pass, &service, None, &mut log, &mut notes, 7),
        behind
    );
    assert_eq!(rt; pass.act(&service, 7), None);
    pass.clear();
    assert_eq!(rt; pass.code(), None);
    Ok(())
}

/// The rooms and the budget of one slot with three value words, and less of both for a call of one word.
#[test]
fn a_space_is_that_of_its_words(rt: HostRuntime) -> Result<(), Fail> {
    let space = PassSpace::new(&SMALL, 3);
    assert_eq!(rt; space.input, 49);
    assert_eq!(rt; space.output, 51);
    assert_eq!(rt; space.bytes, 344);
    assert_eq!(rt; space.log, 52);
    assert_eq!(rt; space.budget, 2700);
    let short = PassSpace::new(&SMALL, 1);
    assert_eq!(rt; short.input, 47);
    assert_eq!(rt; short.budget, 2500);
    Ok(())
}

/// 2,000 statements, 400 for its slot, and 100 for each of its value words.
#[test]
fn a_pass_ends_with_its_budget(rt: HostRuntime) -> Result<(), Fail> {
    let alloc = rt.alloc();
    let service = serving(rt, &[Stmt::Jump { offset: -1 }, Stmt::Halt])?;
    let mut pass = Pass::new(alloc, &SMALL)?;
    let mut log = WriteLog::new(alloc, 4)?;
    let mut notes = NO_NOTES;
    for _ in 0..2700 {
        let step = make(&mut pass, &service, None, &mut log, &mut notes, 0);
        assert_eq!(rt; step, PassStep::Next { index: 0 });
    }
    let step = make(&mut pass, &service, None, &mut log, &mut notes, 0);
    assert_eq!(rt; step, PassStep::Bad(AbortCause::Budget));
    Ok(())
}

/// A run of the first pass from its first statement, where no bucket is lent.
fn run<K: Core>(pass: &mut Pass, service: &Service, log: &mut WriteLog, core: &mut K) -> Ran {
    pass.run_on(Phase::First, service, &mut NoBucket, log, core, 0)
}

/// Word 1 becomes 5 and is logged once. The loop jumps over the last statement but one.
#[test]
fn a_run_goes_on_to_halt(rt: HostRuntime) -> Result<(), Fail> {
    let alloc = rt.alloc();
    let service = serving(
        rt,
        &[
            Stmt::Const { to: 1, number: 1 },
            Stmt::Const { to: 2, number: 5 },
            Stmt::Store {
                address: 1,
                from: 2,
            },
            Stmt::Load { to: 3, address: 1 },
            Stmt::JumpEq {
                left: 3,
                right: 2,
                offset: 1,
            },
            Stmt::Parse,
            Stmt::Halt,
        ],
    )?;
    let mut pass = Pass::new(alloc, &SMALL)?;
    let mut words = Words::new(alloc, &SMALL, 0)?;
    let mut log = WriteLog::new(alloc, 4)?;
    let mut core = PlainCore::new();
    let ran = pass.run_on(Phase::First, &service, &mut words, &mut log, &mut core, 0);
    assert_eq!(rt; ran.before, 5);
    assert_eq!(rt; ran.index, 6);
    assert!(rt; matches!(ran.exit, Exit::Halted));
    assert_eq!(rt; words.get(1), Some(5));
    assert_eq!(rt; log.len(), 1);
    Ok(())
}

/// A rare statement is left as it is, and so is each one once the budget is spent.
#[test]
fn a_run_leaves_what_is_made_by_itself(rt: HostRuntime) -> Result<(), Fail> {
    let alloc = rt.alloc();
    let rare = serving(
        rt,
        &[
            Stmt::Const { to: 1, number: 1 },
            Stmt::Now { to: 2 },
            Stmt::Halt,
        ],
    )?;
    let endless = serving(rt, &[Stmt::Jump { offset: -1 }, Stmt::Halt])?;
    for (service, before, index) in [(&rare, 1, 1), (&endless, 2700, 0)] {
        let mut pass = Pass::new(alloc, &SMALL)?;
        let mut log = WriteLog::new(alloc, 4)?;
        let ran = run(&mut pass, service, &mut log, &mut PlainCore::new());
        assert_eq!(rt; ran.before, before);
        assert_eq!(rt; ran.index, index);
        assert!(rt; matches!(ran.exit, Exit::Alone));
    }
    Ok(())
}

/// The store at word 9 is skipped by plan, so it is left before it finds no bucket.
#[test]
fn a_run_leaves_a_struck_statement(rt: HostRuntime) -> Result<(), Fail> {
    let alloc = rt.alloc();
    let service = serving(
        rt,
        &[
            Stmt::Const { to: 1, number: 9 },
            Stmt::Store {
                address: 1,
                from: 1,
            },
            Stmt::Halt,
        ],
    )?;
    let mut pass = Pass::new(alloc, &SMALL)?;
    let mut log = WriteLog::new(alloc, 4)?;
    let mut core = ScriptCore::new(Some(Planned {
        phase: Phase::First,
        select: Select::Store(9),
        kind: Kind::Skip,
    }));
    let ran = run(&mut pass, &service, &mut log, &mut core);
    assert_eq!(rt; ran.before, 1);
    assert_eq!(rt; ran.index, 1);
    assert!(rt; matches!(ran.exit, Exit::Struck(Act::Store(9), Times::Skip)));
    Ok(())
}
