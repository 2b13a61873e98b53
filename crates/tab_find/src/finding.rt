//! The programs of the moment, of the find, and for a free slot. Each error is out of memory.
ghost use Rattle.std.specs.Prelude.{◌≡◌, IfOk};
ghost use Rattle.mc_model.specs.Server.{IsValid};
ghost use Rattle.sei_stmt.specs.Written.{prog_of};
ghost use Rattle.tab_find.specs.FindPrograms as programs;

use crate::inputs;
use crate::registers::*;
use crate::statements::{NEXT_ADDRESS, NEXT_INDEX, add, copy, input, load, set, store, subtract};
use mc_model::Geometry;
use sei_code::Memory;
use sei_stmt::{Program, Stmt};
use sei_words::layout;
use std::alloc::Global;

/// Sets the constants and the moment.
pub fn moment(alloc: Global, g: &Geometry) -> Result<Program, Memory>
    requires { IsValid g.now }
    ensures { IfOk result (λ p. prog_of p ≡ programs.moment_program g.now) }
{
    let begin = Program::block(
        alloc,
        &[
            Stmt::Now { to: WORD },
            set(ONE, 1),
            set(EXPIRY_OFFSET, layout::EXPIRY),
            set(WIDTH, layout::width(g)),
            set(END, layout::slot_at(g, g.slots)),
            load(MOMENT, ZERO),
        ],
    )?;
    let at_least_one = Program::block(alloc, &[copy(MOMENT, ONE)])?;
    let at_least_one = Program::if_lt(alloc, ZERO, MOMENT, Program::empty(alloc), at_least_one)?;
    let later = Program::block(alloc, &[copy(MOMENT, WORD)])?.then(alloc, at_least_one)?;
    let latest = Program::if_lt(alloc, WORD, MOMENT, Program::empty(alloc), later)?;
    let stored = Program::block(alloc, &[store(ZERO, MOMENT)])?;
    begin.then(alloc, latest.then(alloc, stored)?)
}

/// Compares one key word with one input word.
fn compare_turn(alloc: Global) -> Result<Program, Memory>
    ensures { IfOk result (λ p. prog_of p ≡ programs.compare_turn) }
{
    let words = Program::block(alloc, &[load(WORD, ADDRESS), input(OTHER, INDEX)])?;
    let next = Program::block(alloc, &[NEXT_ADDRESS, NEXT_INDEX])?;
    let differs = Program::block(alloc, &[copy(PLACE, END), copy(INDEX, LIMIT)])?;
    words.then(alloc, Program::if_eq(alloc, WORD, OTHER, next, differs)?)
}

/// Compares the key words of the slot at the base with those of the input.
fn compare_key(alloc: Global) -> Result<Program, Memory>
    ensures { IfOk result (λ p. prog_of p ≡ programs.compare_key) }
{
    let start = Program::block(
        alloc,
        &[
            set(ADDRESS, layout::KEY),
            add(ADDRESS, BASE, ADDRESS),
            set(INDEX, inputs::KEY),
            add(LIMIT, INDEX, KEY_WORDS),
            copy(PLACE, BASE),
        ],
    )?;
    let turn = compare_turn(alloc)?;
    start.then(alloc, Program::repeat_lt(alloc, INDEX, LIMIT, turn)?)
}

/// Looks at the key length of the slot at the base, and then at its key.
fn look_length(alloc: Global) -> Result<Program, Memory>
    ensures { IfOk result (λ p. prog_of p ≡ programs.look_length) }
{
    let word = Program::block(alloc, &[NEXT_ADDRESS, load(WORD, ADDRESS)])?;
    let key = compare_key(alloc)?;
    word.then(
        alloc,
        Program::if_eq(alloc, WORD, KEY_LENGTH, key, Program::empty(alloc))?,
    )
}

/// Looks at the hash of the slot at the base, and then at the rest.
fn look_hash(alloc: Global) -> Result<Program, Memory>
    ensures { IfOk result (λ p. prog_of p ≡ programs.look_hash) }
{
    let word = Program::block(alloc, &[add(ADDRESS, BASE, ONE), load(WORD, ADDRESS)])?;
    let rest = look_length(alloc)?;
    word.then(
        alloc,
        Program::if_eq(alloc, WORD, HASH, rest, Program::empty(alloc))?,
    )
}

/// Looks at the expiry of the slot at the base, and then at the rest.
fn look_expiry(alloc: Global) -> Result<Program, Memory>
    ensures { IfOk result (λ p. prog_of p ≡ programs.look_expiry) }
{
    let word = Program::block(
        alloc,
        &[
            add(ADDRESS, BASE, EXPIRY_OFFSET),
            load(WORD, ADDRESS),
            subtract(WORD, WORD, ONE),
        ],
    )?;
    let rest = look_hash(alloc)?;
    word.then(
        alloc,
        Program::if_lt(alloc, WORD, MOMENT, Program::empty(alloc), rest)?,
    )
}

/// Looks at the slot at the base.
fn look(alloc: Global) -> Result<Program, Memory>
    ensures { IfOk result (λ p. prog_of p ≡ programs.look) }
{
    let word = Program::block(alloc, &[load(WORD, BASE)])?;
    let rest = look_expiry(alloc)?;
    word.then(
        alloc,
        Program::if_eq(alloc, WORD, ZERO, Program::empty(alloc), rest)?,
    )
}

/// The call's key, and the first slot.
fn find_start(alloc: Global) -> Result<Program, Memory>
    ensures { IfOk result (λ p. prog_of p ≡ programs.find_start) }
{
    Program::block(
        alloc,
        &[
            input(KEY_LENGTH, ONE),
            set(INDEX, inputs::HASH),
            input(HASH, INDEX),
            set(INDEX, inputs::KEY_WORDS),
            input(KEY_WORDS, INDEX),
            set(BASE, layout::FIRST_SLOT),
            copy(PLACE, END),
        ],
    )
}

/// Finds the slot that has the call's key.
pub fn find(alloc: Global) -> Result<Program, Memory>
    ensures { IfOk result (λ p. prog_of p ≡ programs.find_program) }
{
    let start = find_start(alloc)?;
    let next = Program::block(alloc, &[add(BASE, BASE, WIDTH)])?;
    let turn = look(alloc)?.then(alloc, next)?;
    start.then(alloc, Program::repeat_lt(alloc, BASE, PLACE, turn)?)
}

/// Asks for a free slot, and makes its address.
pub fn free(alloc: Global) -> Result<Program, Memory>
    ensures { IfOk result (λ p. prog_of p ≡ programs.free_program) }
{
    let asked = Program::block(
        alloc,
        &[Stmt::Alloc {
            to: SLOT,
            moment: MOMENT,
        }],
    )?;
    let first = Program::block(alloc, &[set(PLACE, layout::FIRST_SLOT)])?;
    let next = Program::block(
        alloc,
        &[add(PLACE, PLACE, WIDTH), subtract(SLOT, SLOT, ONE)],
    )?;
    let slots = Program::repeat_lt(alloc, ZERO, SLOT, next)?;
    let place = Program::if_eq(alloc, SLOT, ZERO, Program::empty(alloc), slots)?;
    asked.then(alloc, first.then(alloc, place)?)
}
