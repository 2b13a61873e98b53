//! The programs that change the words of a bucket. Each error is out of memory.
ghost use Rattle.std.specs.Prelude.{◌≡◌, IfOk};
ghost use Rattle.sei_stmt.specs.Written.{prog_of};
ghost use Rattle.tab_find.specs.StorePrograms as programs;

use crate::inputs;
use crate::registers::*;
use crate::statements::{NEXT_ADDRESS, NEXT_INDEX, add, copy, input, load, set, store};
use mc_model::THIRTY_DAYS;
use sei_code::Memory;
use sei_stmt::{Program, Stmt};
use sei_words::layout;
use std::alloc::Global;

/// Copies the input words from the index up to the one in `limit`, of which there is one at least, to the words from the
/// address on.
pub fn copy_run(alloc: Global, limit: u8) -> Result<Program, Memory>
    ensures { IfOk result (λ p. prog_of p ≡ programs.copy_run limit) }
{
    let turn = [
        input(WORD, INDEX),
        store(ADDRESS, WORD),
        NEXT_ADDRESS,
        NEXT_INDEX,
    ];
    let turn = Program::block(alloc, &turn)?;
    Program::repeat_lt(alloc, INDEX, limit, turn)
}

/// Stores a value: as many input words as its register says, from `index` on.
pub fn store_value(alloc: Global, index: u64) -> Result<Program, Memory>
    ensures { IfOk result (λ p. prog_of p ≡ programs.store_value index) }
{
    let start = Program::block(
        alloc,
        &[
            set(ADDRESS, layout::VALUE),
            add(ADDRESS, PLACE, ADDRESS),
            set(INDEX, index),
            add(LIMIT, INDEX, VALUE_WORDS),
        ],
    )?;
    let words = copy_run(alloc, LIMIT)?;
    start.then(
        alloc,
        Program::if_eq(alloc, VALUE_WORDS, ZERO, Program::empty(alloc), words)?,
    )
}

/// The stores of an item's flags, expiry, cas unique and length of the value, from the address on.
const ITEM_FIELDS: [Stmt; 7] = [
    Stmt::Store {
        address: ADDRESS,
        from: FLAGS,
    },
    NEXT_ADDRESS,
    Stmt::Store {
        address: ADDRESS,
        from: EXPIRY,
    },
    NEXT_ADDRESS,
    Stmt::Store {
        address: ADDRESS,
        from: UNIQUE,
    },
    NEXT_ADDRESS,
    Stmt::Store {
        address: ADDRESS,
        from: VALUE_LENGTH,
    },
];

/// The fields of an item that keeps its key.
fn replace_fields(alloc: Global) -> Result<Program, Memory>
    ensures { IfOk result (λ p. prog_of p ≡ programs.replace_fields) }
{
    let mut stmts = vec![in alloc; set(ADDRESS, layout::FLAGS), add(ADDRESS, PLACE, ADDRESS)]?;
    stmts.extend_from_slice(&ITEM_FIELDS)?;
    Program::block(alloc, &stmts)
}

/// The words of a new item before its key, and the way to its key and the call's.
fn new_head(alloc: Global) -> Result<Program, Memory>
    ensures { IfOk result (λ p. prog_of p ≡ programs.new_head) }
{
    let mut stmts = vec![in alloc;
        copy(ADDRESS, PLACE),
        store(ADDRESS, ONE),
        NEXT_ADDRESS,
        store(ADDRESS, HASH),
        NEXT_ADDRESS,
        store(ADDRESS, KEY_LENGTH),
        NEXT_ADDRESS,
    ]?;
    stmts.extend_from_slice(&ITEM_FIELDS)?;
    stmts.push(NEXT_ADDRESS)?;
    stmts.push(set(INDEX, inputs::KEY))?;
    Program::block(alloc, &stmts)
}

/// The fields and the key of a new item.
fn new_fields(alloc: Global) -> Result<Program, Memory>
    ensures { IfOk result (λ p. prog_of p ≡ programs.new_fields) }
{
    let limit = Program::block(alloc, &[add(LIMIT, INDEX, KEY_WORDS)])?;
    let key = limit.then(alloc, copy_run(alloc, LIMIT)?)?;
    new_head(alloc)?.then(alloc, key)
}

/// Draws the next cas unique.
fn draw(alloc: Global) -> Result<Program, Memory>
    ensures { IfOk result (λ p. prog_of p ≡ programs.draw) }
{
    Program::block(
        alloc,
        &[
            load(UNIQUE, ONE),
            add(UNIQUE, UNIQUE, ONE),
            store(ONE, UNIQUE),
        ],
    )
}

/// Changes nothing. It ends a command on a key that is there and does not change.
pub fn keep_item(alloc: Global) -> Program
    ensures { prog_of result ≡ programs.keep_program }
{
    Program::empty(alloc)
}

/// Replaces the item that was found by the one that is loaded, without a draw. Its value is among
/// the input words from `index` on.
pub fn put_item(alloc: Global, index: u64) -> Result<Program, Memory>
    ensures { IfOk result (λ p. prog_of p ≡ programs.put_program index) }
{
    let value = store_value(alloc, index)?;
    replace_fields(alloc)?.then(alloc, value)
}

/// Gives the item that was found the expiry that is loaded. All else of it stays.
pub fn put_expiry(alloc: Global) -> Result<Program, Memory>
    ensures { IfOk result (λ p. prog_of p ≡ programs.put_expiry_program) }
{
    Program::block(
        alloc,
        &[add(ADDRESS, PLACE, EXPIRY_OFFSET), store(ADDRESS, EXPIRY)],
    )
}

/// Replaces the item that was found by one with a drawn cas unique. Its value is among the input
/// words from `index` on.
pub fn draw_item(alloc: Global, index: u64) -> Result<Program, Memory>
    ensures { IfOk result (λ p. prog_of p ≡ programs.draw_program index) }
{
    let item = put_item(alloc, index)?;
    draw(alloc)?.then(alloc, item)
}

/// Makes a new item with a drawn cas unique in the slot that was given. Its value is among the
/// input words from `index` on.
pub fn make_item(alloc: Global, index: u64) -> Result<Program, Memory>
    ensures { IfOk result (λ p. prog_of p ≡ programs.make_program index) }
{
    let value = store_value(alloc, index)?;
    let item = new_fields(alloc)?.then(alloc, value)?;
    draw(alloc)?.then(alloc, item)
}

/// Removes the item that was found: its slot is free.
pub fn remove_item(alloc: Global) -> Result<Program, Memory>
    ensures { IfOk result (λ p. prog_of p ≡ programs.remove_program) }
{
    Program::block(alloc, &[store(PLACE, ZERO)])
}

/// Removes all items: each slot is free.
pub fn clear_items(alloc: Global) -> Result<Program, Memory>
    ensures { IfOk result (λ p. prog_of p ≡ programs.clear_program) }
{
    let first = Program::block(alloc, &[set(ADDRESS, layout::FIRST_SLOT)])?;
    let turn = Program::block(alloc, &[store(ADDRESS, ZERO), add(ADDRESS, ADDRESS, WIDTH)])?;
    first.then(alloc, Program::repeat_lt(alloc, ADDRESS, END, turn)?)
}

/// Loads the flags, the length and the number of words of the block that the call spells.
pub fn load_call(alloc: Global) -> Result<Program, Memory>
    ensures { IfOk result (λ p. prog_of p ≡ programs.load_call) }
{
    Program::block(
        alloc,
        &[
            set(INDEX, inputs::FLAGS),
            input(FLAGS, INDEX),
            set(INDEX, inputs::BLOCK_LENGTH),
            input(VALUE_LENGTH, INDEX),
            set(INDEX, inputs::BLOCK_WORDS),
            input(VALUE_WORDS, INDEX),
        ],
    )
}

/// An expiry that is counted from the moment.
fn expiry_from_moment(alloc: Global) -> Result<Program, Memory>
    ensures { IfOk result (λ p. prog_of p ≡ programs.expiry_from_moment) }
{
    let sum = Program::block(alloc, &[add(EXPIRY, MOMENT, EXPIRY)])?;
    let last = Program::block(alloc, &[set(EXPIRY, u64::MAX)])?;
    sum.then(
        alloc,
        Program::if_lt(alloc, EXPIRY, MOMENT, last, Program::empty(alloc))?,
    )
}

/// The expiry that an exptime other than 0 asks for.
fn expiry_given(alloc: Global) -> Result<Program, Memory>
    ensures { IfOk result (λ p. prog_of p ≡ programs.expiry_given) }
{
    let mark = Program::block(
        alloc,
        &[
            set(INDEX, inputs::NEGATIVE),
            input(WORD, INDEX),
            set(LIMIT, THIRTY_DAYS),
        ],
    )?;
    let counted = expiry_from_moment(alloc)?;
    let positive = Program::if_lt(alloc, LIMIT, EXPIRY, Program::empty(alloc), counted)?;
    let at_once = Program::block(alloc, &[copy(EXPIRY, ONE)])?;
    mark.then(alloc, Program::if_eq(alloc, WORD, ONE, at_once, positive)?)
}

/// Makes the expiry that the call asks for.
pub fn expiry(alloc: Global) -> Result<Program, Memory>
    ensures { IfOk result (λ p. prog_of p ≡ programs.expiry_program) }
{
    let exptime = Program::block(alloc, &[set(INDEX, inputs::EXPTIME), input(EXPIRY, INDEX)])?;
    let given = expiry_given(alloc)?;
    exptime.then(
        alloc,
        Program::if_eq(alloc, EXPIRY, ZERO, Program::empty(alloc), given)?,
    )
}
