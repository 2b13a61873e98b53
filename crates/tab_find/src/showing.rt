//! The programs that read an item and make output words. Each error is out of memory.
ghost use Rattle.std.specs.Prelude.{◌≡◌, IfOk};
ghost use Rattle.sei_stmt.specs.Written.{prog_of};
ghost use Rattle.tab_find.specs.ShowPrograms as programs;
ghost use Rattle.tab_find.specs.ShowPrograms.{Out};

use crate::inputs;
use crate::registers::*;
use crate::statements::{NEXT_ADDRESS, add, copy, input, load, set};
use sei_code::Memory;
use sei_stmt::{Program, Stmt};
use sei_words::layout;
use std::alloc::Global;

/// How many bytes a word holds.
const BYTES_OF_A_WORD: u64 = 8;

/// Makes output words of the bucket's words from the address up to the limit, of which there is one at least.
pub fn show_run(alloc: Global) -> Result<Program, Memory>
    ensures { IfOk result (λ p. prog_of p ≡ programs.read_run Out) }
{
    let turn = Program::block(
        alloc,
        &[load(WORD, ADDRESS), Stmt::Emit { from: WORD }, NEXT_ADDRESS],
    )?;
    Program::repeat_lt(alloc, ADDRESS, LIMIT, turn)
}

/// Loads the fields of the item that was found, and sets the address and the limit to the run of its key's words.
pub fn load_item(alloc: Global) -> Result<Program, Memory>
    ensures { IfOk result (λ p. prog_of p ≡ programs.load_item) }
{
    Program::block(
        alloc,
        &[
            set(ADDRESS, layout::FLAGS),
            add(ADDRESS, PLACE, ADDRESS),
            load(FLAGS, ADDRESS),
            NEXT_ADDRESS,
            NEXT_ADDRESS,
            load(UNIQUE, ADDRESS),
            NEXT_ADDRESS,
            load(VALUE_LENGTH, ADDRESS),
            NEXT_ADDRESS,
            add(LIMIT, ADDRESS, KEY_WORDS),
        ],
    )
}

/// Loads the cas unique of the item that was found into `WORD`, and the one that the call names into `OTHER`.
pub fn load_uniques(alloc: Global) -> Result<Program, Memory>
    ensures { IfOk result (λ p. prog_of p ≡ programs.load_uniques) }
{
    Program::block(
        alloc,
        &[
            set(ADDRESS, layout::UNIQUE),
            add(ADDRESS, PLACE, ADDRESS),
            load(WORD, ADDRESS),
            set(INDEX, inputs::UNIQUE),
            input(OTHER, INDEX),
        ],
    )
}

/// Makes output words of the value of the item that was found, whose length was loaded.
pub fn show_value(alloc: Global) -> Result<Program, Memory>
    ensures { IfOk result (λ p. prog_of p ≡ programs.read_value Out) }
{
    let start = Program::block(
        alloc,
        &[
            set(ADDRESS, layout::VALUE),
            add(ADDRESS, PLACE, ADDRESS),
            copy(PASSED, ZERO),
            set(EIGHT, BYTES_OF_A_WORD),
        ],
    )?;
    let turn = Program::block(
        alloc,
        &[
            load(WORD, ADDRESS),
            Stmt::Emit { from: WORD },
            NEXT_ADDRESS,
            add(PASSED, PASSED, EIGHT),
        ],
    )?;
    let words = Program::repeat_lt(alloc, PASSED, VALUE_LENGTH, turn)?;
    start.then(
        alloc,
        Program::if_eq(alloc, VALUE_LENGTH, ZERO, Program::empty(alloc), words)?,
    )
}

/// Makes the output words of one text of the table of texts.
pub fn say(alloc: Global, text: u8) -> Result<Program, Memory>
    ensures { IfOk result (λ p. prog_of p ≡ programs.say text) }
{
    Program::block(
        alloc,
        &[
            Stmt::Emit { from: ZERO },
            set(ADDRESS, u64::from(text)),
            Stmt::Emit { from: ADDRESS },
        ],
    )
}

/// The program, if a reply is wanted.
pub fn if_wanted(alloc: Global, program: Program) -> Result<Program, Memory>
    ensures { IfOk result (λ p. prog_of p ≡ programs.if_wanted (prog_of program)) }
{
    Program::if_eq(alloc, NOREPLY, ZERO, program, Program::empty(alloc))
}

/// Answers with a text, if a reply is wanted.
pub fn answer_text(alloc: Global, text: u8) -> Result<Program, Memory>
    ensures { IfOk result (λ p. prog_of p ≡ programs.answer_text text) }
{
    let said = say(alloc, text)?;
    if_wanted(alloc, said)
}
