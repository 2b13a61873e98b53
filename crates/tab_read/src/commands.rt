//! The commands and their programs. The error of each call is out of memory.
ghost use Rattle.mc_model.specs.Server.{IsValid};
ghost use Rattle.sei_stmt.specs.Programs.{flatten};
ghost use Rattle.sei_stmt.specs.Written.{prog_of};
ghost use Rattle.std.specs.Prelude.{◌≡◌, IfOk};
ghost use Rattle.tab_read.specs.Programs as programs;

use mc_model::{Geometry, texts};
use sei_code::Memory;
use sei_stmt::{Fragment, Program, Stmt};
use std::alloc::Global;
use tab_find::registers::*;
use tab_find::statements::{input, set};
use tab_find::{
    answer_text, clear_items, expiry, find, if_wanted, inputs, keep_item, load_item, put_expiry,
    remove_item, say, show_run, show_value,
};

/// The commands of this crate.
#[derive(Clone, Copy, Debug, PartialEq, Eq)]
pub enum Part {
    /// Shows the item of a key.
    Get,
    /// Shows it with its cas unique.
    Gets,
    /// Shows it, and gives it another expiry.
    Gat,
    /// Shows it with its cas unique, and gives it another expiry.
    Gats,
    /// Gives the item of a key another expiry.
    Touch,
    /// Removes the item of a key.
    Delete,
    /// Removes all items of a bucket.
    Flush,
    /// Answers with a fixed text.
    Fixed,
}

/// Gives the item that was found the expiry that the call asks for.
fn expire(alloc: Global) -> Result<Program, Memory>
    ensures { IfOk result (λ p. prog_of p ≡ programs.expire) }
{
    let put = put_expiry(alloc)?;
    expiry(alloc)?.then(alloc, put)
}

/// The output words of an item before its key, and the mark whether its cas unique is shown.
fn show_fields(alloc: Global, shown: bool) -> Result<Program, Memory>
    ensures { IfOk result (λ p. prog_of p ≡ programs.show_fields shown) }
{
    let mark = if shown { ONE } else { ZERO };
    Program::block(
        alloc,
        &[
            Stmt::Emit { from: ONE },
            Stmt::Emit { from: mark },
            Stmt::Emit { from: KEY_LENGTH },
            Stmt::Emit { from: FLAGS },
            Stmt::Emit { from: VALUE_LENGTH },
            Stmt::Emit { from: UNIQUE },
        ],
    )
}

/// The output words of the item that was found.
fn show_item(alloc: Global, shown: bool) -> Result<Program, Memory>
    ensures { IfOk result (λ p. prog_of p ≡ programs.show_item shown) }
{
    let value = show_value(alloc)?;
    let words = show_run(alloc)?.then(alloc, value)?;
    let shown = show_fields(alloc, shown)?.then(alloc, words)?;
    load_item(alloc)?.then(alloc, shown)
}

/// A text, if this is the last call of the request.
fn say_last(alloc: Global, text: u8) -> Result<Program, Memory>
    ensures { IfOk result (λ p. prog_of p ≡ programs.say_last text) }
{
    let mark = Program::block(alloc, &[set(INDEX, inputs::LAST), input(LAST, INDEX)])?;
    let said = say(alloc, text)?;
    mark.then(
        alloc,
        Program::if_eq(alloc, LAST, ONE, said, Program::empty(alloc))?,
    )
}

/// Shows the item of the key, and then changes it.
fn read_by(alloc: Global, shown: bool, change: Program) -> Result<Program, Memory>
    ensures { IfOk result (λ p. prog_of p ≡ programs.read_by shown (prog_of change)) }
{
    let end = say_last(alloc, texts::END)?;
    let item = show_item(alloc, shown)?.then(alloc, end)?;
    let present = if_wanted(alloc, item)?.then(alloc, change)?;
    let end = say_last(alloc, texts::END)?;
    let absent = if_wanted(alloc, end)?;
    let by_key = Program::if_lt(alloc, PLACE, END, present, absent)?;
    find(alloc)?.then(alloc, by_key)
}

/// Answers with a text and changes the item of the key, or says that there is none.
fn change_by(alloc: Global, text: u8, change: Program) -> Result<Program, Memory>
    ensures { IfOk result (λ p. prog_of p ≡ programs.change_by text (prog_of change)) }
{
    let present = answer_text(alloc, text)?.then(alloc, change)?;
    let absent = answer_text(alloc, texts::NOT_FOUND)?;
    let by_key = Program::if_lt(alloc, PLACE, END, present, absent)?;
    find(alloc)?.then(alloc, by_key)
}

/// Removes all items of the bucket.
fn flush(alloc: Global) -> Result<Program, Memory>
    ensures { IfOk result (λ p. prog_of p ≡ programs.flush_program) }
{
    let said = say_last(alloc, texts::OKAY)?;
    let cleared = clear_items(alloc)?;
    if_wanted(alloc, said)?.then(alloc, cleared)
}

/// The text of the call.
fn fixed(alloc: Global) -> Result<Program, Memory>
    ensures { IfOk result (λ p. prog_of p ≡ programs.fixed_program) }
{
    let said = Program::block(
        alloc,
        &[
            set(INDEX, inputs::TEXT),
            input(NUMBER, INDEX),
            Stmt::Emit { from: ZERO },
            Stmt::Emit { from: NUMBER },
        ],
    )?;
    if_wanted(alloc, said)
}

/// The program of a command, which begins after the moment and the call's marks.
pub fn program(alloc: Global, which: Part) -> Result<Program, Memory>
    ensures { IfOk result (λ p. prog_of p ≡ programs.part_program which) }
{
    match which {
        Part::Get => read_by(alloc, false, keep_item(alloc)),
        Part::Gets => read_by(alloc, true, keep_item(alloc)),
        Part::Gat => read_by(alloc, false, expire(alloc)?),
        Part::Gats => read_by(alloc, true, expire(alloc)?),
        Part::Touch => change_by(alloc, texts::TOUCHED, expire(alloc)?),
        Part::Delete => change_by(alloc, texts::DELETED, remove_item(alloc)?),
        Part::Flush => flush(alloc),
        Part::Fixed => fixed(alloc),
    }
}

/// The statements of a command's program.
pub fn fragment(alloc: Global, _g: &Geometry, which: Part) -> Result<Fragment, Memory>
    requires { IsValid _g.now }
    ensures { IfOk result (λ f. f ≡ flatten (programs.part_program which)) }
{
    let program = program(alloc, which)?;
    Fragment::of(alloc, &program)
}
