//! The commands and their programs. The error of each call is that memory ran out.
ghost use Rattle.mc_model.specs.Server.{IsValid};
ghost use Rattle.sei_stmt.specs.Programs.{flatten};
ghost use Rattle.sei_stmt.specs.Written.{prog_of};
ghost use Rattle.std.specs.Prelude.{◌≡◌, IfOk};
ghost use Rattle.tab_store.specs.Programs as programs;

use mc_model::{Geometry, texts};
use sei_code::Memory;
use sei_stmt::{Fragment, Program};
use std::alloc::Global;
use tab_find::registers::{END, OTHER, PLACE, WORD};
use tab_find::{
    answer_text, draw_item, expiry, find, free, inputs, keep_item, load_call, load_uniques,
    make_item,
};

/// The commands of this crate.
#[derive(Clone, Copy, Debug, PartialEq, Eq)]
pub enum Part {
    /// Stores the item that the call spells.
    Set,
    /// Stores it if the key has no item.
    Add,
    /// Stores it if the key has an item.
    Replace,
    /// Stores it if the key has an item with the unique that the call names.
    Cas,
}

/// Answers with a text, and changes nothing.
fn refuse(alloc: Global, text: u8) -> Result<Program, Memory>
    ensures { IfOk result (λ p. prog_of p ≡ programs.refuse text) }
{
    answer_text(alloc, text)?.then(alloc, keep_item(alloc))
}

/// Stores the call's item in the place of the key's.
fn store_present(alloc: Global) -> Result<Program, Memory>
    ensures { IfOk result (λ p. prog_of p ≡ programs.store_present) }
{
    let item = draw_item(alloc, inputs::BLOCK)?;
    answer_text(alloc, texts::STORED)?.then(alloc, item)
}

/// Stores the call's item at a key that has none, if a slot is free.
fn store_absent(alloc: Global) -> Result<Program, Memory>
    ensures { IfOk result (λ p. prog_of p ≡ programs.store_absent) }
{
    let item = make_item(alloc, inputs::BLOCK)?;
    let made = answer_text(alloc, texts::STORED)?.then(alloc, item)?;
    let refused = refuse(alloc, texts::OUT_OF_MEMORY)?;
    let by_slot = Program::if_lt(alloc, PLACE, END, made, refused)?;
    free(alloc)?.then(alloc, by_slot)
}

/// Stores the call's item in the place of the key's, if that has the unique that the call names.
fn compare_present(alloc: Global) -> Result<Program, Memory>
    ensures { IfOk result (λ p. prog_of p ≡ programs.compare_present) }
{
    let stored = store_present(alloc)?;
    let refused = refuse(alloc, texts::EXISTS)?;
    let by_unique = Program::if_eq(alloc, WORD, OTHER, stored, refused)?;
    load_uniques(alloc)?.then(alloc, by_unique)
}

/// Reads the item that the call spells, and goes on by whether the key has an item.
fn store_by(alloc: Global, present: Program, absent: Program) -> Result<Program, Memory>
    ensures { IfOk result (λ p. prog_of p ≡ programs.store_by (prog_of present) (prog_of absent)) }
{
    let by_key = Program::if_lt(alloc, PLACE, END, present, absent)?;
    let expiry = expiry(alloc)?.then(alloc, by_key)?;
    let item = load_call(alloc)?.then(alloc, expiry)?;
    find(alloc)?.then(alloc, item)
}

/// What a command does at a key that has an item.
fn present(alloc: Global, which: Part) -> Result<Program, Memory>
    ensures { IfOk result (λ p. prog_of p ≡ programs.at_present which) }
{
    match which {
        Part::Set | Part::Replace => store_present(alloc),
        Part::Add => refuse(alloc, texts::NOT_STORED),
        Part::Cas => compare_present(alloc),
    }
}

/// What a command does at a key that has none.
fn absent(alloc: Global, which: Part) -> Result<Program, Memory>
    ensures { IfOk result (λ p. prog_of p ≡ programs.at_absent which) }
{
    match which {
        Part::Set | Part::Add => store_absent(alloc),
        Part::Replace => refuse(alloc, texts::NOT_STORED),
        Part::Cas => refuse(alloc, texts::NOT_FOUND),
    }
}

/// The program of a command, which begins after the moment and the call's marks.
pub fn program(alloc: Global, which: Part) -> Result<Program, Memory>
    ensures { IfOk result (λ p. prog_of p ≡ programs.part_program which) }
{
    let present = present(alloc, which)?;
    let absent = absent(alloc, which)?;
    store_by(alloc, present, absent)
}

/// The statements of a command's program.
pub fn fragment(alloc: Global, _g: &Geometry, which: Part) -> Result<Fragment, Memory>
    requires { IsValid _g.now }
    ensures { IfOk result (λ f. f ≡ flatten (programs.part_program which)) }
{
    let program = program(alloc, which)?;
    Fragment::of(alloc, &program)
}
