//! The program of all commands. The error of each call is out of memory.
ghost use Rattle.std.specs.Prelude.{◌≡◌, IfOk, map};
ghost use Rattle.mc_model.specs.Server.{IsValid};
ghost use Rattle.sei_stmt.specs.Written.{prog_of};
ghost use Rattle.mc_model.specs.Call.{verb_number};
ghost use Rattle.sei_hand.specs.Commands as commands;

use mc_model::{Geometry, Verb};
use sei_code::Memory;
use sei_stmt::{Program, Stmt};
use std::alloc::Global;
use tab_find::registers::{INDEX, NOREPLY, NUMBER, VERB, ZERO};
use tab_find::statements::{input, set};
use tab_find::{inputs, moment};

/// All commands, in the order of their numbers.
const VERBS: [Verb; 16] = [
    Verb::Set,
    Verb::Add,
    Verb::Replace,
    Verb::Append,
    Verb::Prepend,
    Verb::Cas,
    Verb::Get,
    Verb::Gets,
    Verb::Gat,
    Verb::Gats,
    Verb::Touch,
    Verb::Delete,
    Verb::Incr,
    Verb::Decr,
    Verb::Flush,
    Verb::Fixed,
];

/// The program of a command, which is empty if no request may ask for it.
fn program(alloc: Global, verb: Verb) -> Result<Program, Memory>
    ensures { IfOk result (λ p. prog_of p ≡ commands.program_in commands.rows (verb_number verb)) }
{
    match verb {
        Verb::Set => tab_store::program(alloc, tab_store::Part::Set),
        Verb::Add => tab_store::program(alloc, tab_store::Part::Add),
        Verb::Replace => tab_store::program(alloc, tab_store::Part::Replace),
        Verb::Cas => tab_store::program(alloc, tab_store::Part::Cas),
        Verb::Get => tab_read::program(alloc, tab_read::Part::Get),
        Verb::Gets => tab_read::program(alloc, tab_read::Part::Gets),
        Verb::Gat => tab_read::program(alloc, tab_read::Part::Gat),
        Verb::Gats => tab_read::program(alloc, tab_read::Part::Gats),
        Verb::Touch => tab_read::program(alloc, tab_read::Part::Touch),
        Verb::Delete => tab_read::program(alloc, tab_read::Part::Delete),
        Verb::Flush => tab_read::program(alloc, tab_read::Part::Flush),
        Verb::Fixed => tab_read::program(alloc, tab_read::Part::Fixed),
        _ => Ok(Program::empty(alloc)),
    }
}

/// The programs of all commands, in the order of their numbers.
fn programs(alloc: Global) -> Result<Vec<Program>, Memory>
    ensures { IfOk result (λ ps. map prog_of ps.items ≡ commands.programs) }
{
    let mut programs = Vec::new(alloc);
    for verb in VERBS {
        programs.push(program(alloc, verb)?)?;
    }
    Ok(programs)
}

/// Loads the command of the call, and the mark that no reply is wanted.
fn load_marks(alloc: Global) -> Result<Program, Memory>
    ensures { IfOk result (λ p. prog_of p ≡ commands.load_marks) }
{
    Program::block(
        alloc,
        &[
            input(VERB, ZERO),
            set(INDEX, inputs::NOREPLY),
            input(NOREPLY, INDEX),
        ],
    )
}

/// All statements but the last.
pub fn hands(alloc: Global, g: &Geometry) -> Result<Program, Memory>
    requires { IsValid g.now }
    ensures { IfOk result (λ p. prog_of p ≡ commands.hands_program g.now) }
{
    let rendered = Program::block(alloc, &[Stmt::Render])?;
    let programs = programs(alloc)?;
    let chosen = Program::halves(alloc, 4, VERB, NUMBER, programs)?.then(alloc, rendered)?;
    let marked = load_marks(alloc)?.then(alloc, chosen)?;
    let timed = moment(alloc, g)?.then(alloc, marked)?;
    Program::block(alloc, &[Stmt::Parse])?.then(alloc, timed)
}
