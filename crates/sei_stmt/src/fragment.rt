//! Fragments: parts of a table.
ghost use Rattle.std.specs.Prelude.{◌≡◌, ◌++◌, IfOk, OnOk, OnErr, vec_len};
ghost use Rattle.sei_stmt.specs.Programs.{flatten};
ghost use Rattle.sei_stmt.specs.Written.{prog_of};

use super::{Program, Stmt};
use sei_code::Memory;
use std::alloc::Global;
use std::marker::Model;

/// A part of a table. Its value is the list of its statements. Its jumps keep their meaning wherever
/// it is placed, since an offset is counted from the jump.
#[derive(Drop)]
pub struct Fragment {
    /// The statements, in order.
    pub stmts: Vec<Stmt>,
}

impl Model for Fragment {
    ghost use Rattle.std.specs.Prelude.{List};
    ghost use Rattle.sei_stmt.specs.declared.stmt.Stmt.{Stmt};

    ghost Value = { List Stmt };

    ghost view = { λ f. f.stmts.items };
}

impl Fragment {
    /// The statements of the program. The error is out of memory.
    pub fn of(alloc: Global, program: &Program) -> Result<Fragment, Memory>
        ensures { IfOk result (λ f. f ≡ flatten (prog_of program.now)) }
    {
        let stmts = program.flatten(alloc)?;
        Ok(Fragment { stmts })
    }
}

/// Appends the fragment's statements to those that are there, and answers the index of the first of
/// them. The error is out of memory; then nothing has changed.
pub fn place(into: &mut Vec<Stmt>, f: &Fragment) -> Result<u64, Memory>
    ensures first { IfOk result (λ at. at ≡ vec_len into.old) }
    ensures placed { OnOk result (into.new.items ≡ into.old.items ++ f.now) }
    ensures unchanged { OnErr result (into.new.items ≡ into.old.items) }
{
    let first = into.len() as u64;
    into.extend_from_slice(&f.stmts)?;
    Ok(first)
}
