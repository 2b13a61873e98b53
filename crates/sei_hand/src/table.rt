//! The table of all commands.
ghost use Rattle.std.specs.Prelude.{◌≡◌, IfOk};
ghost use Rattle.mc_model.specs.Server.{IsValid};
ghost use Rattle.sei_hand.specs.Commands.{hands_table};

use crate::commands::hands;
use mc_model::Geometry;
use sei_code::Memory;
use sei_stmt::{Stmt, Table};
use std::alloc::Global;

/// The table of the commands for buckets of this geometry. The error is out of memory.
pub fn table_of(alloc: Global, geometry: &Geometry) -> Result<Table, Memory>
    requires { IsValid geometry.now }
    ensures { IfOk result (λ table. table ≡ hands_table geometry.now) }
{
    let mut stmts = hands(alloc, geometry)?.flatten(alloc)?;
    stmts.push(Stmt::Halt)?;
    let Ok(table) = Table::new(stmts) else {
        unreachable!();
    };
    Ok(table)
}
