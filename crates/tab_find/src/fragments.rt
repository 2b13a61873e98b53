//! The parts that find a slot and fill it, as fragments of a table.
ghost use Rattle.std.specs.Prelude.{◌≡◌, IfOk};
ghost use Rattle.mc_model.specs.Server.{IsValid};
ghost use Rattle.sei_stmt.specs.Programs.{flatten};
ghost use Rattle.tab_find.specs.Parts.{part_program};

use crate::registers::LIMIT;
use crate::{finding, inputs, storing};
use mc_model::Geometry;
use sei_code::Memory;
use sei_stmt::Fragment;
use std::alloc::Global;

/// The parts that find a slot and fill it.
#[derive(Clone, Copy, Debug, PartialEq, Eq)]
pub enum Part {
    /// Asks for the time, and makes the bucket's moment the largest of 1, the old moment and the time.
    Moment,
    /// Looks for the call's key: the address at which the slot begins that has it, or the end of
    /// all slots.
    Find,
    /// Asks for a free slot: the address at which it begins, or the end of all slots.
    Free,
    /// Copies the call's key words, from the index on, to the bucket's words from the address on.
    CopyKey,
    /// Copies the call's block words to the value of the slot.
    CopyValue,
}

/// The statements of a part, for buckets of this geometry. The error is out of memory.
pub fn fragment(alloc: Global, g: &Geometry, which: Part) -> Result<Fragment, Memory>
    requires { IsValid g.now }
    ensures { IfOk result (λ f. f ≡ flatten (part_program g.now which)) }
{
    let program = match which {
        Part::Moment => finding::moment(alloc, g)?,
        Part::Find => finding::find(alloc)?,
        Part::Free => finding::free(alloc)?,
        Part::CopyKey => storing::copy_run(alloc, LIMIT)?,
        Part::CopyValue => storing::store_value(alloc, inputs::BLOCK)?,
    };
    Fragment::of(alloc, &program)
}
