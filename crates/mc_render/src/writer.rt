//! Outputs written as the bytes of a reply.
ghost use Rattle.std.specs.Prelude.{◌++◌, codes};
ghost use Rattle.mc_render.specs.Puts.{Puts};
ghost use Rattle.std.specs.Fmt.{decimal};
ghost use Rattle.mc_model.specs.Texts.{line};
ghost use Rattle.mc_render.specs.Outputs.{value_head, output_text, IsKnown};

use crate::output::{Output, ShownItem};
use crate::packed::put_packed;
use crate::put::{NoRoom, put, put_decimal};
use mc_model::text;
use sei_code::Buffer;

/// A space and the number.
fn put_field(into: &mut Buffer, number: u64) -> Result<(), NoRoom>
    ensures { Puts into.old into.new (codes " " ++ decimal number) result }
{
    put(into, b" ")?;
    put_decimal(into, number)
}

/// The line before a value, without its end.
fn put_head(into: &mut Buffer, shown: &ShownItem<'_>) -> Result<(), NoRoom>
    ensures { Puts into.old into.new (value_head shown.now) result }
{
    put(into, b"VALUE ")?;
    put_packed(into, &shown.key)?;
    put_field(into, shown.flags)?;
    put_field(into, shown.value.len() as u64)?;
    if shown.with_unique {
        put_field(into, shown.unique)?;
    }
    Ok(())
}

fn put_value(into: &mut Buffer, shown: &ShownItem<'_>) -> Result<(), NoRoom>
    ensures { Puts into.old into.new (line (value_head shown.now) ++ line shown.now.item.value) result }
{
    put_head(into, shown)?;
    put(into, b"\r\n")?;
    put_packed(into, &shown.value)?;
    put(into, b"\r\n")
}

fn put_number(into: &mut Buffer, number: u64) -> Result<(), NoRoom>
    ensures { Puts into.old into.new (line (decimal number)) result }
{
    put_decimal(into, number)?;
    put(into, b"\r\n")
}

/// Appends the bytes of an output to the buffer.
pub fn put_output(into: &mut Buffer, output: &Output<'_>) -> Result<(), NoRoom>
    requires { IsKnown output.now }
    ensures { Puts into.old into.new (output_text output.now) result }
{
    match output {
        Output::Text(number) => put(into, text(*number)),
        Output::Value(shown) => put_value(into, shown),
        Output::Number(number) => put_number(into, *number),
    }
}
