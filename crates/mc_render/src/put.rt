//! Bytes and numbers appended to a buffer that may be too small for them.
ghost use Rattle.mc_render.specs.Puts.{Puts};
ghost use Rattle.std.specs.Fmt.{decimal};

use sei_code::Buffer;

/// The buffer is too small.
#[derive(Clone, Copy)]
pub struct NoRoom;

/// Appends the bytes to the buffer.
pub fn put(into: &mut Buffer, bytes: &[u8]) -> Result<(), NoRoom>
    ensures { Puts into.old into.new bytes.now result }
{
    for b in bytes {
        if !into.push(*b) {
            return Err(NoRoom);
        }
    }
    Ok(())
}

/// Appends the decimal digits of the number to the buffer.
pub fn put_decimal(into: &mut Buffer, number: u64) -> Result<(), NoRoom>
    ensures { Puts into.old into.new (decimal number) result }
{
    put(into, itoa::Buffer::new().format(number).as_bytes())
}
