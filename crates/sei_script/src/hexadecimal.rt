//! Bytes that are written as pairs of hexadecimal digits.
ghost use Rattle.std.specs.Prelude.{◌≡◌, ◌≤◌, IfOk, length, drop};
ghost use Rattle.sei_script.specs.Hexadecimal.{unhexed};

use super::escapes::hex_value;
use super::text::Text;
use std::alloc::{AllocError, Global};

fn behind_pair(text: &[u8]) -> &[u8]
    requires { 2 ≤ length text.now }
    ensures { result.now ≡ drop 2 text.now }
{
    &text[2..]
}

/// The bytes that a text of hexadecimal digits in lower case stands for, two digits each.
pub fn unhex(alloc: Global, text: &[u8]) -> Result<Option<Text>, AllocError>
    ensures { IfOk result (λ o. o ≡ unhexed text.now) }
{
    let mut bytes = Vec::with_capacity(alloc, text.len() / 2)?;
    let mut rest = text;
    while rest.len() >= 2 {
        let Some(high) = hex_value(rest[0]) else {
            return Ok(None);
        };
        let Some(low) = hex_value(rest[1]) else {
            return Ok(None);
        };
        bytes.push(16 * high + low)?;
        rest = behind_pair(rest);
    }
    if rest.is_empty() {
        Ok(Some(Text::new(bytes)))
    } else {
        Ok(None)
    }
}
