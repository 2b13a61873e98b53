//! Escaped text, read and printed.
ghost use Rattle.std.specs.Prelude.{◌≡◌, ◌+◌, ◌<◌, ◌++◌, ℕ, List, IfOk, IfSome, OnErr, OnOk, Some};
ghost use Rattle.sei_script.specs.Escapes.{unescaped, escaped, escape_of, hex_value, hex_digit, step_of, IsPlace};
ghost use Rattle.sei_script.specs.Unescapes.{Unescapes};

use super::text::Text;
use std::alloc::{AllocError, Global};

/// A place in an escaped text.
#[derive(Clone, Copy)]
pub enum Place {
    Plain,
    Escape,
    High,
    Low(u8),
}

/// The value of a hexadecimal digit in lower case.
pub fn hex_value(b: u8) -> Option<u8>
    ensures value { result ≡ hex_value b }
    ensures below { IfSome result (λ d. d < 16) }
{
    match b {
        b'0'..=b'9' => Some(b - b'0'),
        b'a'..=b'f' => Some(b - 87),
        _ => None,
    }
}

/// What a byte of an escaped text leads to.
#[derive(Clone, Copy)]
struct Step {
    place: Place,
    gives: Option<u8>,
}

fn step_at(place: Place, b: u8) -> Option<Step>
    requires { IsPlace place }
    ensures step { result ≡ step_of place b }
    ensures place { IfSome result (λ s. IsPlace s.place) }
{
    let (place, gives) = match (place, b) {
        (Place::Plain, b'\\') => (Place::Escape, None),
        (Place::Plain, _) => (Place::Plain, Some(b)),
        (Place::Escape, b'r') => (Place::Plain, Some(b'\r')),
        (Place::Escape, b'n') => (Place::Plain, Some(b'\n')),
        (Place::Escape, b'\\') => (Place::Plain, Some(b'\\')),
        (Place::Escape, b'x') => (Place::High, None),
        (Place::Escape, _) => return None,
        (Place::High, _) => (Place::Low(hex_value(b)?), None),
        (Place::Low(high), _) => (Place::Plain, Some(16 * high + hex_value(b)?)),
    };
    Some(Step { place, gives })
}

/// The bytes of an escaped text.
pub fn unescape(alloc: Global, text: &[u8]) -> Result<Option<Text>, AllocError>
    ensures value { IfOk result (λ o. o ≡ unescaped text.now) }
    ensures stands { IfOk result (λ o. IfSome o (λ bytes. Unescapes text.now bytes)) }
    ensures only { IfOk result (λ o. (bytes : List ℕ) → Unescapes text.now bytes → o ≡ Some bytes) }
{
    let mut bytes = Vec::with_capacity(alloc, text.len())?;
    let mut place = Place::Plain;
    for b in text {
        match step_at(place, *b) {
            None => return Ok(None),
            Some(next) => {
                if let Some(given) = next.gives {
                    bytes.push(given)?;
                }
                place = next.place;
            }
        }
    }
    match place {
        Place::Plain => Ok(Some(Text::new(bytes))),
        Place::Escape | Place::High | Place::Low(_) => Ok(None),
    }
}

fn hex_digit(n: u8) -> u8
    requires { n < 16 }
    ensures { result ≡ hex_digit n }
{
    if n < 10 { n + b'0' } else { n + 87 }
}

fn escape_byte(b: u8, into: &mut Vec<u8>) -> Result<(), AllocError>
    ensures appended { OnOk result (into.new.items ≡ into.old.items ++ escape_of b) }
    ensures err { OnErr result (into.new.items ≡ into.old.items) }
{
    match b {
        b'\r' => into.extend_from_slice(b"\\r"),
        b'\n' => into.extend_from_slice(b"\\n"),
        b'\\' => into.extend_from_slice(b"\\\\"),
        b' '..=b'~' => into.extend_from_slice(&[b]),
        _ => into.extend_from_slice(&[b'\\', b'x', hex_digit(b / 16), hex_digit(b % 16)]),
    }
}

/// Appends the bytes as they are printed.
pub fn escape(bytes: &[u8], into: &mut Vec<u8>) -> Result<(), AllocError>
    ensures appended { OnOk result (into.new.items ≡ into.old.items ++ escaped bytes.now) }
    ensures err { OnErr result (into.new.items ≡ into.old.items) }
    ensures readable { unescaped (escaped bytes.now) ≡ Some bytes.now }
{
    let before = into.len();
    for b in bytes {
        if let Err(error) = escape_byte(*b, into) {
            into.truncate(before);
            return Err(error);
        }
    }
    Ok(())
}

#[cfg(test)]
mod tests {
    use super::*;

    #[test]
    fn bytes_as_they_are_printed(rt: HostRuntime) -> Result<(), AllocError> {
        let mut printed = Vec::new(rt.alloc());
        escape(b"\n\r\\ ~\x7f\x00\xff", &mut printed)?;
        assert_eq!(rt;
            printed.as_slice(),
            b"\\n\\r\\\\ ~\\x7f\\x00\\xff".as_slice()
        );
        Ok(())
    }
}
