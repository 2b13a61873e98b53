//! The bytes of the requests that are measured.
ghost use Rattle.std.specs.Prelude.{◌≡◌, ◌++◌, replicate, IfOk, OnOk};
ghost use Rattle.yardstick.specs.Requests.{get_text, request_text, set_text};

use crate::order::Command;
use sei_code::Memory;
use std::alloc::Global;

/// Appends this letter `count` times.
fn letters(into: &mut Vec<u8>, letter: u8, count: u64) -> Result<(), Memory>
    ensures { OnOk result (into.new.items ≡ into.old.items ++ replicate count letter) }
{
    for _ in 0..count {
        into.push(letter)?;
    }
    Ok(())
}

/// A set of a key of `key` letters `k` to a value of `value` letters `v`.
fn set(alloc: Global, key: u64, value: u64) -> Result<Vec<u8>, Memory>
    ensures { IfOk result (λ text. text.items ≡ set_text key value) }
{
    let mut text = Vec::from_slice(alloc, b"set ")?;
    letters(&mut text, b'k', key)?;
    text.extend_from_slice(format!(in alloc; " 0 0 {value}\r\n")?.as_bytes())?;
    letters(&mut text, b'v', value)?;
    text.extend_from_slice(b"\r\n")?;
    Ok(text)
}

/// A get of a key of `key` times this letter.
fn get(alloc: Global, letter: u8, key: u64) -> Result<Vec<u8>, Memory>
    ensures { IfOk result (λ text. text.items ≡ get_text letter key) }
{
    let mut text = Vec::from_slice(alloc, b"get ")?;
    letters(&mut text, letter, key)?;
    text.extend_from_slice(b"\r\n")?;
    Ok(text)
}

/// The request of a command, for a key and a value of these many bytes.
pub fn request(alloc: Global, command: Command, key: u64, value: u64) -> Result<Vec<u8>, Memory>
    ensures { IfOk result (λ text. text.items ≡ request_text command key value) }
{
    match command {
        Command::Set => set(alloc, key, value),
        Command::Get => get(alloc, b'k', key),
        Command::Miss => get(alloc, b'm', key),
    }
}
