//! The lines of a report but those of aborts.
ghost use Rattle.std.specs.Prelude.{◌≡◌, ◌+◌, ◌++◌, IfOk, OnOk};
ghost use Rattle.std.specs.Fmt.{decimal};
ghost use Rattle.sei_script.specs.ReportLines.{reply_text, entry_text, sent_text, closed_text, refused_text, took_text, left_text, why_text, refusal_text};

use super::escapes::escape;
use super::line::Why;
use sei_code::Memory;
use std::alloc::Global;

/// Appends a number in decimal digits.
pub fn add_number(alloc: Global, into: &mut Vec<u8>, n: u64) -> Result<(), Memory>
    ensures { OnOk result (into.new.items ≡ into.old.items ++ decimal n) }
{
    let digits = n.to_string(alloc)?;
    into.extend_from_slice(digits.as_bytes())
}

/// A line's first word and the number of a connection or a script's line.
pub fn begin(alloc: Global, word: &[u8], n: u64) -> Result<Vec<u8>, Memory>
    ensures { IfOk result (λ text. text.items ≡ word.now ++ decimal n) }
{
    let mut text = Vec::from_slice(alloc, word)?;
    add_number(alloc, &mut text, n)?;
    Ok(text)
}

fn add_reply(into: &mut Vec<u8>, reply: &[u8]) -> Result<(), Memory>
    ensures { OnOk result (into.new.items ≡ into.old.items ++ reply_text reply.now) }
{
    if reply.is_empty() {
        into.extend_from_slice(b"-")
    } else {
        escape(reply, into)
    }
}

/// The line of an entry: connection, number, bucket, the clock's answer and the reply.
pub fn entry_text(
    alloc: Global,
    connection: u32,
    number: u64,
    bucket: u64,
    now: u64,
    reply: &[u8],
) -> Result<Vec<u8>, Memory>
    ensures { IfOk result (λ text. text.items ≡ entry_text connection number bucket now reply.now) }
{
    let mut text = begin(alloc, b"entry ", connection as u64)?;
    text.extend_from_slice(b" ")?;
    add_number(alloc, &mut text, number)?;
    text.extend_from_slice(b" ")?;
    add_number(alloc, &mut text, bucket)?;
    text.extend_from_slice(b" ")?;
    add_number(alloc, &mut text, now)?;
    text.extend_from_slice(b" ")?;
    add_reply(&mut text, reply)?;
    text.extend_from_slice(b"\n")?;
    Ok(text)
}

/// The line of a message that was sent to connection `c`.
pub fn sent_text(alloc: Global, c: u32, bytes: &[u8]) -> Result<Vec<u8>, Memory>
    ensures { IfOk result (λ text. text.items ≡ sent_text c bytes.now) }
{
    let mut text = begin(alloc, b"sent ", c as u64)?;
    text.extend_from_slice(b" ")?;
    escape(bytes, &mut text)?;
    text.extend_from_slice(b"\n")?;
    Ok(text)
}

/// The line of connection `c`, which closes.
pub fn closed_text(alloc: Global, c: u32) -> Result<Vec<u8>, Memory>
    ensures { IfOk result (λ text. text.items ≡ closed_text c) }
{
    let mut text = begin(alloc, b"closed ", c as u64)?;
    text.extend_from_slice(b"\n")?;
    Ok(text)
}

/// The line of connection `c`, which is refused.
pub fn refused_text(alloc: Global, c: u32) -> Result<Vec<u8>, Memory>
    ensures { IfOk result (λ text. text.items ≡ refused_text c) }
{
    let mut text = begin(alloc, b"refused ", c as u64)?;
    text.extend_from_slice(b"\n")?;
    Ok(text)
}

/// The line of how many messages a peer of connection `c` accepts.
pub fn took_text(alloc: Global, c: u32, count: u64) -> Result<Vec<u8>, Memory>
    ensures { IfOk result (λ text. text.items ≡ took_text c count) }
{
    let mut text = begin(alloc, b"took ", c as u64)?;
    text.extend_from_slice(b" ")?;
    add_number(alloc, &mut text, count)?;
    text.extend_from_slice(b"\n")?;
    Ok(text)
}

/// The line of the bytes that no request took; nothing if there are none.
pub fn left_text(alloc: Global, c: u32, left: usize) -> Result<Vec<u8>, Memory>
    ensures { IfOk result (λ text. text.items ≡ left_text c left) }
{
    if left == 0 {
        return Ok(Vec::new(alloc));
    }
    let mut text = begin(alloc, b"left ", c as u64)?;
    text.extend_from_slice(b" ")?;
    add_number(alloc, &mut text, left as u64)?;
    text.extend_from_slice(b"\n")?;
    Ok(text)
}

fn why_text(why: Why) -> &'static [u8]
    ensures { result.now ≡ why_text why }
{
    match why {
        Why::UnfinishedLine => b"unfinished line",
        Why::GeometryMissing => b"geometry missing",
        Why::UnknownLine => b"unknown line",
        Why::BadLine => b"bad line",
        Why::GeometryOutOfLimits => b"geometry out of limits",
        Why::TooManyConnections => b"too many connections",
        Why::WrongNumber => b"wrong number",
        Why::UnknownConnection => b"unknown connection",
        Why::SecondFault => b"second fault",
        Why::TooBig => b"too big",
    }
}

/// The line that refuses a script.
pub fn refusal_text(alloc: Global, line: u64, why: Why) -> Result<Vec<u8>, Memory>
    ensures { IfOk result (λ text. text.items ≡ refusal_text line why) }
{
    let mut text = begin(alloc, b"script line ", line)?;
    text.extend_from_slice(b": ")?;
    text.extend_from_slice(why_text(why))?;
    text.extend_from_slice(b"\n")?;
    Ok(text)
}
