//! What a line says, by its words and the lines before it.
ghost use Rattle.std.specs.Prelude.{◌≡◌, ◌≤◌, ◌-◌, ◌^◌, min, IfOk};
ghost use Rattle.std.specs.Option.{option_map};
ghost use Rattle.std.specs.Str.Lines.{strip_carriage_return};
ghost use Rattle.sei_script.specs.Limits.{most_connections};
ghost use Rattle.sei_script.specs.Says.{geometry_numbers, geometry_words, geometry_says, open_number, open_says, of_open, say_says, hex_says, drain_says, clock_says, fault_says, other_says, kind_says, is_skipped, line_says};

use super::escapes::unescape;
use super::hexadecimal::unhex;
use super::line::{CONNECTIONS, Context, Said, ScriptLine, Why};
use super::plans::plan_of;
use super::text::Text;
use super::words::{behind_word, first_exact, first_number, last_exact, word_of};
use mc_model::Geometry;
use sei_code::Mode;
use std::alloc::{AllocError, Global};

fn geometry_numbers(buckets: u64, slots: u64, value_words: u64) -> Said
    ensures { result ≡ geometry_numbers buckets slots value_words }
{
    let g = Geometry {
        buckets,
        slots,
        value_words,
    };
    if g.is_valid() {
        Said::Line(ScriptLine::Geometry { g })
    } else {
        Said::Wrong(Why::GeometryOutOfLimits)
    }
}

fn geometry_words(rest: Option<&[u8]>) -> Said
    ensures { result ≡ geometry_words (option_map (λ x. x.now) rest.entry) }
{
    let Some(buckets) = first_number(rest) else {
        return Said::Wrong(Why::BadLine);
    };
    let Some(slots) = first_number(buckets.rest) else {
        return Said::Wrong(Why::BadLine);
    };
    let Some(value_words) = first_number(slots.rest) else {
        return Said::Wrong(Why::BadLine);
    };
    match value_words.rest {
        None => geometry_numbers(buckets.number, slots.number, value_words.number),
        Some(_) => Said::Wrong(Why::BadLine),
    }
}

fn geometry_says(context: Context, rest: Option<&[u8]>) -> Said
    ensures { result ≡ geometry_says context.geometry (option_map (λ x. x.now) rest.entry) }
{
    match context.geometry {
        None => geometry_words(rest),
        Some(_) => Said::Wrong(Why::BadLine),
    }
}

fn open_number(context: Context, c: u64) -> Said
    requires { context.opens ≤ most_connections }
    ensures { result ≡ open_number context c }
{
    if c >= CONNECTIONS as u64 {
        Said::Wrong(Why::TooManyConnections)
    } else if c == context.opens as u64 {
        Said::Line(ScriptLine::Open {
            c: context.opens,
            mode: Mode::Plain,
        })
    } else {
        Said::Wrong(Why::WrongNumber)
    }
}

fn open_says(context: Context, rest: Option<&[u8]>) -> Said
    requires { context.opens ≤ most_connections }
    ensures { result ≡ open_says context (option_map (λ x. x.now) rest.entry) }
{
    let Some(c) = first_number(rest) else {
        return Said::Wrong(Why::BadLine);
    };
    match c.rest {
        None => Said::Wrong(Why::BadLine),
        Some(mode) => {
            if mode == b"plain".as_slice() {
                open_number(context, c.number)
            } else {
                Said::Wrong(Why::BadLine)
            }
        }
    }
}

/// The connection with this number, at most the last u32.
fn connection(c: u64) -> u32
    ensures { result ≡ min c (2 ^ 32 - 1) }
{
    c.min(u32::MAX as u64) as u32
}

/// A line that speaks of connection `c`, which has to be open.
fn of_open(context: Context, c: u32, line: ScriptLine) -> Said
    ensures { result ≡ of_open context c line }
{
    if c < context.opens {
        Said::Line(line)
    } else {
        Said::Wrong(Why::UnknownConnection)
    }
}

fn say_says(alloc: Global, context: Context, rest: Option<&[u8]>) -> Result<Said, AllocError>
    requires { context.opens ≤ most_connections }
    ensures { IfOk result (λ said. said ≡ say_says context (option_map (λ x. x.now) rest.entry)) }
{
    let Some(c) = first_number(rest) else {
        return Ok(Said::Wrong(Why::BadLine));
    };
    let Some(text) = c.rest else {
        return Ok(Said::Wrong(Why::BadLine));
    };
    match unescape(alloc, text)? {
        None => Ok(Said::Wrong(Why::BadLine)),
        Some(bytes) => {
            let c = connection(c.number);
            Ok(of_open(context, c, ScriptLine::Say { c, bytes }))
        }
    }
}

fn hex_says(alloc: Global, context: Context, rest: Option<&[u8]>) -> Result<Said, AllocError>
    requires { context.opens ≤ most_connections }
    ensures { IfOk result (λ said. said ≡ hex_says context (option_map (λ x. x.now) rest.entry)) }
{
    let Some(c) = first_number(rest) else {
        return Ok(Said::Wrong(Why::BadLine));
    };
    let Some(text) = c.rest else {
        return Ok(Said::Wrong(Why::BadLine));
    };
    match unhex(alloc, text)? {
        None => Ok(Said::Wrong(Why::BadLine)),
        Some(bytes) => {
            let c = connection(c.number);
            Ok(of_open(context, c, ScriptLine::Hex { c, bytes }))
        }
    }
}

fn drain_says(rest: Option<&[u8]>) -> Said
    ensures { result ≡ drain_says (option_map (λ x. x.now) rest.entry) }
{
    match rest {
        None => Said::Line(ScriptLine::Drain),
        Some(_) => Said::Wrong(Why::BadLine),
    }
}

fn clock_says(rest: Option<&[u8]>) -> Said
    ensures { result ≡ clock_says (option_map (λ x. x.now) rest.entry) }
{
    match last_exact(rest) {
        None => Said::Wrong(Why::BadLine),
        Some(now) => Said::Line(ScriptLine::Clock { now }),
    }
}

fn fault_says(context: Context, rest: Option<&[u8]>) -> Said
    requires { context.opens ≤ most_connections }
    ensures { result ≡ fault_says context (option_map (λ x. x.now) rest.entry) }
{
    let Some(c) = first_number(rest) else {
        return Said::Wrong(Why::BadLine);
    };
    let Some(t) = first_exact(c.rest) else {
        return Said::Wrong(Why::BadLine);
    };
    match plan_of(t.rest) {
        None => Said::Wrong(Why::BadLine),
        Some(plan) => {
            let (c, t) = (connection(c.number), t.number);
            of_open(context, c, ScriptLine::Fault { c, t, plan })
        }
    }
}

fn other_says(
    alloc: Global,
    context: Context,
    kind: &[u8],
    rest: Option<&[u8]>,
) -> Result<Said, AllocError>
    requires { context.opens ≤ most_connections }
    ensures { IfOk result (λ said. said ≡ other_says context kind.now (option_map (λ x. x.now) rest.entry)) }
{
    if kind == b"open".as_slice() {
        Ok(open_says(context, rest))
    } else if kind == b"say".as_slice() {
        say_says(alloc, context, rest)
    } else if kind == b"hex".as_slice() {
        hex_says(alloc, context, rest)
    } else if kind == b"drain".as_slice() {
        Ok(drain_says(rest))
    } else if kind == b"clock".as_slice() {
        Ok(clock_says(rest))
    } else if kind == b"fault".as_slice() {
        Ok(fault_says(context, rest))
    } else {
        Ok(Said::Wrong(Why::UnknownLine))
    }
}

fn kind_says(
    alloc: Global,
    context: Context,
    kind: &[u8],
    rest: Option<&[u8]>,
) -> Result<Said, AllocError>
    requires { context.opens ≤ most_connections }
    ensures { IfOk result (λ said. said ≡ kind_says context kind.now (option_map (λ x. x.now) rest.entry)) }
{
    if kind == b"geometry".as_slice() {
        Ok(geometry_says(context, rest))
    } else {
        match context.geometry {
            None => Ok(Said::Wrong(Why::GeometryMissing)),
            Some(_) => other_says(alloc, context, kind, rest),
        }
    }
}

fn is_skipped(text: &[u8]) -> bool
    ensures { result ≡ is_skipped text.now }
{
    match text {
        [] => true,
        [first, ..] => *first == b'#',
    }
}

/// The line without a CR at its end.
fn strip_carriage_return(line: &[u8]) -> &[u8]
    ensures { result.now ≡ strip_carriage_return line.now }
{
    match line {
        [text @ .., b'\r'] => text,
        _ => line,
    }
}

/// What a whole line says, after these lines.
pub fn line_says(alloc: Global, context: Context, line: &[u8]) -> Result<Said, AllocError>
    requires { context.opens ≤ most_connections }
    ensures { IfOk result (λ said. said ≡ line_says context line.now) }
{
    let text = strip_carriage_return(line);
    if is_skipped(text) {
        Ok(Said::Nothing)
    } else {
        kind_says(alloc, context, word_of(text), behind_word(text))
    }
}
