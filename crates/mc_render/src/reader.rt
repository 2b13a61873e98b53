//! Output words read as outputs, from the front.
ghost use Rattle.std.specs.Prelude.{◌≡◌, IfSome};
ghost use Rattle.std.specs.Option.{option_map};
ghost use Rattle.mc_render.specs.Outputs.{IsKnown, first_text, first_value, first_number, first_output};

use crate::output::{Output, ShownItem};
use crate::packed::first_bytes;
use mc_model::texts;

/// The first word of a fixed text.
const TEXT: u64 = 0;

/// The first word of an item.
const VALUE: u64 = 1;

/// The first word of a number.
const NUMBER: u64 = 2;

const LONGEST_KEY: u64 = 250;

fn first_text(words: &[u64]) -> Option<(Output<'_>, &[u64])>
    ensures value { option_map (λ p. (p.0, p.1.now)) result ≡ first_text words.now }
    ensures known { IfSome result (λ p. IsKnown p.0) }
{
    match words {
        [number, rest @ ..] if *number < u64::from(texts::COUNT) => Some((
            Output::Text(*number as u8),
            rest,
        )),
        _ => None,
    }
}

fn first_value(words: &[u64], value_bytes: u64) -> Option<(Output<'_>, &[u64])>
    ensures value { option_map (λ p. (p.0, p.1.now)) result ≡ first_value value_bytes words.now }
    ensures known { IfSome result (λ p. IsKnown p.0) }
{
    let [
        with_unique,
        key_length,
        flags,
        value_length,
        unique,
        rest @ ..,
    ] = words
    else {
        return None;
    };
    if *with_unique > 1
        || *key_length < 1
        || *key_length > LONGEST_KEY
        || *value_length > value_bytes
    {
        return None;
    }
    let (key, rest) = first_bytes(rest, *key_length as usize)?;
    let (value, rest) = first_bytes(rest, *value_length as usize)?;
    let item = ShownItem {
        with_unique: *with_unique == 1,
        key,
        flags: *flags,
        unique: *unique,
        value,
    };
    Some((Output::Value(item), rest))
}

fn first_number(words: &[u64]) -> Option<(Output<'_>, &[u64])>
    ensures value { option_map (λ p. (p.0, p.1.now)) result ≡ first_number words.now }
    ensures known { IfSome result (λ p. IsKnown p.0) }
{
    match words {
        [number, rest @ ..] => Some((Output::Number(*number), rest)),
        [] => None,
    }
}

/// The output that the words begin with, and the words after it. None if they begin with no output.
/// A value may have `value_bytes` bytes.
pub fn first_output(words: &[u64], value_bytes: u64) -> Option<(Output<'_>, &[u64])>
    ensures value { option_map (λ p. (p.0, p.1.now)) result ≡ first_output value_bytes words.now }
    ensures known { IfSome result (λ p. IsKnown p.0) }
{
    match words {
        [TEXT, rest @ ..] => first_text(rest),
        [VALUE, rest @ ..] => first_value(rest, value_bytes),
        [NUMBER, rest @ ..] => first_number(rest),
        _ => None,
    }
}
