//! The input words of a call.
ghost use Rattle.std.specs.Prelude.{◌≡◌, ◌+◌, ◌*◌, ◌≤◌, length, replicate, slice_range};
ghost use Rattle.sei_code.specs.Codes.{fnv64};
ghost use Rattle.sei_code.specs.Kept.{extended};
ghost use Rattle.sei_stmt.specs.Handling.{refilled};
ghost use Rattle.mc_model.specs.Packed.{words_for, pack};
ghost use Rattle.mc_model.specs.Views.{call_with, call_of, IsSpanOf};
ghost use Rattle.mc_text.specs.Fits.{HasKey, HasOwnHash};
ghost use Rattle.mc_model.specs.Call.{verb_number};
ghost use Rattle.tab_find.specs.Calls.{mark};
ghost use Rattle.sei_pass.specs.Spaces.{input_for};
ghost use Rattle.sei_hand.specs.InputWords.{hash_word, field_words, filled_up, filled_input};

use mc_model::{CallSpan, Verb, pack};
use sei_code::WordList;

/// As many words as the longest key takes.
const KEY_WORDS: usize = 32;

const ZEROS: [u64; KEY_WORDS] = [0; KEY_WORDS];

fn verb_number(verb: Verb) -> u64
    ensures { result ≡ verb_number verb }
{
    match verb {
        Verb::Set => 0,
        Verb::Add => 1,
        Verb::Replace => 2,
        Verb::Append => 3,
        Verb::Prepend => 4,
        Verb::Cas => 5,
        Verb::Get => 6,
        Verb::Gets => 7,
        Verb::Gat => 8,
        Verb::Gats => 9,
        Verb::Touch => 10,
        Verb::Delete => 11,
        Verb::Incr => 12,
        Verb::Decr => 13,
        Verb::Flush => 14,
        Verb::Fixed => 15,
    }
}

/// The hash of the call's key, or 0 if its command has no key.
fn hash_word(call: &CallSpan, key: &[u8]) -> u64
    requires { HasKey call.now.verb → call.now.hash ≡ fnv64 key.now }
    ensures { result ≡ hash_word call.now.verb key.now }
{
    match call.verb {
        Verb::Flush | Verb::Fixed => 0,
        _ => call.hash,
    }
}

fn mark(b: bool) -> u64
    ensures { result ≡ mark b }
{
    if b { 1 } else { 0 }
}

/// Words 0 to 13.
fn field_words(call: &CallSpan, key: &[u8], block: &[u8]) -> [u64; 14]
    requires { HasKey call.now.verb → call.now.hash ≡ fnv64 key.now }
    ensures { result ≡ field_words (call_with key.now block.now call.now) }
{
    [
        verb_number(call.verb),
        key.len() as u64,
        hash_word(call, key),
        u64::from(call.flags),
        mark(call.negative),
        call.exptime,
        call.unique,
        call.value,
        block.len() as u64,
        mark(call.last),
        mark(call.noreply),
        u64::from(call.text),
        key.len().div_ceil(8) as u64,
        block.len().div_ceil(8) as u64,
    ]
}

/// The bytes packed into words, filled up with zeros to `count` words.
fn push_filled_up(bytes: &[u8], count: usize, into: &mut WordList)
    requires fit { words_for (length bytes.now) ≤ count }
    requires room { length into.old.items + count ≤ into.old.room }
    ensures { into.new ≡ extended into.old (filled_up count (pack bytes.now)) }
{
    pack(bytes, into);
    push_zeros(count - bytes.len().div_ceil(8), into);
}

fn push_zeros(count: usize, into: &mut WordList)
    requires { length into.old.items + count ≤ into.old.room }
    ensures { into.new ≡ extended into.old (replicate count 0) }
{
    let mut left = count;
    while left > KEY_WORDS {
        into.extend_from_slice(&ZEROS);
        left -= KEY_WORDS;
    }
    into.extend_from_slice(&ZEROS[..left]);
}

/// Fills the list, which is emptied first, with the input words of a call. The words of its block
/// are filled up with zeros to `words`.
pub fn fill(call: &CallSpan, input: &[u8], words: u64, into: &mut WordList)
    requires places { IsSpanOf input.now call.now }
    requires hash { HasOwnHash input.now call.now }
    requires key { length (call_of input.now call.now).key ≤ 250 }
    requires block { length (call_of input.now call.now).block ≤ 8 * words }
    requires room { input_for words ≤ into.old.room }
    ensures { into.new ≡ refilled into.old (filled_input words (call_of input.now call.now)) }
{
    let key = &input[call.key.from..call.key.to];
    let block = &input[call.block.from..call.block.to];
    into.clear();
    into.extend_from_slice(&field_words(call, key, block));
    push_filled_up(key, KEY_WORDS, into);
    push_filled_up(block, words as usize, into);
}
