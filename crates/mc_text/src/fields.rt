//! The fields of a line: a key, an exptime, those of an item, `noreply`.

ghost use Rattle.std.specs.Prelude.{◌≡◌, ◌<◌, ◌≤◌, ◌^◌, length, drop, IfSome};
ghost use Rattle.std.specs.List.{list_all};
ghost use Rattle.mc_text.specs.Words.{words, arg};
ghost use Rattle.mc_text.specs.Fields.{is_key_byte, is_key, keys_in, exptime_of, item_of, is_noreply, has_words};

use crate::commands::is;
use crate::limits::LONGEST_KEY;
use crate::words::{count, word};
use mc_model::number_upto;

/// The greatest number of seconds in an exptime.
const LARGEST_EXPTIME: u64 = 0x7fff_ffff_ffff_ffff;

/// The greatest number in flags, in the size of a block and in a verbosity.
pub const LARGEST_FIELD: u64 = 0xffff_ffff;

/// What the line of an item has beside its key.
#[derive(Clone, Copy)]
pub struct Item {
    pub flags: u32,
    pub negative: bool,
    pub exptime: u64,
    /// The bytes of its block.
    pub bytes: u64,
}

/// The bytes of the nth word, none if there is none.
pub fn word_bytes(line: &[u8], nth: usize) -> &[u8]
    ensures { result.now ≡ arg (words line.now) nth }
{
    let span = word(line, nth);
    &line[span.from..span.to]
}

fn is_key_byte(b: u8) -> bool
    ensures { result ≡ is_key_byte b }
{
    !(b == 0 || b == b'\n' || b == b'\r' || b == b' ')
}

fn all_key_bytes(word: &[u8]) -> bool
    ensures { result ≡ list_all is_key_byte word.now }
{
    for b in word {
        if !is_key_byte(*b) {
            return false;
        }
    }
    true
}

pub fn is_key(word: &[u8]) -> bool
    ensures { result ≡ is_key word.now }
{
    0 < word.len() && word.len() <= LONGEST_KEY && all_key_bytes(word)
}

/// Whether an exptime is negative, and its number.
pub fn exptime_of(word: &[u8]) -> Option<(bool, u64)>
    ensures { result ≡ exptime_of word.now }
{
    if word.is_empty() {
        return None;
    }
    if word[0] == b'-' {
        let n = number_upto(LARGEST_EXPTIME, &word[1..])?;
        Some((n != 0, n))
    } else {
        let n = number_upto(LARGEST_EXPTIME, word)?;
        Some((false, n))
    }
}

/// The item that a key, flags, an exptime and a size spell, if each has its form.
#[tactic(auto, unfolding(crate::specs::Fields::item_of))]
pub fn item_of(key: &[u8], flags: &[u8], exptime: &[u8], bytes: &[u8]) -> Option<Item>
    ensures item { result ≡ item_of key.now flags.now exptime.now bytes.now }
    ensures few { IfSome result (λ i. i.bytes < 2 ^ 32) }
{
    if !is_key(key) {
        return None;
    }
    let flags = number_upto(LARGEST_FIELD, flags)?;
    let (negative, exptime) = exptime_of(exptime)?;
    let bytes = number_upto(LARGEST_FIELD, bytes)?;
    Some(Item {
        flags: flags as u32,
        negative,
        exptime,
        bytes,
    })
}

/// Whether a word asks for no reply.
pub fn is_noreply(word: &[u8]) -> bool
    ensures { result ≡ is_noreply word.now }
{
    is(word, b"noreply")
}

/// Whether a line has `n` words, or one more that is `noreply`.
pub fn has_words(line: &[u8], n: usize) -> bool
    requires { n < 16 }
    ensures { result ≡ has_words (words line.now) n }
{
    let all = count(line);
    all == n || (all == n + 1 && is_noreply(word_bytes(line, n)))
}

/// How many words there are at a place or after it, if all of them are keys.
#[tactic(auto, using(crate::proofs::KeyLaws::key_steps))]
pub fn keys_at(line: &[u8], from: usize) -> Option<usize>
    requires { from ≤ length line.now }
    ensures { result ≡ keys_in (words (drop from line.now)) }
{
    let rest = &line[from..];
    let mut seen = 0;
    // How many bytes the word has so far, if one has begun.
    let mut long = 0;
    for b in rest {
        if *b == b' ' {
            if 0 < long {
                seen += 1;
            }
            long = 0;
        } else if long < LONGEST_KEY && is_key_byte(*b) {
            long += 1;
        } else {
            return None;
        }
    }
    Some(if 0 < long { seen + 1 } else { seen })
}
