//! The words of a line.
ghost use Rattle.std.specs.Prelude.{◌≡◌, ◌==◌};
ghost use Rattle.std.specs.List.{position};
ghost use Rattle.std.specs.Option.{option_map};
ghost use Rattle.sei_script.specs.Lines.{word_of, behind_word, first_number, first_exact, last_exact, part, IsCapped};

use super::numbers::{exact_number, number};
use memchr::memchr;

/// Where the byte first stands.
#[tactic(auto, using(crate::proofs::Cuts::position_found))]
pub fn find(text: &[u8], byte: u8) -> Option<usize>
    ensures { result ≡ position (λ b. b == byte) text.now }
{
    memchr(byte, text)
}

/// The word before the first space.
pub fn word_of(text: &[u8]) -> &[u8]
    ensures { result.now ≡ word_of text.now }
{
    match find(text, b' ') {
        None => text,
        Some(i) => &text[..i],
    }
}

/// What stands after the first space.
pub fn behind_word(text: &[u8]) -> Option<&[u8]>
    ensures { option_map (λ x. x.now) result ≡ behind_word text.now }
{
    match find(text, b' ') {
        None => None,
        Some(i) => Some(&text[i + 1..]),
    }
}

/// The number that a text begins with, at most the last u64, and what stands after the space after it.
#[derive(Clone, Copy)]
pub struct Numbered<'a> {
    pub number: u64,
    pub rest: Option<&'a [u8]>,
}

pub fn first_number(text: Option<&[u8]>) -> Option<Numbered<'_>>
    ensures { IsCapped (option_map (λ n. part n.number (option_map (λ x. x.now) n.rest)) result) (first_number (option_map (λ x. x.now) text.entry)) }
{
    let text = text?;
    Some(Numbered {
        number: number(word_of(text))?,
        rest: behind_word(text),
    })
}

/// The same of a number that is a u64.
pub fn first_exact(text: Option<&[u8]>) -> Option<Numbered<'_>>
    ensures { option_map (λ n. part n.number (option_map (λ x. x.now) n.rest)) result ≡ first_exact (option_map (λ x. x.now) text.entry) }
{
    let text = text?;
    Some(Numbered {
        number: exact_number(word_of(text))?,
        rest: behind_word(text),
    })
}

/// The number that a whole text spells, if it is a u64.
pub fn last_exact(text: Option<&[u8]>) -> Option<u64>
    ensures { result ≡ last_exact (option_map (λ x. x.now) text.entry) }
{
    exact_number(text?)
}
