//! Bytes that are packed into words.
ghost use Rattle.std.specs.Prelude.{◌≡◌, length};
ghost use Rattle.mc_render.specs.Puts.{Puts};
ghost use Rattle.std.specs.Option.{option_map};
ghost use Rattle.mc_render.specs.Outputs.{first_bytes};

use crate::put::{NoRoom, put};
use sei_code::Buffer;
use std::marker::Model;

/// Bytes packed eight to a word, the first one the most significant. The rest of the last word is
/// ignored.
#[derive(Drop)]
pub struct Packed<'a> {
    words: &'a [u64],
    /// How many bytes.
    count: usize,
}

impl<'a> Model for Packed<'a> {
    ghost use Rattle.std.specs.Prelude.{List, ℕ, ◌*◌, ◌≤◌, length};
    ghost use Rattle.mc_model.specs.Packed.{unpacked};

    ghost Value = { List ℕ };

    ghost view = { λ p. unpacked p.count p.words.now };

    ghost invariant = { λ p. p.count ≤ 8 * length p.words.now };
}

impl<'a> Packed<'a> {
    /// How many bytes there are.
    #[tactic(auto, using(crate::proofs::PackedLaws::length_unpacked))]
    pub fn len(&self) -> usize
        ensures { result ≡ length self.now }
    {
        self.count
    }
}

/// The first `length` bytes that are packed into the words, and the words after them. None if there
/// are too few words.
#[tactic(auto, using(crate::proofs::PackedLaws::unpacked_front))]
pub fn first_bytes(words: &[u64], length: usize) -> Option<(Packed<'_>, &[u64])>
    ensures { option_map (λ p. (p.0, p.1.now)) result ≡ first_bytes length words.now }
{
    let taken = length.div_ceil(8);
    if taken > words.len() {
        return None;
    }
    let (front, rest) = words.split_at(taken);
    Some((
        Packed {
            words: front,
            count: length,
        },
        rest,
    ))
}

/// Appends the bytes to the buffer.
pub fn put_packed(into: &mut Buffer, packed: &Packed<'_>) -> Result<(), NoRoom>
    ensures { Puts into.old into.new packed.now result }
{
    let mut left = packed.count;
    for word in packed.words {
        let count = left.min(8);
        put(into, &word.to_be_bytes()[..count])?;
        left -= count;
    }
    Ok(())
}
