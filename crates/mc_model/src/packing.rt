//! Bytes as words of 64 bits.
ghost use Rattle.std.specs.Prelude.{◌≡◌, ◌<◌, ◌+◌, length, nat_le};
ghost use Rattle.std.specs.Bool.{OnTrue, OnFalse};
ghost use Rattle.sei_code.specs.Kept.{extended};
ghost use Rattle.mc_model.specs.Packed.{words_for, word_of, pack};

use sei_code::WordList;

/// Eight bytes from `8 * j` on as a word, with zero bytes after the last.
fn word_at(bytes: &[u8], j: usize) -> u64
    requires { j < words_for (length bytes.now) }
    ensures { result ≡ word_of bytes.now j }
{
    let rest = &bytes[8 * j..];
    let count = rest.len().min(8);
    let mut word = [0; 8];
    word[..count].copy_from_slice(&rest[..count]);
    u64::from_be_bytes(word)
}

/// Packs the bytes eight to a word, and appends the words to the list. The first byte is the most
/// significant, and the last word is filled up with zero bytes. False if there is no room for all
/// of the words; then nothing has changed.
pub fn pack(bytes: &[u8], into: &mut WordList) -> bool
    ensures answer { result ≡ nat_le (length into.old.items + words_for (length bytes.now)) into.old.room }
    ensures done { OnTrue result (into.new ≡ extended into.old (pack bytes.now)) }
    ensures full { OnFalse result (into.new ≡ into.old) }
{
    let words = bytes.len().div_ceil(8);
    if words > into.spare() {
        return false;
    }
    for j in 0..words {
        into.push(word_at(bytes, j));
    }
    true
}
