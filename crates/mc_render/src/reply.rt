//! The bytes of a reply from output words.
ghost use Rattle.std.specs.Prelude.{◌≡◌};
ghost use Rattle.std.specs.Option.{is_some};
ghost use Rattle.mc_render.specs.Rendering.{rendered, answer_of, bytes_of};

use crate::put::NoRoom;
use crate::reader::first_output;
use crate::writer::put_output;
use sei_code::{Buffer, Rendered};

/// Whether the words are outputs to their end.
#[tactic(auto, using(crate::proofs::RenderedLaws::shorter, crate::proofs::RenderedLaws::rendered_none))]
fn are_outputs(words: &[u64], value_bytes: u64) -> bool
    ensures { result ≡ is_some (rendered value_bytes words.now) }
{
    let mut rest = words;
    while !rest.is_empty() {
        let Some((_, behind)) = first_output(rest, value_bytes) else {
            return false;
        };
        rest = behind;
    }
    true
}

/// Fills the buffer, from its beginning, with the bytes that the output words stand for.
///
/// The words are a list of outputs:
///
/// - `0, number`: the line of a fixed text.
/// - `1, with cas (0 or 1), key length, flags, value length, cas unique`, then the words of the key
///   and the words of the value: an item. Bytes are packed eight to a word, the first one the most
///   significant.
/// - `2, number`: a number on its line, in decimal digits.
///
/// Bad if the words are no such list to their end. So it is if a text number is not in the table, a
/// key has 0 bytes or more than 250, or a value has more than `value_bytes`. Full if they are one,
/// and the buffer has less room than there are bytes. After both the buffer is empty.
#[tactic(auto, using(crate::proofs::RenderedLaws::shorter))]
pub fn render(words: &[u64], value_bytes: u64, into: &mut Buffer) -> Rendered
    ensures answer { result ≡ answer_of into.old.room (rendered value_bytes words.now) }
    ensures bytes { into.new.items ≡ bytes_of into.old.room (rendered value_bytes words.now) }
    ensures room { into.new.room ≡ into.old.room }
{
    into.clear();
    let mut rest = words;
    while !rest.is_empty() {
        let Some((output, behind)) = first_output(rest, value_bytes) else {
            into.clear();
            return Rendered::Bad;
        };
        match put_output(into, &output) {
            Ok(()) => rest = behind,
            Err(NoRoom) => {
                into.clear();
                return if are_outputs(behind, value_bytes) {
                    Rendered::Full
                } else {
                    Rendered::Bad
                };
            }
        }
    }
    Rendered::Done
}
