//! Handlers: a table of statements, with the reading of inputs and the making of outputs.
ghost use Rattle.std.specs.Prelude.{◌≡◌, ℕ, ◌≤◌, List, Option, length};
ghost use Rattle.sei_stmt.specs.Handling.{Behavior, parsed_words, parsed_bucket, refilled, rendered_as, rendered_bytes};
ghost use Rattle.sei_stmt.specs.Passes.{Space};

use crate::table::Table;
use sei_code::{Buffer, Rendered, WordList};

/// A service by a table of statements, with the reading of its inputs and the making of its
/// outputs.
pub trait Handler {
    /// What the handler does with its inputs and outputs.
    ghost behavior: { Self → Behavior };

    /// How many calls the input has, or `None` exactly if it is not one whole request.
    fn calls(&self, input: &[u8]) -> Option<u64>
        ensures { result ≡ (behavior self.now).calls input.now };

    /// The bucket of call number `nth`, or `None` exactly if the input has no such call.
    fn bucket(&self, input: &[u8], nth: u64) -> Option<u64>
        ensures { result ≡ parsed_bucket ((behavior self.now).parsed input.now nth) };

    /// Fills `into`, which is emptied first, with the input words of call number `nth`. Answers the
    /// bucket of the call, or `None` exactly if the input has no such call.
    fn parse(&self, input: &[u8], nth: u64, into: &mut WordList) -> Option<u64>
        requires room { length (parsed_words ((behavior self.now).parsed input.now nth)) ≤ into.old.room }
        ensures answer { result ≡ parsed_bucket ((behavior self.now).parsed input.now nth) }
        ensures filled { into.new ≡ refilled into.old (parsed_words ((behavior self.now).parsed input.now nth)) };

    /// The table. Each pass runs it from its first statement.
    fn table(&self) -> &Table
        ensures { result.now ≡ (behavior self.now).statements };

    /// Makes the bytes that the output words stand for. `into` is emptied first, and stays empty if
    /// the words are malformed or the bytes do not fit.
    fn render(&self, words: &[u64], into: &mut Buffer) -> Rendered
        ensures answer { result ≡ rendered_as ((behavior self.now).rendered words.now) into.old.room }
        ensures filled { into.new ≡ refilled into.old (rendered_bytes ((behavior self.now).rendered words.now) into.old.room) };
}

/// A handler with a model: the words of a bucket stand for a state, and a call changes a state as
/// the answer does. The trait does not promise that; `IsSoundHandler` says it.
pub trait Modeled: Handler {
    /// The states of the model.
    ghost State: { Type 0 };

    /// On which words a run starts for which states. A handler may ask more of them than of the words
    /// that its runs leave.
    ghost begins: { Self → List ℕ → State → Type 0 };

    /// Which words stand for which states.
    ghost stands: { Self → List ℕ → State → Type 0 };

    /// The rooms, the budget and the free slots of each pass of a call of an input, by the call's
    /// number.
    ghost space: { Self → List ℕ → ℕ → Space };

    /// The answer to a call of an input, by its number, in a state at a time: the state after it,
    /// and its reply.
    ghost answer: { Self → List ℕ → ℕ → State → ℕ → State × List ℕ };
}
