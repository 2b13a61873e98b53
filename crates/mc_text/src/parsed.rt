//! A line that was read: which of its words are keys, and what its calls have in common.

ghost use Rattle.std.specs.Prelude.{◌≡◌};
ghost use Rattle.mc_text.specs.Parsed.{no_span, blank_span};

use mc_model::{CallSpan, Span, Verb};

/// Which calls a request has.
#[derive(Clone, Copy, Debug, PartialEq, Eq)]
pub enum Kind {
    /// None: it ends the connection.
    Quit,
    /// One call without a key. `closing`: the connection is closed after it.
    One { closing: bool },
    /// One call for each key.
    Each,
    /// One call for each bucket.
    Everywhere,
}

/// A request as its line has it: which of the line's words are its keys, and what its calls have
/// in common. The places in `call` are empty.
#[derive(Clone, Copy)]
pub struct Template {
    pub kind: Kind,
    pub call: CallSpan,
    /// The number of the word that is the first key.
    pub first: usize,
    /// How many keys there are.
    pub count: usize,
}

/// What a line asks for.
#[derive(Clone, Copy)]
pub enum ParsedLine {
    /// A request that ends with the line.
    Ends(Template),
    /// A request whose block of this many bytes, and CR LF, follow.
    Wants(Template, usize),
}

/// A span of no bytes.
pub fn no_span() -> Span
    ensures { result ≡ no_span }
{
    Span { from: 0, to: 0 }
}

/// A call with nothing but its command.
pub fn blank(verb: Verb) -> CallSpan
    ensures { result ≡ blank_span verb }
{
    CallSpan {
        verb,
        key: no_span(),
        hash: 0,
        bucket: 0,
        flags: 0,
        negative: false,
        exptime: 0,
        unique: 0,
        value: 0,
        block: no_span(),
        last: true,
        noreply: false,
        text: 0,
    }
}
