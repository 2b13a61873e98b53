//! Modes and outcomes that several crates name.

/// How the replies of a connection are sent.
#[derive(Clone, Copy, Debug, PartialEq, Eq)]
pub enum Mode {
    /// As their bytes alone.
    Plain,
    /// Each in a frame that holds its message code.
    Coded,
}

/// The outcome of making output bytes from words.
#[derive(Clone, Copy, Debug, PartialEq, Eq)]
pub enum Rendered {
    /// All bytes were made.
    Done,
    /// The output buffer was too small.
    Full,
    /// The words are not of their form.
    Bad,
}
