//! How long a line, a key and a block may be, and the limits of a server.

/// The bytes of a line with its LF.
pub const LONGEST_LINE: usize = 65_536;

/// The bytes of a key.
pub const LONGEST_KEY: usize = 250;

/// The bytes of a block without its CR LF. A larger one is refused before it is read.
pub const LONGEST_BLOCK: u64 = 1_048_576;

/// What a server offers: the number of its buckets, at least one, and the most bytes of a value.
#[derive(Clone, Copy, Debug, PartialEq, Eq)]
pub struct Limits {
    pub buckets: u64,
    pub value_bytes: u64,
}
