//! The indexes of the input words of a call.

/// The number of the command.
pub const VERB: u64 = 0;

/// The length of the key in bytes.
pub const KEY_LENGTH: u64 = 1;

/// The hash of the key.
pub const HASH: u64 = 2;

/// The flags.
pub const FLAGS: u64 = 3;

/// 1 if the exptime is negative, else 0.
pub const NEGATIVE: u64 = 4;

/// The absolute value of the exptime.
pub const EXPTIME: u64 = 5;

/// The cas unique of the call.
pub const UNIQUE: u64 = 6;

/// The number that is added or taken away.
pub const VALUE: u64 = 7;

/// The length of the block in bytes.
pub const BLOCK_LENGTH: u64 = 8;

/// 1 if the call is the last one of its request, else 0.
pub const LAST: u64 = 9;

/// 1 if no reply is wanted, else 0.
pub const NOREPLY: u64 = 10;

/// The number of a fixed text.
pub const TEXT: u64 = 11;

/// The number of words of the key.
pub const KEY_WORDS: u64 = 12;

/// The number of words of the block.
pub const BLOCK_WORDS: u64 = 13;

/// The first word of the key, of which there is room for 32.
pub const KEY: u64 = 14;

/// The first word of the block.
pub const BLOCK: u64 = 46;
