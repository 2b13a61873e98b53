//! The registers, by name. Those from 24 to 27 are free for a command's own use.

/// Holds 0. The registers 0 to 5 are constants, which are set once, with the moment.
pub const ZERO: u8 = 0;

/// The moment of the bucket.
pub const MOMENT: u8 = 1;

/// Holds 1.
pub const ONE: u8 = 2;

/// Where in a slot its expiry is.
pub const EXPIRY_OFFSET: u8 = 3;

/// The number of words of a slot.
pub const WIDTH: u8 = 4;

/// The address after the last slot.
pub const END: u8 = 5;

/// The length of the call's key in bytes. The registers 6 to 8 are loaded by the find.
pub const KEY_LENGTH: u8 = 6;

/// The hash of the call's key.
pub const HASH: u8 = 7;

/// The number of words of the call's key.
pub const KEY_WORDS: u8 = 8;

/// The address at which the slot begins that was found or given, or the address after the last slot if there is none.
pub const PLACE: u8 = 10;

/// The address at which the slot begins that the find looks at.
pub const BASE: u8 = 11;

/// An address. The registers 12 to 17 are each program's scratch registers.
pub const ADDRESS: u8 = 12;

/// A word.
pub const WORD: u8 = 13;

/// The index of an input word.
pub const INDEX: u8 = 14;

/// A second word.
pub const OTHER: u8 = 15;

/// The end of a run of words: an address, or the index of an input word.
pub const LIMIT: u8 = 16;

/// How many bytes of a value are done.
pub const PASSED: u8 = 17;

/// The flags of an item.
pub const FLAGS: u8 = 18;

/// Its expiry.
pub const EXPIRY: u8 = 19;

/// Its cas unique.
pub const UNIQUE: u8 = 20;

/// The length of its value in bytes.
pub const VALUE_LENGTH: u8 = 21;

/// The number of words of the value that is to be stored.
pub const VALUE_WORDS: u8 = 22;

/// The slot that Alloc gave.
pub const SLOT: u8 = 23;

/// The command of the call.
pub const VERB: u8 = 24;

/// The mark that the call is its request's last.
pub const LAST: u8 = 25;

/// The mark that no reply is wanted.
pub const NOREPLY: u8 = 26;

/// The number of a command or of a text.
pub const NUMBER: u8 = 27;

/// How many bytes a word holds.
pub const EIGHT: u8 = 28;
