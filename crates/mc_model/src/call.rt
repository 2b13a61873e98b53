//! Calls, whose keys and blocks are places in the text that they were read from.

use std::marker::Model;

/// The commands of a call, numbered from 0 in this order.
///
/// `Flush` is `flush_all` on one bucket. `Fixed` answers a text of the table of texts and does
/// nothing else.
#[derive(Clone, Copy, Debug, PartialEq, Eq)]
pub enum Verb {
    Set,
    Add,
    Replace,
    Append,
    Prepend,
    Cas,
    Get,
    Gets,
    Gat,
    Gats,
    Touch,
    Delete,
    Incr,
    Decr,
    Flush,
    Fixed,
}

/// The bytes of a text from `from` up to, and without, `to`.
#[derive(Clone, Copy, Debug, PartialEq, Eq)]
pub struct Span {
    pub from: usize,
    pub to: usize,
}

/// A call, whose key and block are spans of the text that it was read from.
///
/// Fields that the command does not have are 0, false or empty.
#[derive(Clone, Copy, Debug, PartialEq, Eq)]
pub struct CallSpan {
    pub verb: Verb,
    pub key: Span,
    /// FNV-1a of the key, of 64 bits.
    pub hash: u64,
    pub bucket: u64,
    pub flags: u32,
    /// Whether `exptime` has a minus sign.
    pub negative: bool,
    /// In seconds, without its sign: up to 30 days from now, or a second since the start of 1970.
    pub exptime: u64,
    /// The cas unique that `cas` compares.
    pub unique: u64,
    /// By how much `incr` and `decr` count.
    pub value: u64,
    pub block: Span,
    /// Whether this is the last call of its request.
    pub last: bool,
    pub noreply: bool,
    /// The number of a `Fixed` call's text.
    pub text: u8,
}

/// The most items of a bucket, and the most bytes of a value.
#[derive(Clone, Copy, Debug, PartialEq, Eq)]
pub struct Room {
    pub slots: u64,
    pub value_bytes: u64,
}

/// A call with its key and its block.
#[derive(Drop)]
pub struct KeyedCall<'a> {
    pub fields: &'a CallSpan,
    pub key: &'a [u8],
    pub block: &'a [u8],
}

impl<'a> Model for KeyedCall<'a> {
    ghost use Rattle.mc_model.specs.Call.{Call};

    ghost Value = { Call };

    ghost use Rattle.mc_model.specs.Views.{call_with};

    ghost view = { λ c. call_with c.key.now c.block.now c.fields.now };
}
