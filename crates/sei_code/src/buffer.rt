//! Lists of bytes and of words, whose room is fixed when they are made.
ghost use Rattle.std.specs.Prelude.{◌≡◌, ◌↔◌, false, ◌<◌, ◌≤◌, ◌+◌, ◌-◌, ◌^◌, ℕ, IfOk, IfSome, length, slice_get, nat_lt, nat_le};
ghost use Rattle.std.specs.Bool.{OnTrue, OnFalse};
ghost use Rattle.sei_code.specs.Kept.{Kept, has_room, offered, replaced, extended, empty_kept, emptied};

use super::Memory;
use super::bounded::Bounded;
use std::alloc::Global;
use std::marker::Model;

/// A buffer of bytes. Its value is its bytes and its room.
#[derive(Drop)]
pub struct Buffer {
    list: Bounded<u8>,
}

impl Model for Buffer {
    ghost use Rattle.std.specs.Prelude.{ℕ};
    ghost use Rattle.sei_code.specs.Kept.{Kept};

    ghost Value = { Kept ℕ };

    ghost view = { λ b. b.list };
}

impl Buffer {
    /// An empty buffer with room for `room` bytes.
    pub fn new(alloc: Global, room: usize) -> Result<Buffer, Memory>
        ensures { IfOk result (λ made. made ≡ empty_kept ℕ room) }
    {
        Ok(Buffer {
            list: Bounded::new(alloc, room, 0)?,
        })
    }

    /// Whether one more byte fits.
    pub fn has_room(&self) -> bool
        ensures answer { result ≡ has_room self.now }
        ensures within { length self.now.items ≤ self.now.room }
    {
        self.list.has_room()
    }

    /// How many bytes there are.
    pub fn len(&self) -> usize
        ensures { result ≡ length self.now.items }
    {
        self.list.len()
    }

    /// How many more bytes fit.
    pub fn spare(&self) -> usize
        ensures value { result ≡ self.now.room - length self.now.items }
        ensures within { length self.now.items ≤ self.now.room }
    {
        self.list.spare()
    }

    /// The byte at `i`, counted from 0, or `None` if there are no more than `i` bytes.
    pub fn get(&self, i: usize) -> Option<u8>
        ensures found { result ≡ slice_get self.now.items i }
        ensures below { IfSome result (λ _. i < 2 ^ 64 - 1) }
    {
        self.list.get(i)
    }

    /// Appends the byte. False exactly if the buffer is full; then nothing has changed.
    pub fn push(&mut self, b: u8) -> bool
        ensures answer { result ≡ has_room self.old }
        ensures full { result ≡ false ↔ length self.old.items ≡ self.old.room }
        ensures list { self.new ≡ offered self.old b }
    {
        self.list.push(b)
    }

    /// Puts another byte in the place of the one at `i`. False if there is none; then nothing has
    /// changed.
    pub fn set(&mut self, i: usize, b: u8) -> bool
        ensures there { result ≡ nat_lt i (length self.old.items) }
        ensures done { OnTrue result (self.new ≡ replaced self.old i b) }
        ensures not_there { OnFalse result (self.new ≡ self.old) }
    {
        self.list.set(i, b)
    }

    /// Appends all the bytes, in their order. False if there is no room for all of them; then
    /// nothing has changed.
    pub fn extend_from_slice(&mut self, bytes: &[u8]) -> bool
        ensures answer { result ≡ nat_le (length self.old.items + length bytes.now) self.old.room }
        ensures done { OnTrue result (self.new ≡ extended self.old bytes.now) }
        ensures full { OnFalse result (self.new ≡ self.old) }
    {
        self.list.extend_from_slice(bytes)
    }

    /// The bytes, in the order in which they came.
    pub fn bytes(&self) -> &[u8]
        ensures { result.now ≡ self.now.items }
    {
        self.list.items()
    }

    /// Removes all bytes, and keeps the room.
    pub fn clear(&mut self)
        ensures { self.new ≡ emptied self.old }
    {
        self.list.clear();
    }

    /// The bytes, in the memory of the buffer.
    pub fn into_vec(self) -> Vec<u8>
        ensures { result.items ≡ self.items }
    {
        self.list.into_vec()
    }
}

/// A list of words. Its value is its words and its room.
#[derive(Drop)]
pub struct WordList {
    list: Bounded<u64>,
}

impl Model for WordList {
    ghost use Rattle.std.specs.Prelude.{ℕ};
    ghost use Rattle.sei_code.specs.Kept.{Kept};

    ghost Value = { Kept ℕ };

    ghost view = { λ b. b.list };
}

impl WordList {
    /// An empty list with room for `room` words.
    pub fn new(alloc: Global, room: usize) -> Result<WordList, Memory>
        ensures { IfOk result (λ made. made ≡ empty_kept ℕ room) }
    {
        Ok(WordList {
            list: Bounded::new(alloc, room, 0)?,
        })
    }

    /// Whether one more word fits.
    pub fn has_room(&self) -> bool
        ensures answer { result ≡ has_room self.now }
        ensures within { length self.now.items ≤ self.now.room }
    {
        self.list.has_room()
    }

    /// How many words there are.
    pub fn len(&self) -> usize
        ensures { result ≡ length self.now.items }
    {
        self.list.len()
    }

    /// How many more words fit.
    pub fn spare(&self) -> usize
        ensures value { result ≡ self.now.room - length self.now.items }
        ensures within { length self.now.items ≤ self.now.room }
    {
        self.list.spare()
    }

    /// The word at `i`, counted from 0, or `None` if there are no more than `i` words.
    pub fn get(&self, i: usize) -> Option<u64>
        ensures found { result ≡ slice_get self.now.items i }
        ensures below { IfSome result (λ _. i < 2 ^ 64 - 1) }
    {
        self.list.get(i)
    }

    /// Appends the word. False exactly if the list is full; then nothing has changed.
    pub fn push(&mut self, w: u64) -> bool
        ensures answer { result ≡ has_room self.old }
        ensures full { result ≡ false ↔ length self.old.items ≡ self.old.room }
        ensures list { self.new ≡ offered self.old w }
    {
        self.list.push(w)
    }

    /// Puts another word in the place of the one at `i`. False if there is none; then nothing has
    /// changed.
    pub fn set(&mut self, i: usize, w: u64) -> bool
        ensures there { result ≡ nat_lt i (length self.old.items) }
        ensures done { OnTrue result (self.new ≡ replaced self.old i w) }
        ensures not_there { OnFalse result (self.new ≡ self.old) }
    {
        self.list.set(i, w)
    }

    /// Appends all the words, in their order. False if there is no room for all of them; then
    /// nothing has changed.
    pub fn extend_from_slice(&mut self, words: &[u64]) -> bool
        ensures answer { result ≡ nat_le (length self.old.items + length words.now) self.old.room }
        ensures done { OnTrue result (self.new ≡ extended self.old words.now) }
        ensures full { OnFalse result (self.new ≡ self.old) }
    {
        self.list.extend_from_slice(words)
    }

    /// The words, in the order in which they came.
    pub fn words(&self) -> &[u64]
        ensures { result.now ≡ self.now.items }
    {
        self.list.items()
    }

    /// Removes all words, and keeps the room.
    pub fn clear(&mut self)
        ensures { self.new ≡ emptied self.old }
    {
        self.list.clear();
    }
}
