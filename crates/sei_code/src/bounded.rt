//! Lists whose room is fixed when they are made.
ghost use Rattle.std.specs.Prelude.{◌≡◌, ◌↔◌, false, ◌<◌, ◌≤◌, ◌+◌, ◌-◌, ◌^◌, IfOk, IfSome, length, slice_get, nat_lt, nat_le};
ghost use Rattle.std.specs.Bool.{OnTrue, OnFalse};
ghost use Rattle.sei_code.specs.Kept.{Kept, has_room, offered, replaced, extended, empty_kept, emptied};

use super::Memory;
use std::alloc::Global;
use std::marker::Model;

/// A list of items that never grows past its room. Its value is its items and its room.
#[derive(Drop)]
pub struct Bounded<T> {
    /// As many cells as there is room for. The first `len` of them hold the items.
    cells: Vec<T>,
    len: usize,
}

impl<T> Model for Bounded<T> {
    ghost use Rattle.std.specs.Prelude.{◌≤◌, length, take};
    ghost use Rattle.sei_code.specs.Kept.{Kept};

    ghost Value = { Kept T };

    ghost view = { λ b. record { items = take b.len b.cells.items; room = length b.cells.items } };

    ghost invariant = { λ b. b.len ≤ length b.cells.items };
}

impl<T: Copy + Drop> Bounded<T> {
    /// An empty list with room for `room` items. `filler` fills the cells that hold no item.
    pub fn new(alloc: Global, room: usize, filler: T) -> Result<Bounded<T>, Memory>
        ensures { IfOk result (λ list. list ≡ empty_kept T room) }
    {
        Ok(Bounded {
            cells: vec![in alloc; filler; room]?,
            len: 0,
        })
    }

    /// Whether one more item fits.
    pub fn has_room(&self) -> bool
        ensures answer { result ≡ has_room self.now }
        ensures within { length self.now.items ≤ self.now.room }
    {
        self.len < self.cells.len()
    }

    /// How many items there are.
    pub fn len(&self) -> usize
        ensures { result ≡ length self.now.items }
    {
        self.len
    }

    /// How many more items fit.
    pub fn spare(&self) -> usize
        ensures value { result ≡ self.now.room - length self.now.items }
        ensures within { length self.now.items ≤ self.now.room }
    {
        self.cells.len() - self.len
    }

    /// The items, in the order in which they came.
    pub fn items(&self) -> &[T]
        ensures { result.now ≡ self.now.items }
    {
        &self.cells[..self.len]
    }

    /// The item at `i`, counted from 0, or `None` if there are no more than `i` items.
    pub fn get(&self, i: usize) -> Option<T>
        ensures found { result ≡ slice_get self.now.items i }
        ensures below { IfSome result (λ _. i < 2 ^ 64 - 1) }
    {
        if i < self.len {
            Some(self.cells[i])
        } else {
            None
        }
    }

    /// Appends the item. False exactly if the list is full; then nothing has changed.
    pub fn push(&mut self, x: T) -> bool
        ensures answer { result ≡ has_room self.old }
        ensures full { result ≡ false ↔ length self.old.items ≡ self.old.room }
        ensures list { self.new ≡ offered self.old x }
    {
        if self.len < self.cells.len() {
            self.cells[self.len] = x;
            self.len += 1;
            true
        } else {
            false
        }
    }

    /// Puts another item in the place of the one at `i`. False if there is none; then nothing has
    /// changed.
    pub fn set(&mut self, i: usize, x: T) -> bool
        ensures there { result ≡ nat_lt i (length self.old.items) }
        ensures done { OnTrue result (self.new ≡ replaced self.old i x) }
        ensures not_there { OnFalse result (self.new ≡ self.old) }
    {
        let there = i < self.len;
        if there {
            self.cells[i] = x;
        }
        there
    }

    /// Appends all the items, in their order. False if there is no room for all of them; then
    /// nothing has changed.
    pub fn extend_from_slice(&mut self, items: &[T]) -> bool
        ensures answer { result ≡ nat_le (length self.old.items + length items.now) self.old.room }
        ensures done { OnTrue result (self.new ≡ extended self.old items.now) }
        ensures full { OnFalse result (self.new ≡ self.old) }
    {
        if items.len() > self.spare() {
            return false;
        }
        let end = self.len + items.len();
        self.cells[self.len..end].copy_from_slice(items);
        self.len = end;
        true
    }

    /// Removes all items, and keeps the room.
    pub fn clear(&mut self)
        ensures { self.new ≡ emptied self.old }
    {
        self.len = 0;
    }

    /// The items, in the memory of the list.
    pub fn into_vec(self) -> Vec<T>
        ensures { result.items ≡ self.items }
    {
        let len = self.len;
        let mut cells = self.cells;
        cells.truncate(len);
        cells
    }
}
