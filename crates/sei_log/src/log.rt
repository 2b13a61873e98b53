//! The log of the words that a pass changed.
ghost use Rattle.std.specs.Prelude.{◌≡◌, ◌↔◌, false, ◌<◌, ◌≤◌, ◌-◌, ◌^◌, IfOk, IfSome, length, slice_get};
ghost use Rattle.sei_code.specs.Kept.{Kept, has_room, offered, empty_kept, emptied};
ghost use Rattle.sei_log.specs.declared.log.Change.{Change};

use sei_code::{Bounded, Memory};
use std::alloc::Global;
use std::marker::Model;

/// One word that was changed.
#[derive(Clone, Copy, Debug, PartialEq, Eq)]
pub struct Change {
    /// The address of the word.
    pub address: u64,
    /// The word before the change.
    pub was: u64,
    /// The word after it.
    pub becomes: u64,
}

/// The entry in the cells that hold no change.
const BLANK: Change = Change {
    address: 0,
    was: 0,
    becomes: 0,
};

/// The changes of one pass, in their order. Its value is its changes and its room.
#[derive(Drop)]
pub struct WriteLog {
    changes: Bounded<Change>,
}

impl Model for WriteLog {
    ghost use Rattle.sei_code.specs.Kept.{Kept};
    ghost use Rattle.sei_log.specs.declared.log.Change.{Change};

    ghost Value = { Kept Change };

    ghost view = { λ log. log.changes };
}

impl WriteLog {
    /// An empty log with room for `room` changes.
    pub fn new(alloc: Global, room: usize) -> Result<WriteLog, Memory>
        ensures { IfOk result (λ log. log ≡ empty_kept Change room) }
    {
        Ok(WriteLog {
            changes: Bounded::new(alloc, room, BLANK)?,
        })
    }

    /// Whether one more change fits.
    pub fn has_room(&self) -> bool
        ensures answer { result ≡ has_room self.now }
        ensures within { length self.now.items ≤ self.now.room }
    {
        self.changes.has_room()
    }

    /// Appends the change. False exactly if the log is full; then nothing has changed.
    pub fn push(&mut self, c: Change) -> bool
        ensures answer { result ≡ has_room self.old }
        ensures full { result ≡ false ↔ length self.old.items ≡ self.old.room }
        ensures list { self.new ≡ offered self.old c }
    {
        self.changes.push(c)
    }

    /// The change at `i`, counted from 0, or `None` if there are no more than `i` changes.
    pub fn get(&self, i: u64) -> Option<Change>
        ensures found { result ≡ slice_get self.now.items i }
        ensures below { IfSome result (λ _. i < 2 ^ 64 - 1) }
    {
        self.changes.get(i as usize)
    }

    /// How many changes there are.
    pub fn len(&self) -> u64
        ensures { result ≡ length self.now.items }
    {
        self.changes.len() as u64
    }

    /// Removes all changes, and keeps the room.
    pub fn clear(&mut self)
        ensures { self.new ≡ emptied self.old }
    {
        self.changes.clear();
    }
}
