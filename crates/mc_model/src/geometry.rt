//! How many buckets, slots and value words a server has.

ghost use Rattle.std.specs.Prelude.{◌≡◌, ◌↔◌, IsTrue};

use crate::call::Room;

/// The size of a server: its buckets, the slots (items) of each, and the value words (of eight
/// bytes) of an item.
#[derive(Clone, Copy, Debug, PartialEq, Eq)]
pub struct Geometry {
    pub buckets: u64,
    pub slots: u64,
    pub value_words: u64,
}

impl Geometry {
    ghost use Rattle.mc_model.specs.Server.{IsValid, room_of};

    /// 1 to 64 buckets, 1 to 1,024 slots, 3 to 1,024 value words.
    pub fn is_valid(&self) -> bool
        ensures { IsTrue result ↔ IsValid self.now }
    {
        (1..=64).contains(&self.buckets)
            && (1..=1024).contains(&self.slots)
            && (3..=1024).contains(&self.value_words)
    }

    /// The room of each bucket.
    pub fn room(&self) -> Room
        requires { IsValid self.now }
        ensures { result ≡ room_of self.now }
    {
        Room {
            slots: self.slots,
            value_bytes: 8 * self.value_words,
        }
    }
}
