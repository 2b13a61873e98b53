//! What a command does at its key, and what it sees of its bucket.

use crate::call::Room;
use crate::item::StoredItem;
use std::marker::Model;

/// What a call sees of its bucket besides the item at its key.
#[derive(Clone, Copy)]
pub struct Seen {
    pub room: Room,
    /// The bucket's moment, in seconds since the start of 1970.
    pub moment: u64,
    /// The cas unique that was drawn last.
    pub counter: u64,
    /// How many items there are.
    pub count: u64,
}

/// What a call does to its bucket's items.
#[derive(Drop)]
pub enum Change {
    Keep,
    /// The item at the key becomes this one.
    Put(StoredItem),
    /// The same, with a unique that was drawn.
    Draw(StoredItem),
    /// The same, if the key had no item.
    Make(StoredItem),
    /// The item at the key is removed.
    Remove,
    /// All items are removed.
    Clear,
}

/// What a call does, and what it answers.
#[derive(Drop)]
pub struct Outcome {
    pub change: Change,
    pub reply: Vec<u8>,
}

impl Model for Outcome {
    ghost use Rattle.mc_model.specs.Outcome.{Outcome};

    ghost Value = { Outcome };

    ghost view = { λ o. record { change = o.change; reply = o.reply.items } };
}
