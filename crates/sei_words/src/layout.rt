//! Where in the words of a bucket its moment, its counter and the parts of its slots are.
ghost use Rattle.std.specs.Prelude.{◌≡◌, ◌+◌, ◌<◌, ◌≤◌};
ghost use Rattle.mc_model.specs.Server.{IsValid};
ghost use Rattle.sei_words.specs.Layout as layout;

use mc_model::Geometry;

/// The address of the moment.
pub const MOMENT: u64 = 0;

/// The address of the counter.
pub const COUNTER: u64 = 1;

/// The address at which the first slot begins.
pub const FIRST_SLOT: u64 = 2;

/// The offset, from where the slot begins, of the word that says whether the slot is used. If it is
/// 0, the slot is free. The other offsets are counted in the same way.
pub const USED: u64 = 0;

/// The offset of the hash of the key.
pub const HASH: u64 = 1;

/// The offset of the length of the key in bytes.
pub const KEY_LENGTH: u64 = 2;

/// The offset of the flags.
pub const FLAGS: u64 = 3;

/// The offset of the expiry.
pub const EXPIRY: u64 = 4;

/// The offset of the cas unique.
pub const UNIQUE: u64 = 5;

/// The offset of the length of the value in bytes.
pub const VALUE_LENGTH: u64 = 6;

/// The offset of the first word of the key.
pub const KEY: u64 = 7;

/// The number of words that the longest key takes.
pub const KEY_ROOM: u64 = 32;

/// The offset of the first word of the value: the number of words of a slot before its value.
pub const VALUE: u64 = KEY + KEY_ROOM;

/// The constants are the numbers of the definitions.
pub fn constants_are_defined()
    ensures moment { MOMENT ≡ layout.moment_address }
    ensures counter { COUNTER ≡ layout.counter_address }
    ensures first_slot { FIRST_SLOT ≡ layout.first_slot }
    ensures used { USED ≡ layout.used_offset }
    ensures hash { HASH ≡ layout.hash_offset }
    ensures key_length { KEY_LENGTH ≡ layout.key_length_offset }
    ensures flags { FLAGS ≡ layout.flags_offset }
    ensures expiry { EXPIRY ≡ layout.expiry_offset }
    ensures unique { UNIQUE ≡ layout.unique_offset }
    ensures value_length { VALUE_LENGTH ≡ layout.value_length_offset }
    ensures key { KEY ≡ layout.key_offset }
    ensures key_room { KEY_ROOM ≡ layout.key_room }
    ensures value { VALUE ≡ layout.value_offset }
{}

/// The number of words of a slot.
#[tactic(auto, unfolding(crate::specs::Layout::width))]
pub fn width(g: &Geometry) -> u64
    requires { IsValid g.now }
    ensures value { result ≡ layout.width g.now }
    ensures small { result ≤ VALUE + 1024 }
{
    VALUE + g.value_words
}

/// The address at which the slot begins. For the number of slots it is the end of the words.
#[tactic(auto, unfolding(crate::specs::Layout::slot_at, crate::specs::Layout::width))]
pub fn slot_at(g: &Geometry, slot: u64) -> u64
    requires valid { IsValid g.now }
    requires slot { slot ≤ g.now.slots }
    ensures value { result ≡ layout.slot_at g.now slot }
    ensures small { result < 2000000 }
{
    FIRST_SLOT + slot * width(g)
}
