//! Items as a list holds them, and those that calls make.

ghost use Rattle.std.specs.Prelude.{◌≡◌, IfOk};
ghost use Rattle.mc_model.specs.Items.{expiry_of, next_unique, item_of_call, item_with_value, item_with_expiry};

use crate::call::KeyedCall;
use crate::outcome::Seen;
use sei_code::Memory;
use std::alloc::Global;
use std::marker::Model;

/// The longest exptime that is counted from now, in seconds.
pub const THIRTY_DAYS: u64 = 2592000;

/// What the server keeps at a key.
#[derive(Drop)]
pub struct StoredItem {
    pub flags: u32,
    /// The second since the start of 1970 from which the item is gone, or 0 for never.
    pub expiry: u64,
    /// The cas unique.
    pub unique: u64,
    pub value: Vec<u8>,
}

impl Model for StoredItem {
    ghost use Rattle.mc_model.specs.Bucket.{Item};

    ghost Value = { Item };

    ghost view = { λ s. record { flags = s.flags; expiry = s.expiry; unique = s.unique; value = s.value.items } };
}

impl StoredItem {
    ghost use Rattle.mc_model.specs.Bucket.{is_live};

    pub fn is_live(&self, moment: u64) -> bool
        ensures { result ≡ is_live moment self.now }
    {
        self.expiry == 0 || moment < self.expiry
    }
}

/// An item and its key.
#[derive(Drop)]
pub struct StoredEntry {
    pub key: Vec<u8>,
    pub item: StoredItem,
}

impl Model for StoredEntry {
    ghost use Rattle.std.specs.Prelude.{List, ℕ};
    ghost use Rattle.mc_model.specs.Bucket.{Item};

    ghost Value = { List ℕ × Item };

    ghost view = { λ e. (e.key.items, e.item) };
}

/// The expiry of an exptime, at a moment in seconds since the start of 1970.
pub fn expiry_of(moment: u64, negative: bool, exptime: u64) -> u64
    ensures { result ≡ expiry_of moment negative exptime }
{
    if exptime == 0 {
        0
    } else if negative {
        1
    } else if exptime <= THIRTY_DAYS {
        moment.saturating_add(exptime)
    } else {
        exptime
    }
}

/// The cas unique that a call draws.
fn next_unique(seen: &Seen) -> u64
    ensures { result ≡ next_unique seen.now }
{
    seen.counter.wrapping_add(1)
}

/// The item that the call itself spells.
pub fn item_of_call(alloc: Global, seen: &Seen, call: &KeyedCall) -> Result<StoredItem, Memory>
    ensures { IfOk result (λ item. item ≡ item_of_call seen.now call.now) }
{
    Ok(StoredItem {
        flags: call.fields.flags,
        expiry: expiry_of(seen.moment, call.fields.negative, call.fields.exptime),
        unique: next_unique(seen),
        value: call.block.to_vec(alloc)?,
    })
}

pub fn item_with_value(seen: &Seen, item: &StoredItem, value: Vec<u8>) -> StoredItem
    ensures { result ≡ item_with_value seen.now item.now value.items }
{
    StoredItem {
        flags: item.flags,
        expiry: item.expiry,
        unique: next_unique(seen),
        value,
    }
}

pub fn item_with_expiry(
    alloc: Global,
    seen: &Seen,
    call: &KeyedCall,
    item: &StoredItem,
) -> Result<StoredItem, Memory>
    ensures { IfOk result (λ other. other ≡ item_with_expiry seen.now call.now item.now) }
{
    Ok(StoredItem {
        flags: item.flags,
        expiry: expiry_of(seen.moment, call.fields.negative, call.fields.exptime),
        unique: item.unique,
        value: item.value.as_slice().to_vec(alloc)?,
    })
}
