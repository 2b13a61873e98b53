//! The entries of a bucket: a list in which each key is there once.

ghost use Rattle.std.specs.Prelude.{◌≡◌, ◌<◌, ◌≤◌, IfSome, length, position, vec_len, vec_capacity};
ghost use Rattle.std.specs.Option.{option_copied};
ghost use Rattle.std.specs.Str.{bytes_eq};
ghost use Rattle.mc_model.specs.Bucket.{lookup, live_entries, put, without};
ghost use Rattle.mc_model.specs.Answer.{items_after};

use crate::item::{StoredEntry, StoredItem};
use crate::outcome::Change;

/// The item at the key, if it is there and live at the moment.
pub fn find_live<'a>(entries: &'a [StoredEntry], moment: u64, key: &[u8]) -> Option<&'a StoredItem>
    ensures { option_copied result ≡ lookup key.now (live_entries moment entries.now) }
{
    for entry in entries {
        if entry.item.is_live(moment) && key == entry.key.as_slice() {
            return Some(&entry.item);
        }
    }
    None
}

pub fn count_live(entries: &[StoredEntry], moment: u64) -> usize
    ensures { result ≡ length (live_entries moment entries.now) }
{
    entries
        .iter()
        .filter(|entry| entry.item.is_live(moment))
        .count()
}

/// Removes the items that have expired.
pub fn purge(entries: &mut Vec<StoredEntry>, moment: u64)
    ensures items { entries.new.items ≡ live_entries moment entries.old.items }
    ensures room { vec_len entries.new ≤ vec_len entries.old }
    ensures capacity { vec_capacity entries.new ≡ vec_capacity entries.old }
{
    entries.retain(|entry| entry.item.is_live(moment));
}

fn place_of(entries: &[StoredEntry], key: &[u8]) -> Option<usize>
    ensures { result ≡ position (λ e. bytes_eq key.now e.0) entries.now }
{
    entries.iter().position(|entry| key == entry.key.as_slice())
}

fn put(entries: &mut Vec<StoredEntry>, key: Vec<u8>, item: StoredItem)
    requires { vec_len entries.old < vec_capacity entries.old }
    ensures { entries.new.items ≡ put key.items item entries.old.items }
{
    match place_of(entries.as_slice(), key.as_slice()) {
        Some(i) => entries[i] = StoredEntry { key, item },
        None => entries.push_reserved(StoredEntry { key, item }),
    }
}

fn take_out(entries: &mut Vec<StoredEntry>, key: &[u8])
    ensures { entries.new.items ≡ without key.now entries.old.items }
{
    match place_of(entries.as_slice(), key) {
        Some(i) => drop(entries.remove(i)),
        None => {}
    }
}

/// Makes the change at the key.
pub fn apply(entries: &mut Vec<StoredEntry>, key: Vec<u8>, change: Change)
    requires { vec_len entries.old < vec_capacity entries.old }
    ensures { entries.new.items ≡ items_after key.items change entries.old.items }
{
    match change {
        Change::Keep => {}
        Change::Put(item) | Change::Draw(item) | Change::Make(item) => put(entries, key, item),
        Change::Remove => take_out(entries, key.as_slice()),
        Change::Clear => entries.clear(),
    }
}
