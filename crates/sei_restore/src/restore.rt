//! Undoes one change.
ghost use Rattle.std.specs.Prelude.{◌≡◌, ◌<◌, length};
ghost use Rattle.sei_fault.specs.Tree.{Runs};
ghost use Rattle.sei_words.specs.Exits.{lent_at, lent_left};
ghost use Rattle.sei_words.specs.LentBucket.{words_of, place_of};
ghost use Rattle.sei_restore.specs.Undoing.{undo_tree, undo_nth, undone_of};

use sei_fault::{AbortCause, Core};
use sei_log::{Change, WriteLog};
use sei_words::{Lent, NoBucket, Words};

/// Undoes the change `i` places before the last one of the log: the word at its address, in the
/// words that are lent, becomes its old word again. The core is asked for the address and the old
/// word. If a word is at the address, the core is also asked for what is written.
///
/// It is `Range` exactly if no bucket is lent, or the address that the core gave is outside of it.
/// Then nothing has changed.
pub fn undo<K: Core>(
    log: &WriteLog,
    i: u64,
    lent: Option<&mut Words>,
    core: &mut K,
) -> Result<(), AbortCause>
    requires { i < length log.now.items }
    ensures undone { Runs K.gives (undo_nth log.now.items i (words_of (lent_at lent.entry)))
        core.old core.new (undone_of (words_of (lent_left lent.exit)) result) }
    ensures lent { place_of (lent_left lent.exit) ≡ place_of (lent_at lent.entry) }
{
    match lent {
        None => undo_on(log, i, &mut NoBucket, core),
        Some(words) => undo_on(log, i, words, core),
    }
}

/// The same as `undo`, for any type of lent words.
pub fn undo_on<L: Lent, K: Core>(
    log: &WriteLog,
    i: u64,
    lent: &mut L,
    core: &mut K,
) -> Result<(), AbortCause>
    requires { i < length log.now.items }
    ensures undone { Runs K.gives (undo_nth log.now.items i (words_of (L.lent_bucket lent.old)))
        core.old core.new (undone_of (words_of (L.lent_bucket lent.new)) result) }
    ensures lent { place_of (L.lent_bucket lent.new) ≡ place_of (L.lent_bucket lent.old) }
{
    match log.get(log.len() - 1 - i) {
        None => unreachable!(),
        Some(change) => undo_change(change, lent, core),
    }
}

fn undo_change<L: Lent, K: Core>(
    change: Change,
    lent: &mut L,
    core: &mut K,
) -> Result<(), AbortCause>
    ensures undone { Runs K.gives (undo_tree (words_of (L.lent_bucket lent.old)) change) core.old core.new (undone_of (words_of (L.lent_bucket lent.new)) result) }
    ensures lent { place_of (L.lent_bucket lent.new) ≡ place_of (L.lent_bucket lent.old) }
{
    let a = core.value(change.address);
    let was = core.value(change.was);
    match lent.get(a) {
        None => Err(AbortCause::Range { address: a }),
        Some(_) => {
            let word = core.written(was);
            lent.set(a, word);
            Ok(())
        }
    }
}
