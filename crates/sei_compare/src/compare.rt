//! The comparisons, each with one test that the core is asked for.
ghost use Rattle.std.specs.Prelude.{◌≡◌, ◌<◌, length, slice_get};
ghost use Rattle.std.specs.Option.{option_copied};
ghost use Rattle.sei_fault.specs.Counts.{Answered};
ghost use Rattle.sei_fault.specs.Tree.{Runs};
ghost use Rattle.sei_words.specs.LentBucket.{words_of};
ghost use Rattle.sei_compare.specs.Comparing.{same_change, entry_tree, word_tree, word_at, word_is, word_outcome, same_code, same_reply, codes_tree, is_message, wire_tree};

use sei_code::{Mode, message_code};
use sei_fault::{AbortCause, Core};
use sei_log::{Change, WriteLog};
use sei_words::{Lent, NoBucket, Words};

/// Whether the entries at `i` of both logs are there, and are equal in address, old word and new
/// word. The core is asked once.
pub fn entry<K: Core>(one: &WriteLog, two: &WriteLog, i: u64, core: &mut K) -> bool
    ensures compared { Runs K.gives (entry_tree one.now.items two.now.items i) core.old core.new result }
    ensures honest { Answered (result ≡ same_change (slice_get one.now.items i) (slice_get two.now.items i)) (K.counts core.old) (K.counts core.new) }
{
    core.test(same_change(one.get(i), two.get(i)))
}

fn same_change(one: Option<Change>, two: Option<Change>) -> bool
    ensures { result ≡ same_change one two }
{
    match (one, two) {
        (Some(change), Some(other)) => change == other,
        _ => false,
    }
}

/// Whether the word at the address of the entry at `i`, in the words that are lent, is the entry's
/// new word. The core is asked for the word that is there, and then whether its answer is the new
/// word.
///
/// It is `Range`, with the entry's address, exactly if no word is there or no bucket is lent. Then
/// nothing is asked.
/// and then nothing is asked.
pub fn word<K: Core>(
    log: &WriteLog,
    i: u64,
    lent: Option<&Words>,
    core: &mut K,
) -> Result<bool, AbortCause>
    requires { i < length log.now.items }
    ensures compared { Runs K.gives (word_at (words_of (option_copied lent.entry)) (slice_get log.now.items i)) core.old core.new result }
    ensures honest { (K.counts core.new).struck ≡ (K.counts core.old).struck → result ≡ word_outcome (words_of (option_copied lent.entry)) (slice_get log.now.items i) }
{
    match lent {
        None => word_on(log, i, &NoBucket, core),
        Some(words) => word_on(log, i, words, core),
    }
}

/// The same as `word`, for any type of lent words.
pub fn word_on<L: Lent, K: Core>(
    log: &WriteLog,
    i: u64,
    lent: &L,
    core: &mut K,
) -> Result<bool, AbortCause>
    requires { i < length log.now.items }
    ensures compared { Runs K.gives (word_at (words_of (L.lent_bucket lent.now)) (slice_get log.now.items i)) core.old core.new result }
    ensures honest { (K.counts core.new).struck ≡ (K.counts core.old).struck → result ≡ word_outcome (words_of (L.lent_bucket lent.now)) (slice_get log.now.items i) }
{
    match log.get(i) {
        None => unreachable!(),
        Some(change) => change_word(change, lent, core),
    }
}

fn change_word<L: Lent, K: Core>(change: Change, lent: &L, core: &mut K) -> Result<bool, AbortCause>
    ensures compared { Runs K.gives (word_tree (words_of (L.lent_bucket lent.now)) change) core.old core.new result }
    ensures honest { (K.counts core.new).struck ≡ (K.counts core.old).struck → result ≡ word_is change (slice_get (words_of (L.lent_bucket lent.now)) change.address) }
{
    match lent.get(change.address) {
        None => Err(AbortCause::Range {
            address: change.address,
        }),
        Some(stands) => {
            let word = core.value(stands);
            let is_new = core.test(word == change.becomes);
            Ok(is_new)
        }
    }
}

/// Whether the outputs of two passes are the same: both codes are there and equal, and the bytes
/// are equal. The core is asked once.
pub fn codes<K: Core>(
    one: Option<u64>,
    first: &[u8],
    two: Option<u64>,
    second: &[u8],
    core: &mut K,
) -> bool
    ensures compared { Runs K.gives (codes_tree one first.now two second.now) core.old core.new result }
    ensures honest { Answered (result ≡ same_reply one first.now two second.now) (K.counts core.old) (K.counts core.new) }
{
    core.test(same_code(one, two) && first == second)
}

fn same_code(one: Option<u64>, two: Option<u64>) -> bool
    ensures { result ≡ same_code one two }
{
    match (one, two) {
        (Some(code), Some(other)) => code == other,
        _ => false,
    }
}

/// Whether `bytes`, the copy for the wire, are the output bytes `first` of a pass. The pass's code
/// must be there, and be the code of `bytes` as message number `answer`. The core is asked once. In
/// plain mode a reply is sent as its bytes alone.
pub fn wire<K: Core>(
    bytes: &[u8],
    mode: Mode,
    answer: u64,
    code: Option<u64>,
    first: &[u8],
    core: &mut K,
) -> bool
    requires plain { mode ≡ Mode.Plain }
    ensures compared { Runs K.gives (wire_tree mode answer code first.now bytes.now) core.old core.new result }
    ensures honest { Answered (result ≡ is_message mode answer code first.now bytes.now) (K.counts core.old) (K.counts core.new) }
{
    match mode {
        Mode::Plain => {
            let wanted = message_code(answer, bytes);
            core.test(same_code(code, Some(wanted)) && bytes == first)
        }
        Mode::Coded => unreachable!(),
    }
}
