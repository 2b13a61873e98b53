//! Laws of the definitions, each a clause of a function that does nothing.
ghost use Rattle.std.specs.Prelude.{◌≡◌, ℕ, ◌<◌, List, length, None};
ghost use Rattle.sei_fault.specs.Tree.{honest};
ghost use Rattle.sei_log.specs.declared.log.Change.{Change};
ghost use Rattle.sei_restore.specs.Undoing.{LeadsTo, restored, undo_nth};

/// If the changes of a log lead from one list of words to another, undoing them all gives the words
/// before the log. This is so without a strike, with the last change undone first, and also if an
/// address is in the log twice. No change is out of range on the way.
pub fn logs_are_undone()
    ensures restores { (before : List ℕ) (log : List Change) (after : List ℕ) → LeadsTo before log after → restored log after (length log) ≡ before }
    ensures stays_inside { (before : List ℕ) (log : List Change) (after : List ℕ) (n : ℕ) → LeadsTo before log after → n < length log →
        (honest (undo_nth log n (restored log after n))).cause ≡ None }
{}
