//! The law of honest runs of each part, a clause of a function that does nothing.

ghost use Rattle.tab_find.specs.Answers.{AnswersCalls};
ghost use Rattle.tab_read.specs.Programs.{part_program, IsCallOf};
ghost use Rattle.tab_read.specs.declared.commands.Part.{Part};

/// From where a command begins, each part answers its calls. Get and its like show the item of
/// the call's key, if it has one; gat and touch give it another expiry; delete removes it, and flush
/// removes all. A fixed text is that of the call.
pub fn parts_answer()
    ensures { (which : Part) → AnswersCalls (IsCallOf which) (part_program which) }
{}
