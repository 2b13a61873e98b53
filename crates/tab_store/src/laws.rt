//! The law of honest runs of each part, a clause of a function that does nothing.

ghost use Rattle.tab_find.specs.Answers.{AnswersCalls};
ghost use Rattle.tab_store.specs.Programs.{part_program, IsCallOf};
ghost use Rattle.tab_store.specs.declared.commands.Part.{Part};

/// From where a command begins, each part answers its calls. It replaces the item of the call's key by
/// the one that the call spells, or makes it if a slot is free, as far as its command does.
pub fn parts_answer()
    ensures { (which : Part) → AnswersCalls (IsCallOf which) (part_program which) }
{}
