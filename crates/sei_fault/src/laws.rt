//! Laws of the definitions, each a clause of a function that does nothing.
ghost use Rattle.std.specs.Prelude.{◌≡◌, ◌≢◌, ◌<◌, Some};
ghost use Rattle.sei_fault.specs.Question.{Question, Answer, honestly_to};
ghost use Rattle.sei_fault.specs.Script.{ScriptState, altered, script_answer, script_counts, script_next};

/// What a plan answers in place of the honest answer is never the honest answer. So each strike
/// that a `ScriptCore` counts is an answer other than the honest one.
pub fn strikes_alter()
    ensures altered { (s : ScriptState) (q : Question) (a : Answer q) → altered s q ≡ Some a → a ≢ honestly_to q }
    ensures counted { (s : ScriptState) (q : Question) → (script_counts s).struck < (script_counts (script_next s q)).struck →
        script_answer s q ≢ honestly_to q }
{}
