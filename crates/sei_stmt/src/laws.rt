//! Laws of the definitions, each a clause of a function that does nothing.
ghost use Rattle.std.specs.Prelude.{◌≡◌, ℕ};
ghost use Rattle.sei_fault.specs.Tree.{questions};
ghost use Rattle.sei_fault.specs.Weights.{weighed};
ghost use Rattle.sei_stmt.specs.Machine.{Machine, Setting};
ghost use Rattle.sei_stmt.specs.Statements.{step_tree};

/// The questions of a step of a pass weigh as much as their number: each of them is one of `value`,
/// `written` and `test`.
pub fn statements_ask_what_weighs()
    ensures { (g : Setting) (i : ℕ) (m : Machine) → weighed (step_tree g i m) ≡ questions (step_tree g i m) }
{}
