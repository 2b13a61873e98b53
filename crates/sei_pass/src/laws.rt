//! Laws of the definitions, each the clause of a function that does nothing.
ghost use Rattle.std.specs.Prelude.{ℕ, Option};
ghost use Rattle.sei_stmt.specs.Comes.{at_time};
ghost use Rattle.sei_stmt.specs.Honest.{HonestRun};
ghost use Rattle.sei_stmt.specs.Machine.{Machine, Setting};
ghost use Rattle.sei_pass.specs.WholePass.{WholePass};

use sei_fault::Core;

/// A whole pass that nothing struck is the honest run, whatever the clock tells: at each time that its
/// notes never speak against.
pub fn whole_passes_are_honest<K: Core>()
    ensures { (told : Option ℕ) (g : Setting) (time n : ℕ) (start end : Machine) →
        WholePass K.gives K.counts told g time n start end → HonestRun (at_time g time) start end n }
{}
