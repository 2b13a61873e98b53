//! The count of the phases that are closed.
ghost use Rattle.std.specs.Prelude.{◌≡◌, ◌==◌};
ghost use Rattle.sei_fault.specs.Counts.{Answered};
ghost use Rattle.sei_fault.specs.Phases.{phase_number};
ghost use Rattle.sei_fault.specs.Tree.{Runs};
ghost use Rattle.sei_gate.specs.Closing.{closing};

use sei_fault::{Core, Phase};

/// How many phases of a traversal are closed.
#[derive(Clone, Copy, Debug, PartialEq, Eq)]
pub struct Gate {
    /// Their number. Without a fault, the phases before the one with this number are closed.
    pub done: u64,
}

impl Gate {
    /// No phase is closed.
    pub fn new() -> Gate
        ensures { result.done ≡ 0 }
    {
        Gate { done: 0 }
    }

    /// Closes a phase, and answers whether its turn had come. The core is asked once: are as many
    /// phases closed as come before this one? If it answers yes, one more is closed, or the number
    /// stays at its last value. Otherwise nothing has changed.
    pub fn complete<K: Core>(&mut self, core: &mut K, phase: Phase) -> bool
        ensures closed { Runs K.gives (closing (phase_number phase) self.old.done) core.old core.new (result, self.new.done) }
        ensures honest { Answered (result ≡ (self.old.done == phase_number phase)) (K.counts core.old) (K.counts core.new) }
    {
        let is_next = core.test(self.done == phase.number());
        if is_next {
            self.done = self.done.saturating_add(1);
        }
        is_next
    }
}
