//! Planned faults of an object in memory.
ghost use Rattle.std.specs.Prelude.{◌≡◌, ◌≤◌};
ghost use Rattle.sei_outside.specs.Plan.{first_call, is_due, after_call};

use std::marker::Model;

/// Counts the calls of an object in memory and its faults. The calls whose numbers, from 0, are
/// listed are to fail. At the last value of a `u64` a count does not change.
#[derive(Drop)]
pub struct Calls {
    made: u64,
    faults: u64,
    failing: Vec<u64>,
}

impl Model for Calls {
    ghost use Rattle.sei_outside.specs.Plan.{Plan};

    ghost Value = { Plan };

    ghost view = { λ c. record { made = c.made; faults = c.faults; failing = c.failing.items } };
}

impl Calls {
    /// No call was made yet.
    pub fn new(failing: Vec<u64>) -> Calls
        ensures { result ≡ first_call failing.items }
    {
        Calls {
            made: 0,
            faults: 0,
            failing,
        }
    }

    /// How many calls failed.
    pub fn faults(&self) -> u64
        ensures { result ≡ self.now.faults }
    {
        self.faults
    }

    /// Is the next call to fail?
    pub fn is_due(&self) -> bool
        ensures { result ≡ is_due self.now }
    {
        self.failing.contains(&self.made)
    }

    /// Counts one call, and one fault if it failed.
    pub fn count(&mut self, failed: bool)
        ensures counted { self.new ≡ after_call failed self.old }
        ensures later { self.old.faults ≤ self.new.faults }
    {
        self.made = self.made.saturating_add(1);
        if failed {
            self.faults = self.faults.saturating_add(1);
        }
    }
}
