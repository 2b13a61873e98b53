//! The core that never strikes.
ghost use Rattle.std.specs.Prelude.{◌≡◌};
ghost use Rattle.sei_fault.specs.Counts.{counted};
ghost use Rattle.sei_fault.specs.Scripted.{function_core};
ghost use Rattle.sei_fault.specs.Plain.{plain_counts, plain_answer, plain_next, plain_lawful};

use super::count::Count;
use super::{Core, Place, Single, Site, Times};
use std::marker::Model;

/// The core that answers each question honestly. Its value is the number of questions that it was
/// asked. It never strikes, and tells that no strike can come.
#[derive(Drop)]
pub struct PlainCore {
    /// How many questions were asked.
    count: Count,
}

impl Model for PlainCore {
    ghost use Rattle.std.specs.Prelude.{ℕ};

    ghost Value = { ℕ };

    ghost view = { λ core. core.count };
}

impl PlainCore {
    /// No question was asked yet.
    pub fn new() -> PlainCore
        ensures { result ≡ 0 }
    {
        PlainCore {
            count: Count::new(),
        }
    }

    /// Counts one question.
    #[inline(always)]
    fn count(&mut self)
        ensures { self.new ≡ counted self.old }
    {
        self.count.count();
    }
}

impl Core for PlainCore {
    ghost counts = { plain_counts };

    ghost gives = { function_core plain_answer plain_next };

    #[inline(always)]
    fn value(&mut self, honest: u64) -> u64 {
        self.count();
        honest
    }

    #[inline(always)]
    fn written(&mut self, honest: u64) -> u64 {
        self.count();
        honest
    }

    #[inline(always)]
    fn test(&mut self, honest: bool) -> bool {
        self.count();
        honest
    }

    #[inline(always)]
    fn times(&mut self, _site: Site) -> Times {
        self.count();
        Times::Once
    }

    #[inline(always)]
    fn next(&mut self, honest: Place) -> Place {
        self.count();
        honest
    }

    ghost lawful = { plain_lawful };
}

impl Single for PlainCore {
    // The plain core stands for its count alone, so the clause `asked` says that nothing changes.
    fn begin(&mut self, _t: u64) {}
}
