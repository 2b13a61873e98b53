//! The core that a step asks for each of its effects.
ghost use Rattle.std.specs.Prelude.{◌≡◌};
ghost use Rattle.sei_fault.specs.Counts.{Counts, Answered, IsAtMostOne};
ghost use Rattle.sei_fault.specs.Question.{Question, Answer, honestly_to};
ghost use Rattle.sei_fault.specs.Question.Question.{Value, Written, Test, Often, Goes};

use super::{Place, Site, Times};

/// What carries out the effects of a step. It answers each question honestly, or strikes.
pub trait Core {
    /// How many questions were asked, how many strikes came, and how many can still come, if the
    /// core tells that.
    ghost counts: { Self → Counts };

    /// From which state the core gives which answer to a question, and its state after it.
    ghost gives: { Self → (q : Question) → Answer q → Self → Type 0 };

    /// A word or a register that is read. Honest is the argument, its content.
    fn value(&mut self, honest: u64) -> u64
        ensures { gives self.old (Value honest) result self.new };

    /// What is stored in place of the argument. Honest is the argument.
    fn written(&mut self, honest: u64) -> u64
        ensures { gives self.old (Written honest) result self.new };

    /// The outcome of a comparison. Honest is the argument, its true outcome.
    fn test(&mut self, honest: bool) -> bool
        ensures { gives self.old (Test honest) result self.new };

    /// How often the act of the step at this site is to be done. Honest is `Once`.
    fn times(&mut self, site: Site) -> Times
        ensures { gives self.old (Often site) result self.new };

    /// Where to go on after a step. Honest is the argument, the next place.
    fn next(&mut self, honest: Place) -> Place
        ensures { gives self.old (Goes honest) result self.new };

    /// Each question is counted, and its answer is honest unless this very call struck.
    ghost lawful: { (s : Self) (q : Question) (a : Answer q) (t : Self)
        → gives s q a t → Answered (a ≡ honestly_to q) (counts s) (counts t) };
}

/// A core that strikes at most once in a traversal.
pub trait Single: Core {
    /// Traversal number `t`, from 0, begins.
    fn begin(&mut self, t: u64)
        ensures asked { (Self.counts self.new).asked ≡ (Self.counts self.old).asked }
        ensures struck { (Self.counts self.new).struck ≡ (Self.counts self.old).struck }
        ensures room { IsAtMostOne (Self.counts self.new).room };
}
