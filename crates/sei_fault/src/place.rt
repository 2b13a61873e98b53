//! The places of a traversal, and what a step does at one.
ghost use Rattle.std.specs.Prelude.{◌≡◌};
ghost use Rattle.sei_fault.specs.Phases.{phase_number};

/// The phases of a traversal, in their order.
#[derive(Clone, Copy, Debug, PartialEq, Eq)]
pub enum Phase {
    /// Tests that the input is the sealed one, and one whole request that has the sealed call.
    Guard,
    /// Has the bucket of the call taken.
    Take,
    /// Carries the call out for the first time, and logs what it changes.
    First,
    /// Undoes the changes of the first pass.
    Restore,
    /// Carries the call out for the second time, with a log of its own.
    Second,
    /// Compares the logs and the outputs of both passes.
    Compare,
    /// Reads the changed words back, and makes and tests the copy for the wire.
    Verify,
    /// Has the call entered into the journal.
    Enter,
    /// Has the bucket given back.
    Give,
    /// Has the reply sent.
    Send,
    /// Ends the traversal.
    Done,
}

impl Phase {
    /// How many phases come before this one: 0 for `Guard` to 10 for `Done`.
    pub fn number(&self) -> u64
        ensures { result ≡ phase_number self.now }
    {
        match self {
            Phase::Guard => 0,
            Phase::Take => 1,
            Phase::First => 2,
            Phase::Restore => 3,
            Phase::Second => 4,
            Phase::Compare => 5,
            Phase::Verify => 6,
            Phase::Enter => 7,
            Phase::Give => 8,
            Phase::Send => 9,
            Phase::Done => 10,
        }
    }
}

/// A place in a traversal: one of its steps, its end, or a place that has no step.
#[derive(Clone, Copy, Debug, PartialEq, Eq)]
pub struct Place {
    /// The phase.
    pub phase: Phase,
    /// The number in its phase, from 0. In the first and the second pass it is the index of a
    /// statement in its table, and elsewhere it counts the steps of the phase.
    pub index: u64,
}

/// The kind of statement that a step makes, as far as a planned fault can select by it. An address
/// is the number in the statement's register before the step.
#[derive(Clone, Copy, Debug, PartialEq, Eq)]
pub enum Act {
    /// A statement other than those below, or a step outside of the two passes.
    Plain,
    /// Reads the word at this address of the bucket.
    Load(u64),
    /// Writes the word at this address of the bucket.
    Store(u64),
    /// Asks what time it is.
    Now,
    /// Asks for a slot that is not in use.
    Alloc,
    /// Reads the input into words.
    Parse,
    /// Makes the output bytes from words.
    Render,
    /// Ends a pass.
    Halt,
}

/// A step that is about to be done.
#[derive(Clone, Copy, Debug, PartialEq, Eq)]
pub struct Site {
    /// The place of the step.
    pub place: Place,
    /// What it does there.
    pub act: Act,
}

/// How often the act of a step is to be done. The honest answer is `Once`.
#[derive(Clone, Copy, Debug, PartialEq, Eq)]
pub enum Times {
    /// One time.
    Once,
    /// Not at all.
    Skip,
    /// Two times.
    Twice,
}
