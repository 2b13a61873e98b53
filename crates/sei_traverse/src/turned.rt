//! How a step of a traversal turns out.
ghost use Rattle.std.specs.Prelude.{◌≡◌};
ghost use Rattle.std.specs.Bool.{OnTrue};
ghost use Rattle.sei_traverse.specs.Running.{quiet};

use sei_fault::{AbortCause, Phase};

/// What a step wants of the caller. A want is to be met in any case, also if the same step aborts.
#[derive(Clone, Copy, Debug, PartialEq, Eq)]
pub enum Want {
    /// Nothing.
    Nothing,
    /// That this bucket is taken, and lent from now on. A struck traversal may want another one than
    /// that of its call.
    Take {
        /// The number of the bucket, from 0.
        bucket: u64,
    },
    /// That the call is entered into the journal, with the reply and the time.
    Enter,
    /// That the bucket is given back, and lent no more.
    Give,
    /// That the copy for the wire is sent.
    Send,
}

/// Where and why a traversal aborted.
#[derive(Clone, Copy, Debug, PartialEq, Eq)]
pub struct Abort {
    /// The phase of the step that aborted.
    pub phase: Phase,
    /// Why it did.
    pub cause: AbortCause,
}

/// Whether a traversal goes on.
#[derive(Clone, Copy, Debug, PartialEq, Eq)]
pub enum State {
    /// It goes on.
    Went,
    /// It came to its end, with all phases closed.
    Finished,
    /// Guard was answered that its input is not the sealed one, or is not one whole request with the
    /// sealed call.
    Refused,
    /// It aborted.
    Aborted(Abort),
}

/// How a step turned out.
#[derive(Clone, Copy, Debug, PartialEq, Eq)]
pub struct Turned {
    /// What it wants.
    pub want: Want,
    /// Whether the traversal goes on.
    pub state: State,
}

impl Turned {
    /// Whether nothing is wanted and the traversal goes on.
    pub(crate) fn is_quiet(&self) -> bool
        ensures { OnTrue result (self.now ≡ quiet) }
    {
        match self.want {
            Want::Nothing => match self.state {
                State::Went => true,
                State::Finished | State::Refused | State::Aborted(_) => false,
            },
            Want::Take { bucket: _ } | Want::Enter | Want::Give | Want::Send => false,
        }
    }
}

/// How many steps at once turned out.
#[derive(Clone, Copy, Debug, PartialEq, Eq)]
pub struct Many {
    /// How many steps were made before the last one. None of them wanted anything or ended the
    /// traversal.
    pub before: u64,
    /// How the last one turned out.
    pub turned: Turned,
}
