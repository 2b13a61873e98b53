//! Where bytes are read from.
ghost use Rattle.std.specs.Prelude.{◌≡◌, ◌≢◌, ℕ, ◌<◌, ◌≤◌, List, length};
ghost use Rattle.std.specs.declared.option.Option.{Option};
ghost use Rattle.sei_outside.specs.Faults.{Rose};
ghost use Rattle.sei_outside.specs.Reads.{ReadGives};

/// What a read answers.
#[derive(Clone, Copy, Debug, PartialEq, Eq)]
pub enum Read {
    /// This many bytes are at the front of the piece: at least one, and at most its length.
    Took(usize),
    /// No bytes are left.
    End,
    /// The read failed, and took nothing. A later read may go on.
    Failed,
}

/// Where bytes are read from.
pub trait Source {
    /// The bytes that are left, if the source tells them. A source that tells them goes on telling
    /// them.
    ghost left: { Self → Option (List ℕ) };

    /// How many reads failed. At the last value of a `u64` the count does not change.
    ghost faults: { Self → ℕ };

    /// Takes bytes that are left into the front of a piece, which is not empty.
    fn read(&mut self, into: &mut [u8]) -> Read
        requires { 0 < length into.old }
        ensures bytes { ReadGives (left self.old) (left self.new) into.new result }
        ensures later { faults self.old ≤ faults self.new }
        ensures cause { result ≡ Read.Failed → Rose (faults self.old) (faults self.new) }
        ensures quiet { result ≢ Read.Failed → faults self.new ≡ faults self.old };
}
