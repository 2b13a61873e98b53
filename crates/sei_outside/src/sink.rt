//! Where bytes are written to.
ghost use Rattle.std.specs.Prelude.{◌≡◌, ℕ, ◌≤◌, List};
ghost use Rattle.std.specs.declared.option.Option.{Option};
ghost use Rattle.sei_outside.specs.Faults.{Rose};
ghost use Rattle.sei_outside.specs.Writes.{WriteGives};

/// What a write answers.
#[derive(Clone, Copy, Debug, PartialEq, Eq)]
pub enum Wrote {
    /// All bytes were written.
    All,
    /// The write failed. A first part of the bytes may have been written.
    Failed,
}

/// Where bytes are written to.
pub trait Sink {
    /// The bytes that were written so far, if the sink tells them. A sink that tells them goes on
    /// telling them.
    ghost written: { Self → Option (List ℕ) };

    /// How many writes failed. At the last value of a `u64` the count does not change.
    ghost faults: { Self → ℕ };

    /// Writes the bytes after those that were written before.
    fn write(&mut self, bytes: &[u8]) -> Wrote
        ensures bytes { WriteGives (written self.old) (written self.new) bytes.now result }
        ensures later { faults self.old ≤ faults self.new }
        ensures cause { result ≡ Wrote.Failed → Rose (faults self.old) (faults self.new) }
        ensures quiet { result ≡ Wrote.All → faults self.new ≡ faults self.old };
}
