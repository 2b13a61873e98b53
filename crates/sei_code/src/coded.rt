//! A word with its check.
ghost use Rattle.std.specs.Prelude.{◌≡◌};
ghost use Rattle.sei_code.specs.Coded.{sealed, read_of};

/// A value with its check. Once it is sealed, the check is the value's bitwise complement.
#[derive(Clone, Copy, Debug, PartialEq, Eq)]
pub struct Coded {
    /// The value.
    pub value: u64,
    /// The complement of the value, if neither of the two was altered.
    pub check: u64,
}

impl Coded {
    /// The value with its check.
    pub fn seal(v: u64) -> Coded
        ensures { result ≡ sealed v }
    {
        Coded {
            value: v,
            check: !v,
        }
    }

    /// The value, or `None` exactly if the check is not its complement.
    pub fn read(&self) -> Option<u64>
        ensures { result ≡ read_of self.now }
    {
        if self.check == !self.value {
            Some(self.value)
        } else {
            None
        }
    }
}
