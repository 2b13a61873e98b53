//! How the program ends, and the exit status of each end.
ghost use Rattle.std.specs.Prelude.{◌≡◌};

use sei_script::Why;

/// How a run of the program ends.
#[derive(Clone, Copy, Debug, PartialEq, Eq)]
pub enum Status {
    /// All was done.
    Ok,
    /// The words of the command line are no form.
    Usage,
    /// The first line of the script that does not read, and why; line 0 is the script as a whole.
    Script { line: u64, why: Why },
    /// A traversal was aborted.
    Aborted,
    /// A read of the source failed.
    ReadFault,
    /// A write to the sink failed.
    WriteFault,
    /// Memory ran out.
    Memory,
    /// A link could not be accepted.
    NetFault,
    /// A journal had no room for the next entry.
    JournalFull,
    /// A journal could not be written.
    JournalFault,
}

impl Status {
    ghost use Rattle.sei_main.specs.ExitCodes.{code_of};

    /// The exit status of the process.
    pub fn code(&self) -> u8
        ensures { result ≡ code_of self.now }
    {
        match self {
            Status::Ok => 0,
            Status::Usage => 1,
            Status::Script { .. } => 2,
            Status::Aborted => 3,
            Status::ReadFault => 4,
            Status::WriteFault => 5,
            Status::Memory => 6,
            Status::NetFault => 7,
            Status::JournalFull => 8,
            Status::JournalFault => 9,
        }
    }
}
