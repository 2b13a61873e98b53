//! The registers and lists that statements work on.
ghost use Rattle.std.specs.Prelude.{◌≡◌, IfOk};
ghost use Rattle.sei_pass.specs.Frames.{new_frame, cleared};

use crate::spaces::PassSpace;
use sei_code::{Buffer, Memory, WordList};
use sei_fault::AbortCause;
use std::alloc::Global;

/// How many registers there are.
pub const REGISTERS: usize = 32;

/// Where a pass goes on after a statement.
#[derive(Clone, Copy, Debug, PartialEq, Eq)]
pub enum PassStep {
    /// At the statement with this index, from 0.
    Next {
        /// The index.
        index: u64,
    },
    /// Nowhere: the pass has ended.
    Halted,
    /// Nowhere: the traversal aborts.
    Bad(AbortCause),
}

/// What a pass works on by itself.
#[derive(Drop)]
pub struct Frame {
    pub registers: [u64; REGISTERS],
    pub input: WordList,
    pub output: WordList,
    pub bytes: Buffer,
    /// The code of the output bytes, once they were made.
    pub code: Option<u64>,
    /// How many statements were made.
    pub made: u64,
}

impl Frame {
    /// Before the first statement, with the rooms of this space.
    pub fn new(alloc: Global, space: &PassSpace) -> Result<Frame, Memory>
        ensures { IfOk result (λ frame. frame ≡ new_frame space.now) }
    {
        Ok(Frame {
            registers: [0; REGISTERS],
            input: WordList::new(alloc, space.input as usize)?,
            output: WordList::new(alloc, space.output as usize)?,
            bytes: Buffer::new(alloc, space.bytes as usize)?,
            code: None,
            made: 0,
        })
    }

    /// Makes it as it was before the first statement.
    pub fn clear(&mut self)
        ensures { self.new ≡ cleared self.old }
    {
        self.registers = [0; REGISTERS];
        self.input.clear();
        self.output.clear();
        self.bytes.clear();
        self.code = None;
        self.made = 0;
    }
}
