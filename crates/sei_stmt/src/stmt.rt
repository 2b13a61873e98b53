//! The statements of a table.

/// One statement. It works on 32 registers, named 0 to 31. Arithmetic is modulo 2^64. After each
/// statement but the jumps and `Halt` comes the next one.
#[derive(Clone, Copy, Debug, PartialEq, Eq)]
pub enum Stmt {
    /// The register gets the number.
    Const { to: u8, number: u64 },
    /// The register gets what the other one holds.
    Move { to: u8, from: u8 },
    /// The register gets the sum.
    Add { to: u8, left: u8, right: u8 },
    /// The register gets the difference.
    Sub { to: u8, left: u8, right: u8 },
    /// The register gets the input word at the index that a register holds.
    Input { to: u8, index: u8 },
    /// The register gets the bucket's word at the address that a register holds.
    Load { to: u8, address: u8 },
    /// The bucket's word at the address that a register holds becomes what the other one holds, and
    /// the change is logged. If the word is that already, nothing is stored or logged.
    Store { address: u8, from: u8 },
    /// What the register holds is one more output word.
    Emit { from: u8 },
    /// Goes on `offset` statements after the next one.
    Jump { offset: i64 },
    /// Goes on there if both registers hold the same.
    JumpEq { left: u8, right: u8, offset: i64 },
    /// Goes on there if the left register holds less.
    JumpLt { left: u8, right: u8, offset: i64 },
    /// The register gets the current second, from the clock in the first pass, and from the notes
    /// in the second.
    Now { to: u8 },
    /// The register gets a slot that is free at the moment that a register holds, or the number of
    /// slots if none is. The first pass takes the lowest one, and the second the noted one.
    Alloc { to: u8, moment: u8 },
    /// Reads the sealed request into the input words.
    Parse,
    /// Makes the output bytes from the output words.
    Render,
    /// Ends the pass.
    Halt,
}
