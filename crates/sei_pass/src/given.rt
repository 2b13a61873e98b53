//! What a pass is given.
use crate::spaces::PassSpace;
use sei_code::Coded;
use sei_stmt::Stmt;

/// What is sealed before the first pass, so that both passes serve the same call.
#[derive(Clone, Copy, Debug, PartialEq, Eq)]
pub struct Sealed {
    /// The number of the message that the input is.
    pub number: u64,
    /// The number of the call in the input, from 0.
    pub nth: Coded,
    /// The message code of the input.
    pub code: u64,
    /// The number of the message that the reply is.
    pub answer: u64,
}

/// Which of the two passes it is.
#[derive(Clone, Copy, Debug, PartialEq, Eq)]
pub enum Which {
    /// The first one, which notes the answers of the clock and of the search for a free slot.
    Making,
    /// The second one, which goes by the notes.
    Reading,
}

/// What a step of a pass is given.
#[derive(Drop)]
pub struct Given<'a, H, C> {
    /// Which pass it is of.
    pub which: Which,
    /// The handler whose table the pass runs over.
    pub hands: &'a H,
    /// The input of the call.
    pub input: &'a [u8],
    /// What is sealed of the call.
    pub sealed: &'a Sealed,
    /// The clock that a first pass asks.
    pub clock: &'a C,
    /// The index of the statement, from 0.
    pub index: u64,
}

/// The statement of a step.
#[derive(Drop)]
pub struct Turn<'a> {
    /// The statement.
    pub statement: Stmt,
    /// What the clock answered, if the statement asks for the time.
    pub time: u64,
    /// The space of the pass.
    pub space: &'a PassSpace,
}
