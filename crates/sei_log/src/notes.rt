//! The recorded answers of a pass.
use sei_code::Coded;

/// The answers that the first pass got, each with its check. The second pass reads the same ones.
#[derive(Clone, Copy, Debug, PartialEq, Eq)]
pub struct Notes {
    /// What time it is, once that was asked.
    pub now: Option<Coded>,
    /// The slot that was not in use, once one was asked for.
    pub slot: Option<Coded>,
}
