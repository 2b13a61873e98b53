//! The codes of byte lists: FNV-1a with 64 bits, and the code of a numbered message. Words with a
//! check, and lists whose room is fixed when they are made. The one type for out of memory is here
//! too, since every other crate is above this one.
#![tactic(auto)]

mod bounded;
mod buffer;
mod coded;
mod codes;
mod fold;
mod modes;
#[cfg(test)]
mod tests;

pub use bounded::Bounded;
pub use buffer::{Buffer, WordList};
pub use coded::Coded;
pub use codes::{codes_apart, fnv64, message_code};
pub use fold::Fold;
pub use modes::{Mode, Rendered};
use std::alloc::AllocError;

/// Out of memory: the error of a call that can fail for no other reason.
pub type Memory = AllocError;
