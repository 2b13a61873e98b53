//! The tables of the commands that store the item which they spell: set, add, replace and cas.
#![tactic(auto)]

mod commands;
mod laws;
#[cfg(test)]
mod tests;

pub use commands::{Part, fragment, program};
pub use laws::parts_answer;
