//! The tables of the commands that read, touch or remove items, and of the fixed texts: get, gets, gat,
//! gats, touch, delete, flush_all and the texts.
#![tactic(auto)]

mod commands;
mod laws;
#[cfg(test)]
mod tests;

pub use commands::{Part, fragment, program};
pub use laws::parts_answer;
