//! Undoes the changes of a pass, from the last to the first.
#![tactic(auto)]

mod laws;
mod restore;
#[cfg(test)]
mod tests;

pub use laws::logs_are_undone;
pub use restore::{undo, undo_on};
