//! What a pass notes: each word that it changed, in order, and the answers of its questions about
//! time and slots. A pass is undone by its log, and two passes are compared by their logs.
#![tactic(auto)]

mod log;
mod notes;
#[cfg(test)]
mod tests;

pub use log::{Change, WriteLog};
pub use notes::Notes;
