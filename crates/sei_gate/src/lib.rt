//! The gate that counts which phases of a traversal are closed. If a phase is closed out of its
//! turn, or twice, the gate has another number. In this way lost and repeated steps are noticed.
#![tactic(auto)]

mod gate;
#[cfg(test)]
mod tests;

pub use gate::Gate;
