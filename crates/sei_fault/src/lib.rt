//! The core that a step asks for each of its effects. It may answer other than honestly, so a
//! transient fault is an answer like any other. One core never strikes, and one carries out a
//! planned fault. The laws over what a step asks, and what it does with the answers, are in
//! `proofs/`.
#![tactic(auto)]

mod cause;
mod count;
mod fault_core;
mod laws;
mod place;
mod plain;
mod plan;
mod script;
#[cfg(test)]
mod script_tests;
#[cfg(test)]
mod tests;

pub use cause::AbortCause;
pub use fault_core::{Core, Single};
pub use laws::strikes_alter;
pub use place::{Act, Phase, Place, Site, Times};
pub use plain::PlainCore;
pub use plan::{Kind, Planned, Select};
pub use script::ScriptCore;
