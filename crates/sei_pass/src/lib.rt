//! One pass over a table of statements: what each statement does, with each of its effects asked of
//! a core.
#![tactic(auto)]

mod acts;
mod answers;
mod arms;
mod frame;
mod given;
mod laws;
mod loops;
mod memory;
mod output;
mod pass;
mod registers;
mod slots;
mod spaces;
mod step;
#[cfg(test)]
mod tests;

pub use frame::PassStep;
pub use given::{Given, Sealed, Which};
pub use laws::whole_passes_are_honest;
pub use loops::{Exit, FirstStep, Ran, SecondStep};
pub use pass::Pass;
pub use slots::Slots;
pub use spaces::PassSpace;
