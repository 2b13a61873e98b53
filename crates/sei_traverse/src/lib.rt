//! The traversal of one call through all its phases.
#![tactic(auto)]

mod acting;
mod closing;
mod comparing;
mod laws;
mod opening;
mod passing;
mod restoring;
mod running;
mod stepping;
#[cfg(test)]
mod tests;
mod traversal;
mod turned;
mod verifying;
mod workspace;

pub use laws::{
    both_passes_are_made, clocks_are_noted, faults_are_isolated, one_strike_is_isolated,
    refused_only_at_guard, runs_go_as_steps_go, runs_keep_what_steps_keep,
    sound_handlers_are_trusted, steps_are_bounded, traversals_are_on_their_way, traversals_end,
    wants_come_once, what_is_entered_stays,
};
pub use traversal::{Traversal, most_steps};
pub use turned::{Abort, Many, State, Turned, Want};
