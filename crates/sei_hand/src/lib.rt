//! The service as a handler. It reads requests of memcached into the input words of a pass, and
//! makes replies from output words.
#![tactic(auto)]

mod commands;
mod fill;
mod hands;
mod laws;
mod table;
#[cfg(test)]
mod tests;

pub use hands::{Hands, HandsError};
pub use laws::{
    blocks_stand_last, calls_are_counted, calls_are_read, commands_have_programs,
    hands_are_a_sound_handler, hands_are_sound, requests_are_spelled, words_are_bounded,
};
