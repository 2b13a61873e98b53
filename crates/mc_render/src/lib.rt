//! Replies from output words. The words that a handler's table emits are read as outputs, and their
//! bytes go into a buffer.
#![tactic(auto)]

mod laws;
mod output;
mod packed;
mod put;
mod reader;
mod reply;
mod writer;

pub use laws::words_render_in_order;
pub use reply::render;

#[cfg(test)]
mod tests;
