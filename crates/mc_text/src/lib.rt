//! Requests as memcached's text protocol spells them: where the first one ends, what it asks for,
//! and its calls. Nothing here takes memory: a request holds places in the bytes that it was read
//! from.
#![tactic(auto)]

mod commands;
mod cursor;
mod fields;
mod laws;
mod limits;
mod lines;
mod parsed;
mod reader;
mod request;
mod scan;
#[cfg(test)]
mod tests;
mod words;

pub use cursor::Cursor;
pub use laws::{any_cut, blocks_mean, calls_fit, lines_mean, no_dead_end, one_spelling};
pub use limits::Limits;
pub use reader::{ReadRequest, parse, read_front, read_request};
pub use request::Request;
