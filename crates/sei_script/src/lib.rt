//! What a script is, how it is read, and how the lines of a report are written.
//!
//! A script is lines of text: `read_script` gives them, or the first one that does not read and why.
//! A report is written a line at a time, each from what it tells.
#![tactic(auto)]

mod aborts;
mod escapes;
mod hexadecimal;
mod laws;
mod line;
mod lines;
mod numbers;
mod plans;
mod reader;
mod says;
mod text;
mod texts;
mod traversals;
mod words;
mod write;

pub use aborts::{abort_text, end_text, phase_text};
pub use escapes::escape;
pub use laws::{
    a_text_spells_one_line, lines_are_read_as_spelled, numbers_are_decimal,
    scripts_are_read_as_spelled,
};
pub use line::{ScriptLine, Why};
pub use lines::Script;
pub use reader::{LIMIT, ScriptFault, read_script};
pub use text::Text;
pub use texts::{left_text, refusal_text, took_text};
pub use write::{Reporter, Stop, write_text};
