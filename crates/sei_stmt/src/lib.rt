//! Tables of statements: what each statement does and asks a core, which lists of statements are
//! tables, and programs with structure that stand for tables.
#![tactic(auto)]

mod fragment;
mod handler;
mod laws;
mod program;
mod stmt;
mod table;
#[cfg(test)]
mod tests;

pub use fragment::{Fragment, place};
pub use handler::{Handler, Modeled};
pub use laws::statements_ask_what_weighs;
pub use program::{Program, Statements};
pub use stmt::Stmt;
pub use table::{Table, TableError, target};
