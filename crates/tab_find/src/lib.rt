//! The parts of a handler's table that commands share: the moment, the find, a free slot, items
//! that are read and stored, and output words. Each is a program with structure, and laws say what
//! it does to the words of a bucket.
#![tactic(auto)]

mod finding;
mod fragments;
pub mod inputs;
mod laws;
pub mod registers;
mod showing;
pub mod statements;
mod storing;
#[cfg(test)]
mod tests;

pub use finding::{find, free, moment};
pub use fragments::{Part, fragment};
pub use laws::{
    expiry_is_put, find_stands, free_ends, item_is_put, items_are_cleared, key_is_copied,
    moment_stands, value_is_stored,
};
pub use showing::{answer_text, if_wanted, load_item, load_uniques, say, show_run, show_value};
pub use storing::{
    clear_items, draw_item, expiry, keep_item, load_call, make_item, put_expiry, put_item,
    remove_item,
};
