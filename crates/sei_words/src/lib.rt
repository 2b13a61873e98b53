//! The words of a bucket, which are numbers of 64 bits. This crate says where the parts of an item
//! are, which slots are free, and for which bucket of the model the words stand.
#![tactic(auto)]

pub mod layout;
mod lent;
#[cfg(test)]
mod tests;
mod words;

pub use lent::{Lent, NoBucket};
pub use words::Words;
