//! Compares what two passes did: the entries of their logs, the words of the bucket, the outputs
//! with their codes, and the copy for the wire.
#![tactic(auto)]

mod compare;
#[cfg(test)]
mod tests;

pub use compare::{codes, entry, wire, word, word_on};
