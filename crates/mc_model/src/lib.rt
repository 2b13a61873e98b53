//! Calls, items, the plain server of one thread that answers calls, and bytes packed into words.
#![tactic(auto)]

mod bucket;
mod call;
mod commands;
mod entries;
mod geometry;
mod item;
mod laws;
mod number;
mod outcome;
mod packing;
mod replies;
mod server;
pub mod texts;

pub use call::{CallSpan, Room, Span, Verb};
pub use geometry::Geometry;
pub use item::THIRTY_DAYS;
pub use laws::{
    buckets_stay_within_their_room, calls_leave_the_rest, cas_compares_the_unique,
    get_shows_what_was_stored, noreply_changes_the_reply_alone,
};
pub use number::number_upto;
pub use packing::pack;
pub use server::PlainServer;
pub use texts::text;

#[cfg(test)]
mod tests;
