//! The world of a script: one server, and the connections that ask it.

mod connection;
mod service;
mod state;

pub use connection::Connection;
pub use service::{Entered, Numbers, Served, Service};
pub use state::World;
