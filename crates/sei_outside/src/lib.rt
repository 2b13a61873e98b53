//! Input, output and the time. Programs read from a `Source` and write to a `Sink`. A test passes
//! `MemorySource` and `MemorySink`, whose faults are planned. A program passes `StdSource` and
//! `StdSink`.
#![tactic(auto)]

mod calls;
mod clock;
mod memory;
mod sink;
mod source;
mod std_edge;
#[cfg(test)]
mod tests;
mod whole;

pub use clock::{Clock, HostClock, SetClock};
pub use memory::{MemorySink, MemorySource};
pub use sink::{Sink, Wrote};
pub use source::{Read, Source};
pub use std_edge::{StdSink, StdSource};
pub use whole::{Unread, read_all};
