//! The time: a clock that is set by hand, and the system's clock.
ghost use Rattle.std.specs.Prelude.{◌≡◌, ℕ, ◌<◌, ◌^◌, IfSome, Some, None};
ghost use Rattle.std.specs.declared.option.Option.{Option};
ghost use Rattle.sei_outside.specs.Seconds.{seconds_of};

use std::time::Duration;
use std::{io, time};

/// Tells the time. A clock has no faults, and its time may go back.
pub trait Clock {
    /// The next answer, if the clock tells it.
    ghost told: { Self → Option ℕ };

    /// The whole seconds since the start of 1970.
    fn now(&self) -> u64
        ensures told { IfSome (told self.now) (λ seconds. result ≡ seconds) }
        ensures below { IfSome (told self.now) (λ seconds. seconds < 2 ^ 64) };
}

/// A clock whose time is set by hand.
#[derive(Clone, Copy, Debug, PartialEq, Eq)]
pub struct SetClock {
    /// The whole seconds since the start of 1970 that it answers.
    pub at: u64,
}

impl Clock for SetClock {
    ghost told = { λ clock. Some clock.at };

    fn now(&self) -> u64 {
        self.at
    }
}

/// The clock of the system. It does not tell its answers beforehand.
#[derive(Drop)]
pub struct HostClock<C> {
    inner: C,
}

impl<C> HostClock<C> {
    /// A clock over a clock of std.
    pub fn new(inner: C) -> HostClock<C>
        ensures { result.inner ≡ inner }
    {
        HostClock { inner }
    }
}

/// The whole seconds that a clock of std answered, or 0 for its error.
fn seconds(answer: io::Result<Duration>) -> u64
    ensures { result ≡ seconds_of answer }
{
    match answer {
        Ok(since) => since.as_secs(),
        Err(_) => 0,
    }
}

impl<C: time::Clock> Clock for HostClock<C> {
    ghost told = { λ _. None };

    /// 0 if the system's clock can't be read, or is before 1970.
    fn now(&self) -> u64 {
        seconds(self.inner.since_1970())
    }
}
