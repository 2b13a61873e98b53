//! A connection: its bytes, and how many requests, calls and messages it had.
ghost use Rattle.std.specs.Prelude.{◌≡◌, ◌+◌, ◌*◌, ◌<◌, ◌≤◌, ◌^◌, length, false, OnOk, OnErr};
ghost use Rattle.sei_main.specs.Seats.{Seat, empty_seat, waiting, fed_more, taken_more, stopped};

use sei_code::Memory;
use std::alloc::{AllocError, Global};
use std::marker::Model;

/// How many bytes a connection can be fed. A request has at most 64 calls for each of its bytes, so
/// their number has 64 bits.
const MOST_FED: usize = 1 << 32;

/// A connection: the bytes that were fed to it, how many of them requests took, how many requests that
/// were, and how many calls were answered and messages sent.
#[derive(Drop)]
pub struct Connection {
    fed: Vec<u8>,
    consumed: usize,
    /// How many requests were taken. The count stays at its last value once it stands there.
    requests: u64,
    entered: u64,
    sent: u64,
    closed: bool,
}

impl Model for Connection {
    ghost use Rattle.std.specs.Prelude.{◌≡◌, ◌≤◌, ◌*◌, ◌^◌, length, false};
    ghost use Rattle.sei_main.specs.Seats.{Seat};

    ghost Value = { Seat };

    ghost view = { λ c. record { fed = c.fed.items; consumed = c.consumed; requests = c.requests; entered = c.entered; sent = c.sent; closed = c.closed } };

    ghost invariant = { λ c. (c.consumed ≤ length c.fed.items) × (length c.fed.items ≤ 2 ^ 32) × (c.sent ≤ 64 * length c.fed.items) × (c.closed ≡ false → (c.entered ≤ 64 * c.consumed) × (c.sent ≤ 64 * c.consumed)) };
}

impl Connection {
    pub fn new(alloc: Global) -> Connection
        ensures { result ≡ empty_seat }
    {
        Connection {
            fed: Vec::new(alloc),
            consumed: 0,
            requests: 0,
            entered: 0,
            sent: 0,
            closed: false,
        }
    }

    /// Feeds bytes. The error is that memory ran out, as it does above 2^32 bytes in all.
    pub fn feed(&mut self, bytes: &[u8]) -> Result<(), Memory>
        ensures ok { OnOk result (self.new ≡ fed_more self.old bytes.now) }
        ensures err { OnErr result (self.new ≡ self.old) }
    {
        if bytes.len() > MOST_FED - self.fed.len() {
            return Err(AllocError);
        }
        self.fed.extend_from_slice(bytes)
    }

    /// The bytes that no request took yet.
    pub fn waiting(&self) -> &[u8]
        ensures { result.now ≡ waiting self.now }
    {
        &self.fed.as_slice()[self.consumed..]
    }

    pub fn is_closed(&self) -> bool
        ensures { result ≡ self.now.closed }
    {
        self.closed
    }

    /// How many of its calls were answered, which is the number of the next one.
    pub fn entered(&self) -> u64
        requires open { self.now.closed ≡ false }
        ensures entered { result ≡ self.now.entered }
        ensures room { result + 64 * length (waiting self.now) < 2 ^ 64 }
    {
        self.entered
    }

    /// How many of its requests were taken, which is the number of the next one.
    pub fn requests(&self) -> u64
        ensures { result ≡ self.now.requests }
    {
        self.requests
    }

    /// How many messages were sent to it.
    pub fn sent(&self) -> u64
        ensures { result ≡ self.now.sent }
    {
        self.sent
    }

    /// A request of `size` bytes was answered: with n calls and m messages.
    pub fn took(&mut self, size: usize, calls: u64, messages: u64, closes: bool)
        requires open { self.old.closed ≡ false }
        requires whole { size ≤ length (waiting self.old) }
        requires calls { calls ≤ 64 * size }
        requires messages { messages ≤ calls }
        ensures { self.new ≡ taken_more self.old size calls messages closes }
    {
        let all = self.fed.len();
        prove!(self.consumed + size <= all);
        self.consumed += size;
        self.requests = self.requests.saturating_add(1);
        self.entered += calls;
        self.sent += messages;
        self.closed = closes;
    }

    /// A call of the first request that waits was refused or aborted, after n messages of the
    /// request. Nothing more of the connection is answered.
    pub fn stop(&mut self, messages: u64)
        requires open { self.old.closed ≡ false }
        requires messages { messages ≤ 64 * length (waiting self.old) }
        ensures { self.new ≡ stopped self.old messages }
    {
        self.sent += messages;
        self.closed = true;
    }
}
