//! A source and a sink in memory, whose faults are planned.
ghost use Rattle.std.specs.Prelude.{◌≡◌, ◌≢◌, ◌<◌, ◌≤◌, ◌++◌, IfOk, Some, [], drop, length, take, if◌then◌else◌};
ghost use Rattle.sei_outside.specs.Faults.{Rose};
ghost use Rattle.sei_outside.specs.Reads.{ReadGives, taken};
ghost use Rattle.sei_outside.specs.Writes.{WriteGives};
ghost use Rattle.sei_outside.specs.Plan.{first_call, is_due, after_call};
ghost use Rattle.sei_outside.specs.Memory.{next_read, fails_write};

use super::calls::Calls;
use super::{Read, Sink, Source, Wrote};
use std::alloc::{AllocError, Global};
use std::marker::Model;

/// Gives the bytes that it was made with. Each read gives as many as fit into the piece, and a read
/// that fails gives nothing.
#[derive(Drop)]
pub struct MemorySource {
    bytes: Vec<u8>,
    at: usize,
    calls: Calls,
}

impl Model for MemorySource {
    ghost use Rattle.std.specs.Prelude.{◌≤◌, drop, vec_len};
    ghost use Rattle.sei_outside.specs.Memory.{MemoryInput};

    ghost Value = { MemoryInput };

    ghost view = { λ s. record { left = drop s.at s.bytes.items; calls = s.calls } };

    ghost invariant = { λ s. s.at ≤ vec_len s.bytes };
}

impl MemorySource {
    /// A source of these bytes. The reads whose numbers, from 0, are listed fail.
    pub fn new(bytes: Vec<u8>, failing: Vec<u64>) -> MemorySource
        ensures left { result.left ≡ bytes.items }
        ensures calls { result.calls ≡ first_call failing.items }
    {
        MemorySource {
            bytes,
            at: 0,
            calls: Calls::new(failing),
        }
    }

    /// How many reads failed.
    pub fn faults(&self) -> u64
        ensures { result ≡ self.now.calls.faults }
    {
        self.calls.faults()
    }
}

impl Source for MemorySource {
    ghost left = { λ source. Some source.left };

    ghost faults = { λ source. source.calls.faults };

    fn read(&mut self, into: &mut [u8]) -> Read
        requires { 0 < length into.old }
        // More than the trait says: the exact answer, bytes and counts.
        ensures answer { result ≡ next_read self.old (length into.old) }
        ensures given { into.new ≡ take (taken result) self.old.left
            ++ drop (taken result) into.old }
        ensures left { self.new.left ≡ drop (taken result) self.old.left }
        ensures calls { self.new.calls ≡ after_call (is_due self.old.calls) self.old.calls }

        ensures bytes { ReadGives (Some self.old.left) (Some self.new.left) into.new result }
        ensures later { self.old.calls.faults ≤ self.new.calls.faults }
        ensures cause { result ≡ Read.Failed → Rose self.old.calls.faults self.new.calls.faults }
        ensures quiet { result ≢ Read.Failed → self.new.calls.faults ≡ self.old.calls.faults }
    {
        let fails = self.calls.is_due();
        self.calls.count(fails);
        if fails {
            return Read::Failed;
        }
        let rest = self.bytes.len() - self.at;
        if rest == 0 {
            return Read::End;
        }
        let count = rest.min(into.len());
        into[..count].copy_from_slice(&self.bytes[self.at..self.at + count]);
        self.at += count;
        Read::Took(count)
    }
}

/// Keeps what is written to it. Its room, a number of bytes, is fixed when it is made. A write that
/// would exceed it fails, and a write that fails appends nothing. No write takes memory.
#[derive(Drop)]
pub struct MemorySink {
    bytes: Vec<u8>,
    room: usize,
    calls: Calls,
}

impl Model for MemorySink {
    ghost use Rattle.std.specs.Prelude.{◌≤◌, vec_len, vec_capacity};
    ghost use Rattle.sei_outside.specs.Memory.{MemoryOutput};

    ghost Value = { MemoryOutput };

    ghost view = { λ s. record { written = s.bytes.items; room = s.room; calls = s.calls } };

    ghost invariant = { λ s. (vec_len s.bytes ≤ s.room) × (s.room ≤ vec_capacity s.bytes) };
}

impl MemorySink {
    /// An empty sink with this room. The writes whose numbers, from 0, are listed fail.
    pub fn new(alloc: Global, room: usize, failing: Vec<u64>) -> Result<MemorySink, AllocError>
        ensures written { IfOk result (λ sink. sink.written ≡ []) }
        ensures room { IfOk result (λ sink. sink.room ≡ room) }
        ensures calls { IfOk result (λ sink. sink.calls ≡ first_call failing.items) }
    {
        Ok(MemorySink {
            bytes: Vec::with_capacity(alloc, room)?,
            room,
            calls: Calls::new(failing),
        })
    }

    /// The bytes that were written.
    pub fn bytes(&self) -> &[u8]
        ensures { result.now ≡ self.now.written }
    {
        self.bytes.as_slice()
    }

    /// How many writes failed.
    pub fn faults(&self) -> u64
        ensures { result ≡ self.now.calls.faults }
    {
        self.calls.faults()
    }
}

impl Sink for MemorySink {
    ghost written = { λ sink. Some sink.written };

    ghost faults = { λ sink. sink.calls.faults };

    fn write(&mut self, bytes: &[u8]) -> Wrote
        // More than the trait says: the exact answer, bytes and counts.
        ensures answer { result ≡
            (if fails_write self.old bytes.now then Wrote.Failed else Wrote.All) }
        ensures written { self.new.written ≡ (if fails_write self.old bytes.now
            then self.old.written else self.old.written ++ bytes.now) }
        ensures room { self.new.room ≡ self.old.room }
        ensures calls { self.new.calls
            ≡ after_call (fails_write self.old bytes.now) self.old.calls }

        ensures bytes { WriteGives (Some self.old.written) (Some self.new.written)
            bytes.now result }
        ensures later { self.old.calls.faults ≤ self.new.calls.faults }
        ensures cause { result ≡ Wrote.Failed → Rose self.old.calls.faults self.new.calls.faults }
        ensures quiet { result ≡ Wrote.All → self.new.calls.faults ≡ self.old.calls.faults }
    {
        let fits = bytes.len() <= self.room - self.bytes.len();
        let fails = self.calls.is_due() || !fits;
        self.calls.count(fails);
        if fails || self.bytes.extend_from_slice(bytes).is_err() {
            return Wrote::Failed;
        }
        Wrote::All
    }
}
