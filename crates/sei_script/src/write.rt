//! How a report is written, one line in one write.
ghost use Rattle.std.specs.Prelude.{◌≡◌, ◌<◌, ◌≤◌, [], OnOk, IfOk};
ghost use Rattle.std.specs.Io.KnownBytes.{append_known};
ghost use Rattle.sei_outside.specs.Faults.{Rose};
ghost use Rattle.sei_outside.specs.Bytes.{WrotePart};
ghost use Rattle.sei_script.specs.AbortLines.{abort_text};
ghost use Rattle.sei_script.specs.ReportLines.{has_message, history_text, message_text, closing_line_text, refused_text};

use super::aborts::abort_text;
use super::texts::{closed_text, entry_text, refused_text, sent_text};
use sei_fault::{AbortCause, Phase};
use sei_outside::{Sink, Wrote};
use std::alloc::Global;

/// Why a report was not written to its end.
#[derive(Clone, Copy, Debug, PartialEq, Eq)]
pub enum Stop {
    Memory,
    WriteFault,
}

/// Writes a text in one write, and an empty one in none.
pub fn write_text<K: Sink>(sink: &mut K, text: &[u8]) -> Result<(), Stop>
    ensures all { OnOk result (K.written sink.new ≡ append_known (K.written sink.old) text.now) }
    ensures part { WrotePart (K.written sink.old) (K.written sink.new) text.now }
    ensures none { text.now ≡ [] → sink.new ≡ sink.old }
    ensures memory { result ≡ Err Stop.Memory → ⊥ }
    ensures fault { result ≡ Err Stop.WriteFault → Rose (K.faults sink.old) (K.faults sink.new) }
    ensures told { K.faults sink.old < K.faults sink.new → result ≡ Err Stop.WriteFault }
    ensures later { K.faults sink.old ≤ K.faults sink.new }
{
    if text.is_empty() {
        return Ok(());
    }
    match sink.write(text) {
        Wrote::All => Ok(()),
        Wrote::Failed => Err(Stop::WriteFault),
    }
}

/// Writes what happens, with the history or without it.
#[derive(Clone, Copy)]
pub struct Reporter {
    pub alloc: Global,
    pub history: bool,
}

impl Reporter {
    /// The line of an entry, if the history is wanted.
    pub fn write_entry<K: Sink>(
        &self,
        sink: &mut K,
        connection: u32,
        number: u64,
        bucket: u64,
        now: u64,
        reply: &[u8],
    ) -> Result<(), Stop>
        ensures all { OnOk result (K.written sink.new ≡ append_known (K.written sink.old) (history_text self.now.history connection number bucket now reply.now)) }
        ensures part { WrotePart (K.written sink.old) (K.written sink.new) (history_text self.now.history connection number bucket now reply.now) }
        ensures fault { result ≡ Err Stop.WriteFault → Rose (K.faults sink.old) (K.faults sink.new) }
        ensures told { K.faults sink.old < K.faults sink.new → result ≡ Err Stop.WriteFault }
        ensures later { K.faults sink.old ≤ K.faults sink.new }
    {
        if !self.history {
            return Ok(());
        }
        match entry_text(self.alloc, connection, number, bucket, now, reply) {
            Err(_) => Err(Stop::Memory),
            Ok(text) => write_text(sink, text.as_slice()),
        }
    }

    /// The line of a reply's message, if it has one.
    pub fn write_message<K: Sink>(&self, sink: &mut K, c: u32, reply: &[u8]) -> Result<bool, Stop>
        ensures sent { IfOk result (λ sent. sent ≡ has_message reply.now) }
        ensures all { OnOk result (K.written sink.new ≡ append_known (K.written sink.old) (message_text c reply.now)) }
        ensures part { WrotePart (K.written sink.old) (K.written sink.new) (message_text c reply.now) }
        ensures fault { result ≡ Err Stop.WriteFault → Rose (K.faults sink.old) (K.faults sink.new) }
        ensures told { K.faults sink.old < K.faults sink.new → result ≡ Err Stop.WriteFault }
        ensures later { K.faults sink.old ≤ K.faults sink.new }
    {
        if reply.is_empty() {
            return Ok(false);
        }
        match sent_text(self.alloc, c, reply) {
            Err(_) => Err(Stop::Memory),
            Ok(text) => match write_text(sink, text.as_slice()) {
                Err(stop) => Err(stop),
                Ok(()) => Ok(true),
            },
        }
    }

    /// The line of a connection that closes.
    pub fn write_closed<K: Sink>(&self, sink: &mut K, c: u32, closes: bool) -> Result<(), Stop>
        ensures all { OnOk result (K.written sink.new ≡ append_known (K.written sink.old) (closing_line_text c closes)) }
        ensures part { WrotePart (K.written sink.old) (K.written sink.new) (closing_line_text c closes) }
        ensures fault { result ≡ Err Stop.WriteFault → Rose (K.faults sink.old) (K.faults sink.new) }
        ensures told { K.faults sink.old < K.faults sink.new → result ≡ Err Stop.WriteFault }
        ensures later { K.faults sink.old ≤ K.faults sink.new }
    {
        if !closes {
            return Ok(());
        }
        match closed_text(self.alloc, c) {
            Err(_) => Err(Stop::Memory),
            Ok(text) => write_text(sink, text.as_slice()),
        }
    }

    /// The line of a connection that is refused.
    pub fn write_refused<K: Sink>(&self, sink: &mut K, c: u32) -> Result<(), Stop>
        ensures all { OnOk result (K.written sink.new ≡ append_known (K.written sink.old) (refused_text c)) }
        ensures part { WrotePart (K.written sink.old) (K.written sink.new) (refused_text c) }
        ensures fault { result ≡ Err Stop.WriteFault → Rose (K.faults sink.old) (K.faults sink.new) }
        ensures told { K.faults sink.old < K.faults sink.new → result ≡ Err Stop.WriteFault }
        ensures later { K.faults sink.old ≤ K.faults sink.new }
    {
        match refused_text(self.alloc, c) {
            Err(_) => Err(Stop::Memory),
            Ok(text) => write_text(sink, text.as_slice()),
        }
    }

    /// The line of an abort of traversal `t` of connection `c`.
    pub fn write_abort<K: Sink>(
        &self,
        sink: &mut K,
        c: u32,
        t: u64,
        phase: Phase,
        cause: AbortCause,
    ) -> Result<(), Stop>
        ensures all { OnOk result (K.written sink.new ≡ append_known (K.written sink.old) (abort_text c t phase cause)) }
        ensures part { WrotePart (K.written sink.old) (K.written sink.new) (abort_text c t phase cause) }
        ensures fault { result ≡ Err Stop.WriteFault → Rose (K.faults sink.old) (K.faults sink.new) }
        ensures told { K.faults sink.old < K.faults sink.new → result ≡ Err Stop.WriteFault }
        ensures later { K.faults sink.old ≤ K.faults sink.new }
    {
        match abort_text(self.alloc, c, t, phase, cause) {
            Err(_) => Err(Stop::Memory),
            Ok(text) => write_text(sink, text.as_slice()),
        }
    }
}
