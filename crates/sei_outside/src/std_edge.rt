//! A source over a reader of std, and a sink over a writer of std. They do not tell their bytes.
ghost use Rattle.std.specs.Prelude.{◌≡◌, ◌≢◌, ◌<◌, ◌≤◌, None, length};
ghost use Rattle.sei_outside.specs.Faults.{Rose};
ghost use Rattle.sei_outside.specs.Reads.{ReadGives, faults_after_read};
ghost use Rattle.sei_outside.specs.StdEdge.{HandsTo};
ghost use Rattle.sei_outside.specs.Writes.{WriteGives, faults_after_write};

use super::{Read, Sink, Source, Wrote};
use std::io;

/// Reads from a reader of std. Each error of the reader is one fault, an interrupted read too.
#[derive(Drop)]
pub struct StdSource<R> {
    inner: R,
    faults: u64,
}

impl<R> StdSource<R> {
    ghost use Rattle.sei_outside.specs.StdEdge.{reader_of, read_faults};

    /// A source over this reader.
    pub fn new(inner: R) -> StdSource<R>
        ensures reader { reader_of result ≡ inner }
        ensures faults { read_faults result ≡ 0 }
    {
        StdSource { inner, faults: 0 }
    }
}

impl<R: io::Read> Source for StdSource<R> {
    ghost use Rattle.sei_outside.specs.StdEdge.{reader_of, read_faults, HandsOn};

    ghost left = { λ _. None };

    ghost faults = { read_faults };

    fn read(&mut self, into: &mut [u8]) -> Read
        requires { 0 < length into.old }
        // More than the trait says: what the reader gives is passed on, and its errors are counted.
        ensures reader { HandsOn (R.remaining (reader_of self.old))
            (R.remaining (reader_of self.new)) into.new result }
        ensures faults { read_faults self.new ≡ faults_after_read result (read_faults self.old) }

        ensures bytes { ReadGives None None into.new result }
        ensures later { read_faults self.old ≤ read_faults self.new }
        ensures cause { result ≡ Read.Failed
            → Rose (read_faults self.old) (read_faults self.new) }
        ensures quiet { result ≢ Read.Failed → read_faults self.new ≡ read_faults self.old }
    {
        match self.inner.read(into) {
            Ok(0) => Read::End,
            Ok(count) => Read::Took(count),
            Err(_) => {
                self.faults = self.faults.saturating_add(1);
                Read::Failed
            }
        }
    }
}

/// Writes to a writer of std, and flushes it after each write. Each error of the writer is one
/// fault.
#[derive(Drop)]
pub struct StdSink<W> {
    inner: W,
    faults: u64,
}

impl<W> StdSink<W> {
    ghost use Rattle.sei_outside.specs.StdEdge.{writer_of, write_faults};

    /// A sink over this writer.
    pub fn new(inner: W) -> StdSink<W>
        ensures writer { writer_of result ≡ inner }
        ensures faults { write_faults result ≡ 0 }
    {
        StdSink { inner, faults: 0 }
    }
}

/// How often one write tries again after an interruption.
const TRIES: u64 = u64::MAX;

/// Passes the bytes on in pieces, as many as the writer takes each time, up to its first error. An
/// interrupted write took nothing, and is tried again.
fn write_pieces<W: io::Write>(writer: &mut W, bytes: &[u8]) -> Wrote
    ensures { HandsTo (W.contents writer.old) (W.contents writer.new) bytes.now result }
{
    let mut at = 0;
    let mut tries = TRIES;
    while at < bytes.len() {
        match writer.write(&bytes[at..]) {
            Ok(0) => return Wrote::Failed,
            Ok(count) => at += count,
            Err(error) => {
                if tries == 0 || error.kind() != io::ErrorKind::Interrupted {
                    return Wrote::Failed;
                }
                tries -= 1;
            }
        }
    }
    Wrote::All
}

/// Writes all the bytes and flushes the writer.
fn write_through<W: io::Write>(writer: &mut W, bytes: &[u8]) -> Wrote
    ensures { HandsTo (W.contents writer.old) (W.contents writer.new) bytes.now result }
{
    if let Wrote::Failed = write_pieces(writer, bytes) {
        return Wrote::Failed;
    }
    match writer.flush() {
        Ok(()) => Wrote::All,
        Err(_) => Wrote::Failed,
    }
}

impl<W: io::Write> Sink for StdSink<W> {
    ghost use Rattle.sei_outside.specs.StdEdge.{writer_of, write_faults};

    ghost written = { λ _. None };

    ghost faults = { write_faults };

    fn write(&mut self, bytes: &[u8]) -> Wrote
        // More than the trait says: the bytes are passed on, and the writer's errors are counted.
        ensures writer { HandsTo (W.contents (writer_of self.old))
            (W.contents (writer_of self.new)) bytes.now result }
        ensures faults { write_faults self.new ≡ faults_after_write result (write_faults self.old) }

        ensures bytes { WriteGives None None bytes.now result }
        ensures later { write_faults self.old ≤ write_faults self.new }
        ensures cause { result ≡ Wrote.Failed
            → Rose (write_faults self.old) (write_faults self.new) }
        ensures quiet { result ≡ Wrote.All → write_faults self.new ≡ write_faults self.old }
    {
        let wrote = write_through(&mut self.inner, bytes);
        if let Wrote::Failed = wrote {
            self.faults = self.faults.saturating_add(1);
        }
        wrote
    }
}
