//! Each call through its bound, with faults in mid-stream.
ghost use Rattle.std.specs.Prelude.{◌<◌, length};

use super::*;
use std::io;
use std::test::Fail;

fn take<S: Source>(source: &mut S, into: &mut [u8]) -> Read
    requires { 0 < length into.old }
{
    source.read(into)
}

fn put<K: Sink>(sink: &mut K, bytes: &[u8]) -> Wrote {
    sink.write(bytes)
}

#[test]
fn memory_source_goes_on_after_a_fault(rt: HostRuntime) -> Result<(), Fail> {
    let alloc = rt.alloc();
    let mut source = MemorySource::new(b"abcde".to_vec(alloc)?, [1].to_vec(alloc)?);
    let mut piece = [0u8; 3];
    assert_eq!(rt; take(&mut source, &mut piece), Read::Took(3));
    assert_eq!(rt; piece, *b"abc");
    assert_eq!(rt; take(&mut source, &mut piece), Read::Failed);
    assert_eq!(rt; piece, *b"abc");
    assert_eq!(rt; take(&mut source, &mut piece), Read::Took(2));
    assert_eq!(rt; piece, *b"dec");
    assert_eq!(rt; take(&mut source, &mut piece), Read::End);
    assert_eq!(rt; source.faults(), 1);
    Ok(())
}

#[test]
fn memory_sink_keeps_what_was_written(rt: HostRuntime) -> Result<(), Fail> {
    let alloc = rt.alloc();
    let mut sink = MemorySink::new(alloc, 6, [1].to_vec(alloc)?)?;
    assert_eq!(rt; put(&mut sink, b"abcd"), Wrote::All);
    assert_eq!(rt; put(&mut sink, b"ef"), Wrote::Failed, "planned");
    assert_eq!(rt; put(&mut sink, b"efg"), Wrote::Failed, "past the room");
    assert_eq!(rt; put(&mut sink, b"ef"), Wrote::All);
    assert_eq!(rt; sink.bytes(), b"abcdef".as_slice());
    assert_eq!(rt; sink.faults(), 2);
    Ok(())
}

#[test]
fn reads_all_up_to_the_limit(rt: HostRuntime) -> Result<(), Fail> {
    let alloc = rt.alloc();
    let mut bytes = vec![in alloc; b'a'; 9000]?;
    bytes.push(b'z')?;
    let mut source = MemorySource::new(bytes.to_vec(alloc)?, Vec::new(alloc));
    assert_eq!(rt; read_all(alloc, &mut source, 9001)?, bytes);
    let mut source = MemorySource::new(bytes.to_vec(alloc)?, Vec::new(alloc));
    assert!(rt; matches!(read_all(alloc, &mut source, 9000), Err(Unread::TooBig)));
    let mut source = MemorySource::new(bytes, [2].to_vec(alloc)?);
    assert!(rt; matches!(read_all(alloc, &mut source, 9001), Err(Unread::Failed)));
    Ok(())
}

/// A reader of one byte, and a writer. Its second call fails, and later ones do not.
#[derive(Drop)]
struct FailsSecond {
    calls: u8,
    flushes: u8,
}

impl FailsSecond {
    fn new() -> FailsSecond {
        FailsSecond {
            calls: 0,
            flushes: 0,
        }
    }

    fn call(&mut self) -> io::Result<()> {
        self.calls = self.calls.saturating_add(1);
        if self.calls == 2 {
            return Err(io::ErrorKind::BrokenPipe.into());
        }
        Ok(())
    }
}

impl io::Read for FailsSecond {
    fn read(&mut self, buf: &mut [u8]) -> io::Result<usize> {
        self.call()?;
        if self.calls > 1 {
            return Ok(0);
        }
        buf.fill(b'a');
        Ok(buf.len().min(1))
    }
}

impl io::Write for FailsSecond {
    fn write(&mut self, buf: &[u8]) -> io::Result<usize> {
        self.call()?;
        Ok(buf.len())
    }

    fn flush(&mut self) -> io::Result<()> {
        self.flushes = self.flushes.saturating_add(1);
        Ok(())
    }
}

#[test]
fn std_source_hands_on(rt: HostRuntime) {
    let mut piece = [0u8; 4];
    let mut source = StdSource::new(b"abcde".as_slice());
    assert_eq!(rt; take(&mut source, &mut piece), Read::Took(4));
    assert_eq!(rt; piece, *b"abcd");
    assert_eq!(rt; take(&mut source, &mut piece), Read::Took(1));
    assert_eq!(rt; take(&mut source, &mut piece), Read::End);

    let mut source = StdSource::new(FailsSecond::new());
    assert_eq!(rt; take(&mut source, &mut piece), Read::Took(1));
    assert_eq!(rt; take(&mut source, &mut piece), Read::Failed);
    assert_eq!(rt; take(&mut source, &mut piece), Read::End);
}

#[test]
fn std_sink_hands_on(rt: HostRuntime) {
    let mut written = Vec::new(rt.alloc());
    let mut sink = StdSink::new(&mut written);
    assert_eq!(rt; put(&mut sink, b"abc"), Wrote::All);
    assert_eq!(rt; put(&mut sink, b"de"), Wrote::All);
    assert_eq!(rt; written.as_slice(), b"abcde".as_slice());

    let mut writer = FailsSecond::new();
    let mut sink = StdSink::new(&mut writer);
    assert_eq!(rt; put(&mut sink, b"abc"), Wrote::All);
    assert_eq!(rt; put(&mut sink, b"de"), Wrote::Failed);
    assert_eq!(rt; put(&mut sink, b"de"), Wrote::All);
    assert_eq!(rt; writer.flushes, 2);
}

/// A writer that takes two bytes at most, and keeps them. Its first write is interrupted, and its
/// second flush fails.
#[derive(Drop)]
struct TakesTwo {
    kept: Vec<u8>,
    writes: u8,
    flushes: u8,
}

impl io::Write for TakesTwo {
    fn write(&mut self, buf: &[u8]) -> io::Result<usize> {
        self.writes = self.writes.saturating_add(1);
        if self.writes == 1 {
            return Err(io::ErrorKind::Interrupted.into());
        }
        let count = buf.len().min(2);
        self.kept.extend_from_slice(&buf[..count])?;
        Ok(count)
    }

    fn flush(&mut self) -> io::Result<()> {
        self.flushes = self.flushes.saturating_add(1);
        if self.flushes == 2 {
            return Err(io::ErrorKind::BrokenPipe.into());
        }
        Ok(())
    }
}

#[test]
fn each_write_is_flushed(rt: HostRuntime) {
    let mut writer = TakesTwo {
        kept: Vec::new(rt.alloc()),
        writes: 0,
        flushes: 0,
    };
    let mut sink = StdSink::new(&mut writer);
    assert_eq!(rt; put(&mut sink, b"abcde"), Wrote::All, "in three pieces");
    assert_eq!(rt; put(&mut sink, b"fg"), Wrote::Failed, "not flushed");
    assert_eq!(rt; put(&mut sink, b""), Wrote::All);
    assert_eq!(rt; writer.kept.as_slice(), b"abcdefg".as_slice());
    assert_eq!(rt; writer.writes, 5);
    assert_eq!(rt; writer.flushes, 3);
}

fn asked<C: Clock>(clock: &C) -> u64 {
    clock.now()
}

#[test]
fn clocks_tell_the_time(rt: HostRuntime) {
    let mut clock = SetClock { at: 7 };
    assert_eq!(rt; asked(&clock), 7);
    clock.at = 3;
    assert_eq!(rt; asked(&clock), 3);
    // Later than the start of 2024, and earlier than that of 2200.
    let host = asked(&HostClock::new(&rt));
    assert!(rt; 1_704_067_200 < host && host < 7_258_118_400);
}
