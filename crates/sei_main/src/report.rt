//! The last lines of a report: what each connection took, and the end.
ghost use Rattle.std.specs.Prelude.{◌≡◌, ◌<◌, ◌≤◌, ◌^◌, ◌++◌, length, OnOk};
ghost use Rattle.std.specs.Io.KnownBytes.{append_known};
ghost use Rattle.sei_outside.specs.Faults.{Rose};
ghost use Rattle.sei_outside.specs.Bytes.{WrotePart};
ghost use Rattle.sei_script.specs.AbortLines.{end_text};
ghost use Rattle.sei_main.specs.Report.{seat_text, seats_text};

use crate::world::Connection;
use sei_outside::Sink;
use sei_script::{Stop, end_text, left_text, took_text, write_text};
use std::alloc::Global;

/// Writes the last lines of a connection.
fn write_seat<K: Sink>(
    alloc: Global,
    sink: &mut K,
    c: u32,
    connection: &Connection,
) -> Result<(), Stop>
    ensures all { OnOk result (K.written sink.new ≡ append_known (K.written sink.old) (seat_text c connection.now)) }
    ensures part { WrotePart (K.written sink.old) (K.written sink.new) (seat_text c connection.now) }
    ensures fault { result ≡ Err Stop.WriteFault → Rose (K.faults sink.old) (K.faults sink.new) }
    ensures told { K.faults sink.old < K.faults sink.new → result ≡ Err Stop.WriteFault }
    ensures later { K.faults sink.old ≤ K.faults sink.new }
{
    match took_text(alloc, c, connection.sent()) {
        Err(_) => Err(Stop::Memory),
        Ok(took) => {
            write_text(sink, took.as_slice())?;
            match left_text(alloc, c, connection.waiting().len()) {
                Err(_) => Err(Stop::Memory),
                Ok(left) => write_text(sink, left.as_slice()),
            }
        }
    }
}

/// Writes the last lines of a report: those of the connections, and whether there was an abort.
pub fn write_closing<K: Sink>(
    alloc: Global,
    sink: &mut K,
    connections: &[Connection],
    aborted: bool,
) -> Result<(), Stop>
    requires { length connections.now < 2 ^ 32 }
    ensures all { OnOk result (K.written sink.new ≡ append_known (K.written sink.old) (seats_text 0 connections.now ++ end_text aborted)) }
    ensures part { WrotePart (K.written sink.old) (K.written sink.new) (seats_text 0 connections.now ++ end_text aborted) }
    ensures fault { result ≡ Err Stop.WriteFault → Rose (K.faults sink.old) (K.faults sink.new) }
    ensures told { K.faults sink.old < K.faults sink.new → result ≡ Err Stop.WriteFault }
    ensures later { K.faults sink.old ≤ K.faults sink.new }
{
    for (i, connection) in connections.iter().enumerate() {
        write_seat(alloc, sink, i as u32, connection)?;
    }
    write_text(sink, end_text(aborted))
}
