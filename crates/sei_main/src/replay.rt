//! The top call that runs a script and writes its report, with the headline.
ghost use Rattle.std.specs.Prelude.{◌≡◌, ◌≢◌, ◌+◌, ◌<◌, ◌≤◌, IfSome, IfOk, OnOk, true};
ghost use Rattle.std.specs.Io.KnownBytes.{IsAtEnd, append_known};
ghost use Rattle.sei_outside.specs.Faults.{Rose};
ghost use Rattle.sei_outside.specs.Bytes.{WrotePart};
ghost use Rattle.sei_outside.specs.Reads.{TookAtMost};
ghost use Rattle.mc_model.specs.Server.{IsValid};
ghost use Rattle.sei_script.specs.Context.{empty_context, geometry_of};
ghost use Rattle.sei_script.specs.Fit.{AreFit};
ghost use Rattle.sei_script.specs.Limits.{script_limit};
ghost use Rattle.sei_main.specs.State.{limits_of};
ghost use Rattle.sei_main.specs.Run.{run_by, run_of};
ghost use Rattle.sei_main.specs.Serving.{step_by};
ghost use Rattle.sei_main.specs.Report.{report_of};
ghost use Rattle.sei_main.specs.Headline.{IsLegalRun, IsNumberedRun, SendsRepliesRun, NothingAfterAbortRun, OnlyStruckAbortsRun, WhenQuiet, IsPlain, PlansFault, AnswersAllRun};
ghost use Rattle.sei_main.specs.Answers.{StatusSays, OnInput, IfScript, WrotePlainPart, HasRun, IsReplayStatus, Refused, IsDecidedBy, reading_in};

use crate::plans::Plans;
use crate::report::write_closing;
use crate::status::Status;
use crate::tables::TableServer;
use crate::world::{Service, World};
use sei_outside::{Sink, Source, Unread, read_all};
use sei_script::{
    LIMIT, Reporter, Script, ScriptFault, Stop, Why, read_script, refusal_text, write_text,
};
use std::alloc::Global;

/// Runs a script on a server that was asked nothing yet, with its planned faults, and writes its report
/// as things happen. Whether a traversal was aborted.
fn run_on<S: Service + Drop, K: Sink>(
    reporter: Reporter,
    server: S,
    script: &Script,
    sink: &mut K,
) -> Result<bool, Stop>
    requires fit { AreFit empty_context script.now }
    requires geometry { IsValid (geometry_of script.now) }
    requires limits { S.limits server ≡ limits_of (geometry_of script.now) }
    ensures aborted { IfOk result (λ aborted. aborted ≡ (run_by (step_by S.answering) server script.now).state.aborted) }
    ensures all { OnOk result (K.written sink.new ≡ append_known (K.written sink.old) (report_of reporter.history (run_by (step_by S.answering) server script.now))) }
    ensures part { WrotePart (K.written sink.old) (K.written sink.new) (report_of reporter.history (run_by (step_by S.answering) server script.now)) }
    ensures fault { result ≡ Err Stop.WriteFault → Rose (K.faults sink.old) (K.faults sink.new) }
    ensures told { K.faults sink.old < K.faults sink.new → result ≡ Err Stop.WriteFault }
    ensures later { K.faults sink.old ≤ K.faults sink.new }
{
    let plans = match Plans::of(reporter.alloc, script) {
        Err(_) => return Err(Stop::Memory),
        Ok(plans) => plans,
    };
    let mut world = World::new(reporter.alloc, script.geometry(), server, plans);
    for line in script.lines() {
        world.apply(reporter, line, sink)?;
    }
    let aborted = world.is_aborted();
    write_closing(reporter.alloc, sink, world.connections(), aborted)?;
    Ok(aborted)
}

/// Runs a script with its planned faults, and writes its report as things happen. Whether a traversal
/// was aborted.
fn run_script<K: Sink>(reporter: Reporter, script: &Script, sink: &mut K) -> Result<bool, Stop>
    requires fit { AreFit empty_context script.now }
    requires geometry { IsValid (geometry_of script.now) }
    ensures aborted { IfOk result (λ aborted. aborted ≡ (run_of script.now).state.aborted) }
    ensures all { OnOk result (K.written sink.new ≡ append_known (K.written sink.old) (report_of reporter.history (run_of script.now))) }
    ensures part { WrotePart (K.written sink.old) (K.written sink.new) (report_of reporter.history (run_of script.now)) }
    ensures fault { result ≡ Err Stop.WriteFault → Rose (K.faults sink.old) (K.faults sink.new) }
    ensures told { K.faults sink.old < K.faults sink.new → result ≡ Err Stop.WriteFault }
    ensures later { K.faults sink.old ≤ K.faults sink.new }
{
    match TableServer::new(reporter.alloc, script.geometry()) {
        Err(_) => Err(Stop::Memory),
        Ok(server) => run_on(reporter, server, script, sink),
    }
}

/// Writes why a script is refused.
fn refuse<K: Sink>(alloc: Global, sink: &mut K, line: u64, why: Why) -> Status
    ensures status { IsReplayStatus result }
    ensures answer { Refused (K.written sink.old) (K.written sink.new) line why result }
    ensures read_fault { result ≢ Status.ReadFault }
    ensures write_fault { result ≡ Status.WriteFault → Rose (K.faults sink.old) (K.faults sink.new) }
    ensures write_told { K.faults sink.old < K.faults sink.new → result ≡ Status.WriteFault }
    ensures later { K.faults sink.old ≤ K.faults sink.new }
{
    match refusal_text(alloc, line, why) {
        Err(_) => Status::Memory,
        Ok(text) => match write_text(sink, text.as_slice()) {
            Ok(()) => Status::Script { line, why },
            Err(Stop::Memory) => Status::Memory,
            Err(Stop::WriteFault) => Status::WriteFault,
        },
    }
}

/// Checks and runs the text of a script.
fn replay_text<K: Sink>(alloc: Global, text: Vec<u8>, sink: &mut K, history: bool) -> Status
    ensures status { IsReplayStatus result }
    ensures answer { StatusSays history (reading_in text.items) (K.written sink.old) (K.written sink.new) result }
    ensures read_fault { result ≢ Status.ReadFault }
    ensures write_fault { result ≡ Status.WriteFault → Rose (K.faults sink.old) (K.faults sink.new) }
    ensures write_told { K.faults sink.old < K.faults sink.new → result ≡ Status.WriteFault }
    ensures later { K.faults sink.old ≤ K.faults sink.new }
{
    let reading = read_script(alloc, text.as_slice());
    drop(text);
    match reading {
        Err(ScriptFault::Memory) => Status::Memory,
        Err(ScriptFault::Line { line, why }) => refuse(alloc, sink, line, why),
        Ok(script) => match run_script(Reporter { alloc, history }, &script, sink) {
            Ok(false) => Status::Ok,
            Ok(true) => Status::Aborted,
            Err(Stop::Memory) => Status::Memory,
            Err(Stop::WriteFault) => Status::WriteFault,
        },
    }
}

/// The work of `replay`, without what is claimed of a run.
fn replay_all<S: Source, K: Sink>(
    alloc: Global,
    source: &mut S,
    sink: &mut K,
    history: bool,
) -> Status
    ensures answer { IfSome (S.left source.old) (λ input. StatusSays history (reading_in input) (K.written sink.old) (K.written sink.new) result) }
    ensures status { IsReplayStatus result }
    ensures read_to_end { result ≡ Status.Ok → IsAtEnd (S.left source.new) }
    ensures aborted_at_end { result ≡ Status.Aborted → IsAtEnd (S.left source.new) }
    ensures taken { TookAtMost (script_limit + 1) (S.left source.old) (S.left source.new) }
    ensures read_fault { result ≡ Status.ReadFault → Rose (S.faults source.old) (S.faults source.new) }
    ensures read_told { S.faults source.old < S.faults source.new → result ≡ Status.ReadFault }
    ensures write_fault { result ≡ Status.WriteFault → Rose (K.faults sink.old) (K.faults sink.new) }
    ensures write_told { K.faults sink.old < K.faults sink.new → result ≡ Status.WriteFault }
    ensures read_later { S.faults source.old ≤ S.faults source.new }
    ensures write_later { K.faults sink.old ≤ K.faults sink.new }
{
    match read_all(alloc, source, LIMIT) {
        Err(Unread::Memory) => Status::Memory,
        Err(Unread::Failed) => Status::ReadFault,
        Err(Unread::TooBig) => refuse(alloc, sink, 0, Why::TooBig),
        Ok(text) => replay_text(alloc, text, sink, history),
    }
}

/// Reads a whole script from `source`, checks it, runs it, and writes its report to `sink`, a line at
/// a time; with `history` also a line for each entry.
///
/// It always returns. On a script that does not read it writes one line, `script line N: why`. A read
/// that fails ends it before anything is written, and a write that fails at once. At most one byte more
/// than a script may have is taken from the source. Nothing is said of the bytes of a source or a sink
/// that does not tell them.
pub fn replay<S: Source, K: Sink>(
    alloc: Global,
    source: &mut S,
    sink: &mut K,
    history: bool,
) -> Status
    // What each answer means, and what was written then: on Ok and Aborted exactly the report of the script's run with its planned faults.
    ensures answer { IfSome (S.left source.old) (λ input. StatusSays history (reading_in input) (K.written sink.old) (K.written sink.new) result) }
    ensures status { IsReplayStatus result }
    ensures read_to_end { result ≡ Status.Ok → IsAtEnd (S.left source.new) }
    ensures aborted_at_end { result ≡ Status.Aborted → IsAtEnd (S.left source.new) }
    ensures taken { TookAtMost (script_limit + 1) (S.left source.old) (S.left source.new) }
    ensures read_fault { result ≡ Status.ReadFault → Rose (S.faults source.old) (S.faults source.new) }
    ensures read_told { S.faults source.old < S.faults source.new → result ≡ Status.ReadFault }
    ensures write_fault { result ≡ Status.WriteFault → Rose (K.faults sink.old) (K.faults sink.new) }
    ensures write_told { K.faults sink.old < K.faults sink.new → result ≡ Status.WriteFault }
    ensures read_later { S.faults source.old ≤ S.faults source.new }
    ensures write_later { K.faults sink.old ≤ K.faults sink.new }
    // Where no fault comes, the script alone decides between Ok, Aborted and its first bad line, want of memory aside.
    ensures complete { ¬ Rose (S.faults source.old) (S.faults source.new) → ¬ Rose (K.faults sink.old) (K.faults sink.new)
        → IsDecidedBy (S.left source.old) result }

    // Whatever faults are planned: the entries of a run are one legal history of a memcached of one thread,
    ensures legal { HasRun result → OnInput (S.left source.old) IsLegalRun }
    // numbered in order for each connection, and their calls are the first of its own;
    ensures numbered { HasRun result → OnInput (S.left source.old) IsNumberedRun }
    // each connection is sent the messages of its first entries;
    ensures sent { HasRun result → OnInput (S.left source.old) SendsRepliesRun }
    // the run has an abort exactly where an event tells one, and nothing happens behind it;
    ensures nothing_after_abort { HasRun result → OnInput (S.left source.old) NothingAfterAbortRun }
    // and a traversal aborts, or a connection is refused, only where a strike fell in that traversal.
    ensures only_struck_aborts { HasRun result → OnInput (S.left source.old) OnlyStruckAbortsRun }
    // A script that plans no fault is run as on the plain server, and is never aborted;
    ensures quiet { HasRun result → OnInput (S.left source.old) (WhenQuiet (IsPlain history)) }
    // and at any end what was written of it is a first part of the plain server's report;
    ensures quiet_part { IfScript (S.left source.old) (WhenQuiet (WrotePlainPart history (K.written sink.old) (K.written sink.new))) }
    ensures planned { result ≡ Status.Aborted → OnInput (S.left source.old) PlansFault }
    // and behind a last `drain` of it, all calls are answered and all replies sent.
    ensures all_answered { HasRun result → OnInput (S.left source.old) AnswersAllRun }
{
    replay_all(alloc, source, sink, history)
}

#[cfg(test)]
mod tests {
    use super::*;
    use mc_model::PlainServer;
    use sei_outside::MemorySink;
    use std::test::Fail;

    /// Items that are made, replaced, read, expired and refused, in two buckets of two slots each.
    const SCRIPT: &[u8] = b"geometry 2 2 3
open 0 plain
say 0 set a 7 0 3\\r\\nabc\\r\\nget a b\\r\\nset a 0 0 0\\r\\n\\r\\nget a\\r\\n
drain
say 0 set b 1 100 24\\r\\n012345678901234567890123\\r\\nset c 2 -1 1\\r\\nx\\r\\nget c b a c\\r\\n
say 0 set d 0 0 1 noreply\\r\\nd\\r\\nset e 4294967295 2592001 2\\r\\nee\\r\\nget d e\\r\\n
drain
say 0 set f 0 0 1\\r\\nf\\r\\nset g 0 0 1\\r\\ng\\r\\nset h 0 0 1\\r\\nh\\r\\nget a b c d e f g h\\r\\n
say 0 set a 0 0 25\\r\\n0123456789012345678901234\\r\\nversion\\r\\nverbosity 1 noreply\\r\\nnone\\r\\n
drain
";

    #[test]
    fn words_answer_as_the_plain_server(rt: HostRuntime) -> Result<(), Fail> {
        let alloc = rt.alloc();
        match read_script(alloc, SCRIPT) {
            Err(_) => assert!(rt; false, "the script reads"),
            Ok(script) => {
                let reporter = Reporter {
                    alloc,
                    history: true,
                };
                let mut plain = MemorySink::new(alloc, 100_000, Vec::new(alloc))?;
                let server = PlainServer::new(alloc, script.geometry())?;
                assert!(rt; run_on(reporter, server, &script, &mut plain).is_ok());
                let mut words = MemorySink::new(alloc, 100_000, Vec::new(alloc))?;
                let server = TableServer::new(alloc, script.geometry())?;
                assert!(rt; run_on(reporter, server, &script, &mut words).is_ok());
                assert_eq!(rt; words.bytes(), plain.bytes());
                assert!(rt; words.bytes().len() > 1000);
            }
        }
        Ok(())
    }
}
