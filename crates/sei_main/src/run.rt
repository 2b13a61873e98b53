//! The top call of the program: the command line, and the replay that it asks for.
ghost use Rattle.std.specs.Prelude.{◌≡◌, ◌+◌, ◌<◌, ◌≤◌, true, false, IfSome, map, string_bytes};
ghost use Rattle.std.specs.Io.KnownBytes.{IsAtEnd};
ghost use Rattle.sei_outside.specs.Faults.{Rose};
ghost use Rattle.sei_outside.specs.Reads.{TookAtMost};
ghost use Rattle.sei_script.specs.Limits.{script_limit};
ghost use Rattle.sei_main.specs.Headline.{IsLegalRun, IsNumberedRun, SendsRepliesRun, NothingAfterAbortRun, OnlyStruckAbortsRun, WhenQuiet, IsPlain, PlansFault, AnswersAllRun};
ghost use Rattle.sei_main.specs.Answers.{StatusSays, OnInput, IfScript, WrotePlainPart, HasRun, IsDecidedBy, IsReplayStatus, reading_in};
ghost use Rattle.sei_main.specs.Forms.{is_replay, UsageWritten};

use crate::replay::replay;
use crate::status::Status;
use sei_outside::{Sink, Source};
use sei_script::{Stop, write_text};
use std::alloc::Global;

/// The line that is written if the words are no form.
const USAGE: &[u8] =
    b"usage: replay [history] | trial <number> <connections> <requests> <faults> | serve <buckets> <slots> <value words> <workers> <journal bytes>\n";

fn is_replay(words: &[String]) -> bool
    ensures { result ≡ is_replay (map string_bytes words.now) }
{
    match words {
        [word] => word.as_str() == "replay",
        _ => false,
    }
}

fn usage<K: Sink>(sink: &mut K) -> Status
    ensures wrote { UsageWritten (K.written sink.old) (K.written sink.new) result }
    ensures later { K.faults sink.old ≤ K.faults sink.new }
    ensures fault { result ≡ Status.WriteFault → Rose (K.faults sink.old) (K.faults sink.new) }
    ensures told { K.faults sink.old < K.faults sink.new → result ≡ Status.WriteFault }
{
    match write_text(sink, USAGE) {
        Ok(()) => Status::Usage,
        Err(_) => Status::WriteFault,
    }
}

/// Does what the words of the command line ask for. The one form is `replay`: a script from `source`,
/// its report to `sink`. Other words get the usage line.
pub fn run<S: Source, K: Sink>(
    alloc: Global,
    words: &[String],
    source: &mut S,
    sink: &mut K,
) -> Status
    ensures usage { is_replay (map string_bytes words.now) ≡ false → UsageWritten (K.written sink.old) (K.written sink.new) result }
    ensures only_usage { result ≡ Status.Usage → is_replay (map string_bytes words.now) ≡ false }
    ensures read_fault { result ≡ Status.ReadFault → Rose (S.faults source.old) (S.faults source.new) }
    ensures read_told { S.faults source.old < S.faults source.new → result ≡ Status.ReadFault }
    ensures write_fault { result ≡ Status.WriteFault → Rose (K.faults sink.old) (K.faults sink.new) }
    ensures write_told { K.faults sink.old < K.faults sink.new → result ≡ Status.WriteFault }
    ensures read_later { S.faults source.old ≤ S.faults source.new }
    ensures write_later { K.faults sink.old ≤ K.faults sink.new }

    // For the word `replay`: as `replay` says.
    ensures status { is_replay (map string_bytes words.now) ≡ true → IsReplayStatus result }
    ensures answer { is_replay (map string_bytes words.now) ≡ true → IfSome (S.left source.old) (λ input. StatusSays false (reading_in input) (K.written sink.old) (K.written sink.new) result) }
    ensures read_to_end { result ≡ Status.Ok → IsAtEnd (S.left source.new) }
    ensures aborted_at_end { result ≡ Status.Aborted → IsAtEnd (S.left source.new) }
    ensures taken { is_replay (map string_bytes words.now) ≡ true → TookAtMost (script_limit + 1) (S.left source.old) (S.left source.new) }
    ensures complete { is_replay (map string_bytes words.now) ≡ true → ¬ Rose (S.faults source.old) (S.faults source.new) → ¬ Rose (K.faults sink.old) (K.faults sink.new)
        → IsDecidedBy (S.left source.old) result }
    ensures legal { HasRun result → OnInput (S.left source.old) IsLegalRun }
    ensures numbered { HasRun result → OnInput (S.left source.old) IsNumberedRun }
    ensures sent { HasRun result → OnInput (S.left source.old) SendsRepliesRun }
    ensures nothing_after_abort { HasRun result → OnInput (S.left source.old) NothingAfterAbortRun }
    ensures only_struck_aborts { HasRun result → OnInput (S.left source.old) OnlyStruckAbortsRun }
    ensures quiet { HasRun result → OnInput (S.left source.old) (WhenQuiet (IsPlain false)) }
    ensures quiet_part { is_replay (map string_bytes words.now) ≡ true → IfScript (S.left source.old) (WhenQuiet (WrotePlainPart false (K.written sink.old) (K.written sink.new))) }
    ensures planned { result ≡ Status.Aborted → OnInput (S.left source.old) PlansFault }
    ensures all_answered { HasRun result → OnInput (S.left source.old) AnswersAllRun }
{
    if is_replay(words) {
        replay(alloc, source, sink, false)
    } else {
        usage(sink)
    }
}
