//! The lines of a report that tell of aborts.
ghost use Rattle.std.specs.Prelude.{◌≡◌, ◌++◌, IfOk, OnOk};
ghost use Rattle.std.specs.Fmt.{decimal};
ghost use Rattle.sei_script.specs.Plans.{phase_of};
ghost use Rattle.sei_script.specs.AbortLines.{phase_text, cause_text, abort_text, end_text};

use super::texts::{add_number, begin};
use sei_code::Memory;
use sei_fault::{AbortCause, Phase};
use std::alloc::Global;

/// The word of a phase, which a script spells the same.
pub fn phase_text(phase: Phase) -> &'static [u8]
    ensures text { result.now ≡ phase_text phase }
    ensures readable { phase_of result.now ≡ Some phase }
{
    match phase {
        Phase::Guard => b"guard",
        Phase::Take => b"take",
        Phase::First => b"first",
        Phase::Restore => b"restore",
        Phase::Second => b"second",
        Phase::Compare => b"compare",
        Phase::Verify => b"verify",
        Phase::Enter => b"enter",
        Phase::Give => b"give",
        Phase::Send => b"send",
        Phase::Done => b"done",
    }
}

fn add_counted(alloc: Global, into: &mut Vec<u8>, word: &[u8], n: u64) -> Result<(), Memory>
    ensures { OnOk result (into.new.items ≡ into.old.items ++ (word.now ++ decimal n)) }
{
    into.extend_from_slice(word)?;
    add_number(alloc, into, n)
}

/// Appends the words of a cause.
fn add_cause(alloc: Global, into: &mut Vec<u8>, cause: AbortCause) -> Result<(), Memory>
    ensures { OnOk result (into.new.items ≡ into.old.items ++ cause_text cause) }
{
    match cause {
        AbortCause::Gate { done } => add_counted(alloc, into, b"gate ", done),
        AbortCause::Code => into.extend_from_slice(b"code"),
        AbortCause::Range { address } => add_counted(alloc, into, b"range ", address),
        AbortCause::Table { index } => add_counted(alloc, into, b"table ", index),
        AbortCause::Budget => into.extend_from_slice(b"budget"),
        AbortCause::LogFull => into.extend_from_slice(b"logfull"),
        AbortCause::OutFull => into.extend_from_slice(b"outfull"),
        AbortCause::Output => into.extend_from_slice(b"output"),
        AbortCause::Bucket => into.extend_from_slice(b"bucket"),
        AbortCause::Notes => into.extend_from_slice(b"notes"),
        AbortCause::Differs { index } => add_counted(alloc, into, b"differs ", index),
        AbortCause::Reply => into.extend_from_slice(b"reply"),
        AbortCause::Wire => into.extend_from_slice(b"wire"),
    }
}

/// The line of an abort of traversal `t` of connection `c`: the phase in which it comes, and why.
pub fn abort_text(
    alloc: Global,
    c: u32,
    t: u64,
    phase: Phase,
    cause: AbortCause,
) -> Result<Vec<u8>, Memory>
    ensures { IfOk result (λ text. text.items ≡ abort_text c t phase cause) }
{
    let mut text = begin(alloc, b"abort ", c as u64)?;
    text.extend_from_slice(b" ")?;
    add_number(alloc, &mut text, t)?;
    text.extend_from_slice(b" ")?;
    text.extend_from_slice(phase_text(phase))?;
    text.extend_from_slice(b" ")?;
    add_cause(alloc, &mut text, cause)?;
    text.extend_from_slice(b"\n")?;
    Ok(text)
}

/// The last line of a report: whether there was an abort.
pub fn end_text(aborted: bool) -> &'static [u8]
    ensures { result.now ≡ end_text aborted }
{
    if aborted {
        b"end aborted\n"
    } else {
        b"end ok\n"
    }
}

#[cfg(test)]
mod tests {
    use super::*;

    #[test]
    fn lines_of_aborts(rt: HostRuntime) -> Result<(), Memory> {
        let table = [
            (
                Phase::Compare,
                AbortCause::Differs { index: 7 },
                "abort 0 3 compare differs 7\n",
            ),
            (
                Phase::Guard,
                AbortCause::Gate { done: 1 },
                "abort 0 3 guard gate 1\n",
            ),
            (Phase::Send, AbortCause::Wire, "abort 0 3 send wire\n"),
        ];
        for (phase, cause, want) in &table {
            let text = abort_text(rt.alloc(), 0, 3, *phase, *cause)?;
            assert!(rt; text.as_slice() == want.as_bytes(), "{want}");
        }
        Ok(())
    }
}
