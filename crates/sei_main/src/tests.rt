//! Scripts and their reports, from the protocol and from the fault model.
mod cases;

use crate::replay::replay;
use crate::run::run;
use cases::{CASES, COUNT};
use sei_code::{Buffer, WordList};
use sei_log::{Change, WriteLog};
use sei_outside::{MemorySink, MemorySource};
use std::alloc::Global;
use std::test::Fail;

/// What a run of the words gave: the exit status, and what was written.
#[derive(Drop)]
struct Outcome {
    code: u8,
    sink: MemorySink,
}

/// Runs the words over a source whose calls in `reads` fail and a sink whose calls in `writes` fail.
fn run_words(
    alloc: Global,
    words: &[&str],
    script: &[u8],
    reads: &[u64],
    writes: &[u64],
) -> Result<Outcome, Fail> {
    let mut owned = Vec::new(alloc);
    for word in words {
        owned.push(word.to_string(alloc)?)?;
    }
    let mut source = MemorySource::new(script.to_vec(alloc)?, reads.to_vec(alloc)?);
    let mut sink = MemorySink::new(alloc, 100_000, writes.to_vec(alloc)?)?;
    let status = run(alloc, owned.as_slice(), &mut source, &mut sink);
    Ok(Outcome {
        code: status.code(),
        sink,
    })
}

#[test]
fn longest_keys_and_lines(rt: HostRuntime) -> Result<(), Fail> {
    let key = String::from_utf8(vec![in rt.alloc(); b'k'; 250]?)?;
    let script = format!(in rt.alloc();
        "geometry 1 1 3\nopen 0 plain\nsay 0 set {key} 0 0 0\\r\\n\\r\\nget {key}\\r\\nget {key}k\\r\\n\ndrain\n"
    )?;
    let report = format!(in rt.alloc();
        "sent 0 STORED\\r\\n\nsent 0 VALUE {key} 0 0\\r\\n\\r\\nEND\\r\\n\nsent 0 CLIENT_ERROR bad command line format\\r\\n\ntook 0 3\nend ok\n"
    )?;
    let keys = run_words(rt.alloc(), &["replay"], script.as_bytes(), &[], &[])?;
    assert!(rt; keys.sink.bytes() == report.as_bytes());
    let line = String::from_utf8(vec![in rt.alloc(); b'a'; 65_536]?)?;
    let script = format!(in rt.alloc(); "geometry 1 1 3\nopen 0 plain\nsay 0 {line}\ndrain\n")?;
    let lines = run_words(rt.alloc(), &["replay"], script.as_bytes(), &[], &[])?;
    let report = b"sent 0 CLIENT_ERROR line too long\\r\\n\nclosed 0\ntook 0 1\nend ok\n";
    assert!(rt; lines.sink.bytes() == report.as_slice());
    Ok(())
}

#[test]
fn ends_other_than_ok(rt: HostRuntime) -> Result<(), Fail> {
    let usage =
        "usage: replay [history] | trial <number> <connections> <requests> <faults> | serve <buckets> <slots> <value words> <workers> <journal bytes>\n";
    let script = "geometry 1 1 3\nopen 0 plain\nsay 0 set a 0 0 1\\r\\nx\\r\\nget a\\r\\n\ndrain\n";
    let table = [
        ("replay", script, 0, 9, 4, ""),
        ("replay", script, 9, 1, 5, "sent 0 STORED\\r\\n\n"),
        ("replay", "", 9, 9, 2, "script line 1: geometry missing\n"),
        (
            "replay",
            "geometry 1 1 3\nopen 0 pla",
            9,
            9,
            2,
            "script line 2: unfinished line\n",
        ),
        ("replay", "drain\n", 9, 0, 5, ""),
        ("history", script, 9, 9, 1, usage),
        ("history", script, 9, 0, 5, ""),
    ];
    for (word, script, read, write, code, written) in &table {
        let outcome = run_words(rt.alloc(), &[*word], script.as_bytes(), &[*read], &[*write])?;
        assert!(rt;
            outcome.sink.bytes() == written.as_bytes(),
            "{word} {script}"
        );
        assert_eq!(rt; outcome.code, *code, "{word} {script}");
    }
    let none = run_words(rt.alloc(), &[], script.as_bytes(), &[], &[])?;
    assert!(rt; none.sink.bytes() == usage.as_bytes());
    assert_eq!(rt; none.code, 1);
    Ok(())
}

#[test]
fn lists_with_room_for_one_take_one(rt: HostRuntime) -> Result<(), Fail> {
    let mut bytes = Buffer::new(rt.alloc(), 1)?;
    assert!(rt; bytes.push(7));
    assert!(rt; !bytes.push(7));
    let mut words = WordList::new(rt.alloc(), 1)?;
    assert!(rt; words.push(7));
    assert!(rt; !words.push(7));
    let change = Change {
        address: 1,
        was: 0,
        becomes: 7,
    };
    let mut log = WriteLog::new(rt.alloc(), 1)?;
    assert!(rt; log.push(change));
    assert!(rt; !log.push(change));
    Ok(())
}

/// A script, how its replay is to end, and its report.
#[derive(Clone, Copy)]
struct Case<'a> {
    name: &'a str,
    script: &'a str,
    end: &'a str,
    report: &'a str,
}

/// The parts of the text of a case.
fn parts(case: &str) -> Option<Case<'_>> {
    let (name, rest) = case.split_once("\n")?;
    let (script, rest) = rest.split_once("--- ")?;
    let (end, report) = rest.split_once("\n")?;
    Some(Case {
        name,
        script,
        end,
        report,
    })
}

#[test]
fn reports_of_scripts(rt: HostRuntime) -> Result<(), Fail> {
    let alloc = rt.alloc();
    let mut count = 0u64;
    for text in CASES.split("=== ").skip(1) {
        match parts(text) {
            None => assert!(rt; false, "no case: {text}"),
            Some(case) => {
                let script = case.script.as_bytes().to_vec(alloc)?;
                let history = case.end.ends_with("history");
                let mut source = MemorySource::new(script, Vec::new(alloc));
                let mut sink = MemorySink::new(alloc, 1000, Vec::new(alloc))?;
                let status = replay(alloc, &mut source, &mut sink, history);
                assert!(rt; sink.bytes() == case.report.as_bytes(), "{}", case.name);
                let code = format!(in alloc; "{}", status.code())?;
                assert!(rt; case.end.starts_with(code.as_str()), "{}", case.name);
                count = count.saturating_add(1);
            }
        }
    }
    assert_eq!(rt; count, COUNT);
    Ok(())
}
