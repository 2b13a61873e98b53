//! The reader of a whole script.
ghost use Rattle.std.specs.Prelude.{◌≡◌, ◌<◌, ◌≤◌, IfOk, length, drop, All};
ghost use Rattle.mc_model.specs.Server.{IsValid};
ghost use Rattle.sei_script.specs.declared.reader.ScriptFault.TheVariants.{Memory};
ghost use Rattle.sei_script.specs.Limits.{script_limit};
ghost use Rattle.sei_script.specs.Context.{empty_context, context_of, geometry_of};
ghost use Rattle.sei_script.specs.Fit.{AreFit};
ghost use Rattle.sei_script.specs.SaysBytes.{SaysBytes};
ghost use Rattle.sei_script.specs.Reading.{ReadsAs, ends_at, reading_of};

use super::line::{Context, Said, ScriptLine, Why};
use super::lines::Script;
use super::says::line_says;
use super::traversals::Traversals;
use super::words::find;
use std::alloc::{AllocError, AllocFailed, Global};

/// The most bytes that a script may have.
pub const LIMIT: usize = 16_777_216;

/// Why no script was read.
#[derive(Clone, Copy, Debug, PartialEq, Eq)]
pub enum ScriptFault {
    Memory,
    /// The first line that does not read; lines are numbered from 1, and skipped ones count.
    Line { line: u64, why: Why },
}

impl From<AllocError> for ScriptFault {
    ghost from_gives = { λ _ e. e ≡ Memory };

    fn from(_e: AllocError) -> ScriptFault {
        ScriptFault::Memory
    }
}

impl<T: Drop> From<AllocFailed<T>> for ScriptFault {
    ghost from_gives = { λ _ e. e ≡ Memory };

    fn from(_e: AllocFailed<T>) -> ScriptFault {
        ScriptFault::Memory
    }
}

fn rest_from(text: &[u8], at: usize) -> &[u8]
    requires { at ≤ length text.now }
    ensures { result.now ≡ drop at text.now }
{
    &text[at..]
}

/// The script of these lines, before what is left after the last LF, which is the line with this number.
fn whole(
    lines: Vec<ScriptLine>,
    context: Context,
    number: u64,
    rest: &[u8],
) -> Result<Script, ScriptFault>
    requires context { context ≡ context_of lines.items }
    requires fit { AreFit empty_context lines.items }
    ensures { ReadsAs (ends_at lines.items number rest.now) result }
{
    if !rest.is_empty() {
        return Err(ScriptFault::Line {
            line: number,
            why: Why::UnfinishedLine,
        });
    }
    match context.geometry {
        None => Err(ScriptFault::Line {
            line: number,
            why: Why::GeometryMissing,
        }),
        Some(geometry) => Ok(Script::new(geometry, lines)),
    }
}

/// Reads a script.
pub fn read_script(alloc: Global, bytes: &[u8]) -> Result<Script, ScriptFault>
    ensures answer { ReadsAs (reading_of script_limit bytes.now) result }
    ensures too_big { script_limit < length bytes.now → result ≡ Err (ScriptFault.Line 0 Why.TooBig) }
    ensures fit { IfOk result (λ script. AreFit empty_context script) }
    ensures geometry { IfOk result (λ script. IsValid (geometry_of script)) }
    ensures bytes { IfOk result (λ script. All SaysBytes script) }
{
    if bytes.len() > LIMIT {
        return Err(ScriptFault::Line {
            line: 0,
            why: Why::TooBig,
        });
    }
    let mut lines = Vec::new(alloc);
    let mut context = Context::empty();
    let mut traversals = Traversals::new(alloc);
    let mut number = 1u64;
    let mut rest = bytes;
    while let Some(end) = find(rest, b'\n') {
        match traversals.once(line_says(alloc, context, &rest[..end])?) {
            Said::Nothing => {}
            Said::Line(line) => {
                traversals.add(&line)?;
                context = context.after(&line);
                lines.push(line)?;
            }
            Said::Wrong(why) => return Err(ScriptFault::Line { line: number, why }),
        }
        number += 1;
        rest = rest_from(rest, end + 1);
    }
    whole(lines, context, number, rest)
}

#[cfg(test)]
mod tests {
    use super::super::line::ScriptLine;
    use super::*;
    use sei_fault::{Kind, Phase, Place, Planned, Select};
    use std::test::Fail;

    #[test]
    fn first_bad_lines_and_causes(rt: HostRuntime) {
        let table = [
            ("", 1, Why::GeometryMissing),
            ("# a\r\n\n", 3, Why::GeometryMissing),
            ("drain\n", 1, Why::GeometryMissing),
            (" geometry 1 1 3\n", 1, Why::GeometryMissing),
            ("bad\nbad", 1, Why::GeometryMissing),
            ("bad", 1, Why::UnfinishedLine),
            ("geometry 1 1 3\n# a", 2, Why::UnfinishedLine),
            ("geometry 1 1\n", 1, Why::BadLine),
            ("geometry  1 1 3\n", 1, Why::BadLine),
            ("geometry 1 1 3 \n", 1, Why::BadLine),
            ("geometry 01 1 3\n", 1, Why::BadLine),
            ("geometry 65 1 3\n", 1, Why::GeometryOutOfLimits),
            ("geometry 1 1025 3\n", 1, Why::GeometryOutOfLimits),
            ("geometry 1 1 2\n", 1, Why::GeometryOutOfLimits),
            (
                "geometry 1 1 18446744073709551619\n",
                1,
                Why::GeometryOutOfLimits,
            ),
            ("geometry 1 1 3\r\n\ngeometry 0 x\n", 3, Why::BadLine),
            ("geometry 1 1 3\n drain\n", 2, Why::UnknownLine),
            ("geometry 1 1 3\ndrain \n", 2, Why::BadLine),
            ("geometry 1 1 3\nopen 0 coded\n", 2, Why::BadLine),
            ("geometry 1 1 3\nopen 0\n", 2, Why::BadLine),
            ("geometry 1 1 3\nopen 1 plain\n", 2, Why::TooManyConnections),
            (
                "geometry 1 1 3\nopen 0 plain\nopen 0 plain\n",
                3,
                Why::WrongNumber,
            ),
            ("geometry 1 1 3\nsay 0\n", 2, Why::BadLine),
            ("geometry 1 1 3\nsay 0 \\xAB\n", 2, Why::BadLine),
            ("geometry 1 1 3\nsay 0 \n", 2, Why::UnknownConnection),
            ("geometry 1 1 3\nhex 0\n", 2, Why::BadLine),
            ("geometry 1 1 3\nhex 0 6\n", 2, Why::BadLine),
            ("geometry 1 1 3\nhex 0 6A\n", 2, Why::BadLine),
            ("geometry 1 1 3\nhex 0 6a 6b\n", 2, Why::BadLine),
            ("geometry 1 1 3\nhex 0 6a\n", 2, Why::UnknownConnection),
            ("geometry 1 1 3\nclock\n", 2, Why::BadLine),
            ("geometry 1 1 3\nclock 01\n", 2, Why::BadLine),
            ("geometry 1 1 3\nclock 1 2\n", 2, Why::BadLine),
            (
                "geometry 1 1 3\nclock 18446744073709551616\n",
                2,
                Why::BadLine,
            ),
            (
                "geometry 1 1 3\nfault 0 0 guard at 0 skip\n",
                2,
                Why::UnknownConnection,
            ),
            (
                "geometry 1 1 3\nopen 0 plain\nfault 0 0 guard at 0 skip\nfault 0 0 send at 0 skip\n",
                4,
                Why::SecondFault,
            ),
            ("geometry 1 1 3\nclock 1\nclos\n", 3, Why::UnknownLine),
        ];
        for (text, line, why) in &table {
            match read_script(rt.alloc(), text.as_bytes()) {
                Ok(_) => assert!(rt; false, "{text} reads"),
                Err(fault) => {
                    let want = ScriptFault::Line {
                        line: *line,
                        why: *why,
                    };
                    assert_eq!(rt; fault, want, "{text}");
                }
            }
        }
    }

    #[test]
    fn faults_that_do_not_read(rt: HostRuntime) -> Result<(), Fail> {
        let table = [
            "guard at 0",
            "guard at 0 skip ",
            "Guard at 0 skip",
            "guards at 0 skip",
            "guard at skip",
            "guard at 18446744073709551616 skip",
            "guard now 0 skip",
            "first load skip",
            "first load 41 read 0",
            "first load 41 read 0 0",
            "first load 41 read 0 18446744073709551616",
            "first load 41 read 18446744073709551616 1",
            "first store 41 write 0",
            "first store 41 write",
            "first halt jump send",
            "first halt jump last 0",
            "first halt jump send 18446744073709551616",
            "first halt drop",
        ];
        for plan in &table {
            let text = format!(in rt.alloc(); "geometry 1 1 3\nopen 0 plain\nfault 0 0 {plan}\n")?;
            let want = ScriptFault::Line {
                line: 3,
                why: Why::BadLine,
            };
            match read_script(rt.alloc(), text.as_bytes()) {
                Ok(_) => assert!(rt; false, "{plan} reads"),
                Err(fault) => assert_eq!(rt; fault, want, "{plan}"),
            }
        }
        Ok(())
    }

    #[test]
    fn faults_as_they_are_spelled(rt: HostRuntime) -> Result<(), Fail> {
        let table = [
            (
                "guard at 0 skip",
                Phase::Guard,
                Select::Index(0),
                Kind::Skip,
            ),
            (
                "take at 7 repeat",
                Phase::Take,
                Select::Index(7),
                Kind::Repeat,
            ),
            (
                "first load 41 read 1 18446744073709551615",
                Phase::First,
                Select::Load(41),
                Kind::Read {
                    nth: 1,
                    mask: 18_446_744_073_709_551_615,
                },
            ),
            (
                "second store 18446744073709551615 write 1",
                Phase::Second,
                Select::Store(18_446_744_073_709_551_615),
                Kind::Write { mask: 1 },
            ),
            ("restore now flip", Phase::Restore, Select::Now, Kind::Flip),
            (
                "verify alloc flip",
                Phase::Verify,
                Select::Alloc,
                Kind::Flip,
            ),
            (
                "compare parse flip",
                Phase::Compare,
                Select::Parse,
                Kind::Flip,
            ),
            (
                "enter render skip",
                Phase::Enter,
                Select::Render,
                Kind::Skip,
            ),
            (
                "give halt jump send 3",
                Phase::Give,
                Select::Halt,
                Kind::Jump {
                    to: Place {
                        phase: Phase::Send,
                        index: 3,
                    },
                },
            ),
            ("done at 0 skip", Phase::Done, Select::Index(0), Kind::Skip),
        ];
        for (spelled, phase, select, kind) in &table {
            let text = format!(in rt.alloc();
                "geometry 1 1 3\nopen 0 plain\nfault 0 9 {spelled}\n"
            )?;
            let want = Planned {
                phase: *phase,
                select: *select,
                kind: *kind,
            };
            match read_script(rt.alloc(), text.as_bytes()) {
                Err(_) => assert!(rt; false, "{spelled} reads"),
                Ok(script) => {
                    assert_eq!(rt; script.len(), 3);
                    match script.line(2) {
                        ScriptLine::Fault { c, t, plan } => {
                            assert_eq!(rt; *c, 0);
                            assert_eq!(rt; *t, 9);
                            assert!(rt; *plan == want, "{spelled}");
                        }
                        _ => assert!(rt; false, "{spelled} is a fault"),
                    }
                }
            }
        }
        Ok(())
    }

    #[test]
    fn bytes_and_clocks(rt: HostRuntime) -> Result<(), ScriptFault> {
        let text =
            b"geometry 1 1 3\nopen 0 plain\nhex 0 \nhex 0 00ff6a0d\nclock 18446744073709551615\nfault 0 0 guard at 0 skip\nfault 0 1 guard at 0 skip\n";
        let script = read_script(rt.alloc(), text)?;
        assert_eq!(rt; script.len(), 7);
        match (script.line(2), script.line(3), script.line(4)) {
            (
                ScriptLine::Hex { bytes: none, .. },
                ScriptLine::Hex { bytes, .. },
                ScriptLine::Clock { now },
            ) => {
                assert!(rt; none.bytes().is_empty());
                assert_eq!(rt; bytes.bytes(), b"\x00\xffj\r".as_slice());
                assert_eq!(rt; *now, 18_446_744_073_709_551_615);
            }
            _ => assert!(rt; false),
        }
        Ok(())
    }

    #[test]
    fn lines_in_order(rt: HostRuntime) -> Result<(), ScriptFault> {
        let text =
            b"# a\r\ngeometry 2 5 4\r\n\nopen 0 plain\nsay 0 get a\\r\\n\\\\\\x0a\xff \r\nsay 0 \ndrain\n";
        let script = read_script(rt.alloc(), text)?;
        assert_eq!(rt; script.geometry().slots, 5);
        assert_eq!(rt; script.len(), 5);
        match script.line(2) {
            ScriptLine::Say { c, bytes } => {
                assert_eq!(rt; *c, 0);
                assert_eq!(rt; bytes.bytes(), b"get a\r\n\\\n\xff ".as_slice());
            }
            _ => assert!(rt; false),
        }
        Ok(())
    }
}
