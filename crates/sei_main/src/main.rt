//! Replays a script of connections from standard input, and writes what happens to standard output.
#![tactic(auto)]

mod command_line;
mod isolation;
mod plans;
mod replay;
mod report;
mod run;
mod status;
mod tables;
#[cfg(test)]
mod tests;
mod world;

use command_line::{after_the_name, is_out_of_memory};
use run::run;
use sei_outside::{StdSink, StdSource};
use status::Status;
use std::process::ExitCode;
use std::rt::Env;
use std::{env, io};

/// The words of the command line after the program's name.
fn words_of(rt: &HostRuntime) -> io::Result<Vec<String>> {
    let all = env::args(rt)?.collect(rt.alloc())?;
    Ok(after_the_name(all))
}

fn main(rt: HostRuntime) -> ExitCode {
    let words = match words_of(&rt) {
        Ok(words) => words,
        Err(error) => {
            if is_out_of_memory(&error) {
                return ExitCode::from(Status::Memory.code());
            }
            // A word that is no text stands in no form, as no word at all.
            Vec::new(rt.alloc())
        }
    };
    let mut source = StdSource::new(rt.reader());
    let mut sink = StdSink::new(io::writer(&rt));
    let status = run(rt.alloc(), words.as_slice(), &mut source, &mut sink);
    ExitCode::from(status.code())
}
