//! Makes many calls of one kind, so that a tool can count the machine instructions of a call and of a step.
#![tactic(auto)]

mod calls;
mod order;
mod request;
#[cfg(test)]
mod tests;

use calls::{Failure, Made, measure};
use order::order_of;
use std::process::ExitCode;
use std::{env, io};

/// The line that is written if the words are no order.
const USAGE: &str =
    "usage: yardstick plain|script step|run set|get|miss <calls> <slots> <value words> <key bytes> <value bytes>";

/// The words of the command line after the program's name.
fn words_of(rt: &HostRuntime) -> io::Result<Vec<String>> {
    let mut words = Vec::new(rt.alloc());
    let mut first = true;
    for word in env::args(rt)? {
        if first {
            first = false;
        } else {
            words.push(word)?;
        }
    }
    Ok(words)
}

fn run(rt: &HostRuntime) -> io::Result<ExitCode> {
    let words = words_of(rt)?;
    let Some(order) = order_of(words.as_slice()) else {
        println!(rt; "{}", USAGE)?;
        return Ok(ExitCode::from(1));
    };
    match measure(rt.alloc(), &order) {
        Ok(Made { calls, steps }) => {
            println!(rt; "calls {calls} steps {steps}")?;
            Ok(ExitCode::SUCCESS)
        }
        Err(Failure::Memory) => {
            println!(rt; "out of memory")?;
            Ok(ExitCode::from(6))
        }
        Err(Failure::Unfinished) => {
            println!(rt; "a call did not finish")?;
            Ok(ExitCode::from(3))
        }
    }
}

fn main(rt: HostRuntime) -> io::Result<ExitCode> {
    run(&rt)
}
