//! The words of the command line, as the system gives them.
ghost use Rattle.std.specs.Prelude.{◌≡◌, ◌↔◌, IsTrue, drop};
ghost use Rattle.std.specs.IoError.{error_kind};

use std::io::{Error, ErrorKind};

/// The words after the first, which is the program's name.
pub fn after_the_name(all: Vec<String>) -> Vec<String>
    ensures { result.items ≡ drop 1 all.items }
{
    let mut words = all;
    if !words.is_empty() {
        words.remove(0);
    }
    words
}

/// Whether an error is that memory ran out.
pub fn is_out_of_memory(error: &Error) -> bool
    ensures { IsTrue result ↔ (error_kind error.now ≡ ErrorKind.OutOfMemory) }
{
    error.kind() == ErrorKind::OutOfMemory
}
