//! The command words, and the form of each one's lines.

ghost use Rattle.std.specs.Prelude.{◌≡◌, IfSome};
ghost use Rattle.std.specs.Str.{bytes_eq};
ghost use Rattle.mc_text.specs.Commands.{command_of};
ghost use Rattle.mc_text.specs.Fits.{KeyIfForm};

use mc_model::Verb;

/// The form of a command's line.
#[derive(Clone, Copy, Debug, PartialEq, Eq)]
pub enum Form {
    /// A key, flags, an exptime and the size of a block, which follows the line.
    Storage,
    /// The same, and a cas unique.
    CheckAndSet,
    /// One key or more.
    Retrieval,
    /// An exptime, and one key or more.
    GetAndTouch,
    /// A key and an exptime.
    Touch,
    /// A key, and perhaps a 0 without meaning.
    Deletion,
    /// Perhaps a 0 without meaning.
    Flush,
    /// The word alone, answered by the version.
    Version,
    /// A number.
    Verbosity,
    /// The word alone, answered by the end of the connection.
    Quit,
}

/// A command word's row: the form of its line, and the command of its calls.
#[derive(Clone, Copy, Debug, PartialEq, Eq)]
pub struct Command {
    pub form: Form,
    pub verb: Verb,
}

/// Whether the word is this name.
pub fn is(word: &[u8], name: &[u8]) -> bool
    ensures { result ≡ bytes_eq word.now name.now }
{
    word == name
}

/// The commands: the word, the form of its lines, and the command of its calls.
const COMMANDS: [(&str, Form, Verb); 14] = [
    ("set", Form::Storage, Verb::Set),
    ("add", Form::Storage, Verb::Add),
    ("replace", Form::Storage, Verb::Replace),
    ("cas", Form::CheckAndSet, Verb::Cas),
    ("get", Form::Retrieval, Verb::Get),
    ("gets", Form::Retrieval, Verb::Gets),
    ("gat", Form::GetAndTouch, Verb::Gat),
    ("gats", Form::GetAndTouch, Verb::Gats),
    ("touch", Form::Touch, Verb::Touch),
    ("delete", Form::Deletion, Verb::Delete),
    ("flush_all", Form::Flush, Verb::Flush),
    ("version", Form::Version, Verb::Fixed),
    ("verbosity", Form::Verbosity, Verb::Fixed),
    ("quit", Form::Quit, Verb::Fixed),
];

/// The command of a line's first word.
#[tactic(auto, unfolding(crate::specs::Commands::command_of))]
pub fn command_of(word: &[u8]) -> Option<Command>
    ensures value { result ≡ command_of word.now }
    ensures key { IfSome result (λ c. KeyIfForm c.form c.verb) }
{
    for (name, form, verb) in &COMMANDS {
        if is(word, name.as_bytes()) {
            return Some(Command {
                form: *form,
                verb: *verb,
            });
        }
    }
    None
}
