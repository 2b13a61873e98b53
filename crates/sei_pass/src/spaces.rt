//! The rooms and the budget of a pass.
ghost use Rattle.std.specs.Prelude.{◌≡◌, ◌≤◌};
ghost use Rattle.mc_model.specs.Server.{IsValid};
ghost use Rattle.sei_pass.specs.Spaces.{input_for, output_for, bytes_for, log_for, budget_for, pass_space_for};

use mc_model::Geometry;

/// What each pass over the words of a geometry has. It is made once, and no step computes it anew.
#[derive(Clone, Copy)]
pub struct PassSpace {
    /// What the words are laid out by.
    pub geometry: Geometry,
    /// How many words a value or a block of a call may have.
    pub words: u64,
    /// How many input words there may be.
    pub input: u64,
    /// How many output words there may be.
    pub output: u64,
    /// How many output bytes there may be.
    pub bytes: u64,
    /// How many changes a log may hold.
    pub log: u64,
    /// How many statements a pass may make.
    pub budget: u64,
}

/// How many input words a call may have: 14 fields, a key of 32 words, and a block.
fn input_room(words: u64) -> u64
    requires { words ≤ 1024 }
    ensures { result ≡ input_for words }
{
    46 + words
}

/// How many output words a call may have: two items of 8 fields at most, a key of 32 words, and a
/// value.
fn output_room(words: u64) -> u64
    requires { words ≤ 1024 }
    ensures { result ≡ output_for words }
{
    48 + words
}

/// How many bytes a reply may have: a value of 8 bytes a word, its key, and 70 bytes more.
fn bytes_room(words: u64) -> u64
    requires { words ≤ 1024 }
    ensures { result ≡ bytes_for words }
{
    8 * words + 320
}

/// How many changes a pass may log: of the bucket's own words and those of an item, of the mark of
/// each slot, and of a value.
fn log_room(g: &Geometry, words: u64) -> u64
    requires geometry { IsValid g.now }
    requires words { words ≤ g.now.value_words }
    ensures { result ≡ log_for g.now words }
{
    48 + g.slots + words
}

/// How many statements a pass may make.
fn budget(g: &Geometry, words: u64) -> u64
    requires geometry { IsValid g.now }
    requires words { words ≤ g.now.value_words }
    ensures { result ≡ budget_for g.now words }
{
    2000 + 400 * g.slots + 100 * words
}

impl PassSpace {
    /// With the room and the statements that a call needs whose values and blocks have at most n
    /// words.
    pub fn new(g: &Geometry, words: u64) -> PassSpace
        requires geometry { IsValid g.now }
        requires words { words ≤ g.now.value_words }
        ensures { result ≡ pass_space_for g.now words }
    {
        PassSpace {
            geometry: *g,
            words,
            input: input_room(words),
            output: output_room(words),
            bytes: bytes_room(words),
            log: log_room(g, words),
            budget: budget(g, words),
        }
    }
}
