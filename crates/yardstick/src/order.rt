//! Orders: what is to be measured.
ghost use Rattle.std.specs.Prelude.{◌≡◌, ◌≤◌, IfSome, map, string_bytes};
ghost use Rattle.mc_model.specs.Server.{IsValid};
ghost use Rattle.yardstick.specs.Orders.{core_word, way_word, command_word, IsNumber, Spells};

use mc_model::{Geometry, number_upto};

/// Which core answers the questions of each step.
#[derive(Clone, Copy, Debug, PartialEq, Eq)]
pub enum CoreKind {
    /// The one without a plan.
    Plain,
    /// The one of planned faults, without a plan.
    Script,
}

/// How the steps of a call are made.
#[derive(Clone, Copy, Debug, PartialEq, Eq)]
pub enum Way {
    /// Each by a call of its own.
    Step,
    /// As many as a run makes at once.
    Run,
}

/// Which command the calls are.
#[derive(Clone, Copy, Debug, PartialEq, Eq)]
pub enum Command {
    /// Sets of the key. Each replaces the item.
    Set,
    /// Gets of the key.
    Get,
    /// Gets of another key, which is not there.
    Miss,
}

/// Many calls of one kind, all on one key of the only bucket. One set of the key comes before them,
/// which is not counted.
#[derive(Clone, Copy)]
pub struct Order {
    pub core: CoreKind,
    pub way: Way,
    pub command: Command,
    /// How many calls are made.
    pub calls: u64,
    pub geometry: Geometry,
    /// How many bytes a key has.
    pub key: u64,
    /// How many bytes the value has.
    pub value: u64,
}

/// The most calls that are made.
const MOST_CALLS: u64 = 1_000_000_000;
/// The longest key.
const LONGEST_KEY: u64 = 250;
/// The longest value.
const LONGEST_VALUE: u64 = 8_192;

fn core_kind(word: &str) -> Option<CoreKind>
    ensures { IfSome result (λ core. word.now ≡ core_word core) }
{
    if word == "plain" {
        Some(CoreKind::Plain)
    } else if word == "script" {
        Some(CoreKind::Script)
    } else {
        None
    }
}

fn way_of(word: &str) -> Option<Way>
    ensures { IfSome result (λ way. word.now ≡ way_word way) }
{
    if word == "step" {
        Some(Way::Step)
    } else if word == "run" {
        Some(Way::Run)
    } else {
        None
    }
}

fn command_of(word: &str) -> Option<Command>
    ensures { IfSome result (λ command. word.now ≡ command_word command) }
{
    if word == "set" {
        Some(Command::Set)
    } else if word == "get" {
        Some(Command::Get)
    } else if word == "miss" {
        Some(Command::Miss)
    } else {
        None
    }
}

/// The number of at most `most` that the word spells in decimal digits.
fn number(most: u64, word: &str) -> Option<u64>
    ensures read { IfSome result (IsNumber word.now) }
    ensures within { IfSome result (λ n. n ≤ most) }
{
    let number = number_upto(u64::MAX, word.as_bytes())?;
    if number <= most { Some(number) } else { None }
}

/// A geometry of one bucket, if it is within the limits.
fn geometry(slots: &str, value_words: &str) -> Option<Geometry>
    ensures valid { IfSome result IsValid }
    ensures buckets { IfSome result (λ g. g.buckets ≡ 1) }
    ensures slots { IfSome result (λ g. IsNumber slots.now g.slots) }
    ensures value_words { IfSome result (λ g. IsNumber value_words.now g.value_words) }
{
    let geometry = Geometry {
        buckets: 1,
        slots: number(u64::MAX, slots)?,
        value_words: number(u64::MAX, value_words)?,
    };
    if geometry.is_valid() {
        Some(geometry)
    } else {
        None
    }
}

/// The order that the words spell: core, way, command, calls, slots, value words, and the bytes of the key and of the value.
pub fn order_of(words: &[String]) -> Option<Order>
    ensures spelled { IfSome result (Spells (map string_bytes words.now)) }
    ensures valid { IfSome result (λ order. IsValid order.geometry) }
{
    match words {
        [core, way, command, calls, slots, value_words, key, value] => Some(Order {
            core: core_kind(core.as_str())?,
            way: way_of(way.as_str())?,
            command: command_of(command.as_str())?,
            calls: number(MOST_CALLS, calls.as_str())?,
            geometry: geometry(slots.as_str(), value_words.as_str())?,
            key: number(LONGEST_KEY, key.as_str())?,
            value: number(LONGEST_VALUE, value.as_str())?,
        }),
        _ => None,
    }
}
