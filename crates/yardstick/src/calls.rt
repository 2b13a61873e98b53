//! Makes calls, one traversal for each.
ghost use Rattle.std.specs.Prelude.{◌≡◌, true, Some, None, IfOk, IfSome};
ghost use Rattle.mc_model.specs.Server.{IsValid};
ghost use Rattle.sei_pass.specs.Spaces.{pass_space};
ghost use Rattle.sei_traverse.specs.Running.{on};
ghost use Rattle.yardstick.specs.Calls.{sealed_of, lent_after, lent_if, Ran, Finishes, MadeFor, MadeUnder};
ghost use Rattle.yardstick.specs.Requests.{request_text};

use crate::order::{Command, CoreKind, Order, Way};
use crate::request::request;
use mc_model::Geometry;
use sei_code::{Coded, Memory, Mode, message_code};
use sei_fault::{Core, PlainCore, ScriptCore};
use sei_hand::{Hands, HandsError};
use sei_outside::SetClock;
use sei_pass::Sealed;
use sei_traverse::{State, Traversal, Turned, Want, most_steps};
use sei_words::Words;
use std::alloc::Global;

/// How many calls and steps were made.
#[derive(Clone, Copy, Debug, PartialEq, Eq)]
pub struct Made {
    pub calls: u64,
    pub steps: u64,
}

/// Why nothing was measured.
#[derive(Clone, Copy, Debug, PartialEq, Eq)]
pub enum Failure {
    Memory,
    /// A call was refused or aborted, or did not come to its end.
    Unfinished,
}

impl From<Memory> for Failure {
    fn from(_: Memory) -> Failure {
        Failure::Memory
    }
}

/// Whether the bucket is lent after a step with this want: it is from the want `Take` to the want
/// `Give`.
fn is_lent_after(want: Want, lent: bool) -> bool
    ensures { result ≡ lent_after want lent }
{
    match want {
        Want::Take { .. } => true,
        Want::Give => false,
        Want::Nothing | Want::Enter | Want::Send => lent,
    }
}

/// Makes a step with the words of the bucket lent.
#[inline(always)]
fn step_on<K: Core>(
    traversal: &mut Traversal,
    hands: &Hands,
    words: &mut Words,
    text: &[u8],
    core: &mut K,
    clock: &SetClock,
) -> Turned
    requires running { traversal.old.running ≡ true }
    requires valid { IsValid hands.now }
    requires space { traversal.old.space ≡ pass_space hands.now }
    requires words { words.old.geometry ≡ traversal.old.space.geometry }
    ensures { Ran K.gives K.counts (Some clock.now.at) hands.now text.now (on traversal.old (Some words.old) core.old) (on traversal.new (Some words.new) core.new) result }
{
    traversal.step(hands, text, Some(words), core, clock)
}

/// Makes a step with nothing lent.
#[inline(always)]
fn step_alone<K: Core>(
    traversal: &mut Traversal,
    hands: &Hands,
    text: &[u8],
    core: &mut K,
    clock: &SetClock,
) -> Turned
    requires running { traversal.old.running ≡ true }
    requires valid { IsValid hands.now }
    requires space { traversal.old.space ≡ pass_space hands.now }
    ensures { Ran K.gives K.counts (Some clock.now.at) hands.now text.now (on traversal.old None core.old) (on traversal.new None core.new) result }
{
    traversal.step(hands, text, None, core, clock)
}

/// Makes as many steps as a run makes, with the words of the bucket lent.
#[inline(always)]
fn run_on<K: Core>(
    traversal: &mut Traversal,
    hands: &Hands,
    words: &mut Words,
    text: &[u8],
    core: &mut K,
    clock: &SetClock,
) -> Turned
    requires running { traversal.old.running ≡ true }
    requires valid { IsValid hands.now }
    requires space { traversal.old.space ≡ pass_space hands.now }
    requires words { words.old.geometry ≡ traversal.old.space.geometry }
    ensures { Ran K.gives K.counts (Some clock.now.at) hands.now text.now (on traversal.old (Some words.old) core.old) (on traversal.new (Some words.new) core.new) result }
{
    traversal.run(hands, text, Some(words), core, clock).turned
}

/// Makes as many steps as a run makes, with nothing lent.
#[inline(always)]
fn run_alone<K: Core>(
    traversal: &mut Traversal,
    hands: &Hands,
    text: &[u8],
    core: &mut K,
    clock: &SetClock,
) -> Turned
    requires running { traversal.old.running ≡ true }
    requires valid { IsValid hands.now }
    requires space { traversal.old.space ≡ pass_space hands.now }
    ensures { Ran K.gives K.counts (Some clock.now.at) hands.now text.now (on traversal.old None core.old) (on traversal.new None core.new) result }
{
    traversal.run(hands, text, None, core, clock).turned
}

/// Makes a step, or as many as a run makes, with the words of the bucket lent or not.
#[inline(always)]
fn make<K: Core>(
    traversal: &mut Traversal,
    hands: &Hands,
    words: &mut Words,
    text: &[u8],
    way: Way,
    lent: bool,
    core: &mut K,
    clock: &SetClock,
) -> Turned
    requires running { traversal.old.running ≡ true }
    requires valid { IsValid hands.now }
    requires space { traversal.old.space ≡ pass_space hands.now }
    requires words { words.old.geometry ≡ hands.now }
    ensures ran { Ran K.gives K.counts (Some clock.now.at) hands.now text.now
        (on traversal.old (lent_if lent words.old) core.old) (on traversal.new (lent_if lent words.new) core.new) result }
    ensures words { words.new.geometry ≡ words.old.geometry }
{
    match (way, lent) {
        (Way::Step, true) => step_on(traversal, hands, words, text, core, clock),
        (Way::Step, false) => step_alone(traversal, hands, text, core, clock),
        (Way::Run, true) => run_on(traversal, hands, words, text, core, clock),
        (Way::Run, false) => run_alone(traversal, hands, text, core, clock),
    }
}

/// Seals the only call of a request.
fn sealed(text: &[u8]) -> Sealed
    ensures { result ≡ sealed_of text.now }
{
    Sealed {
        number: 0,
        nth: Coded::seal(0),
        code: message_code(0, text),
        answer: 1,
    }
}

/// Leads a traversal from its begin to its end. The answer is how many steps it made, if it finished.
fn call<K: Core>(
    traversal: &mut Traversal,
    hands: &Hands,
    words: &mut Words,
    text: &[u8],
    way: Way,
    core: &mut K,
    limit: u64,
) -> Option<u64>
    requires valid { IsValid hands.now }
    requires space { traversal.old.space ≡ pass_space hands.now }
    requires words { words.old.geometry ≡ hands.now }
    ensures space { traversal.new.space ≡ pass_space hands.now }
    ensures words { words.new.geometry ≡ hands.now }
    ensures finishes { IfSome result (Finishes K.gives K.counts hands.now text.now) }
{
    let clock = SetClock { at: 0 };
    let mut lent = false;
    traversal.begin(sealed(text), Mode::Plain);
    for _ in 0..limit {
        let turned = make(traversal, hands, words, text, way, lent, core, &clock);
        lent = is_lent_after(turned.want, lent);
        match turned.state {
            State::Went => {}
            State::Finished => return Some(traversal.steps()),
            State::Refused | State::Aborted(_) => return None,
        }
    }
    None
}

/// Makes `calls` calls of a request.
fn repeat<K: Core>(
    traversal: &mut Traversal,
    hands: &Hands,
    words: &mut Words,
    text: &[u8],
    way: Way,
    core: &mut K,
    calls: u64,
    limit: u64,
) -> Option<Made>
    requires valid { IsValid hands.now }
    requires space { traversal.old.space ≡ pass_space hands.now }
    requires words { words.old.geometry ≡ hands.now }
    ensures calls { IfSome result (λ made. made.calls ≡ calls) }
    ensures made { IfSome result (λ made. MadeFor K.gives K.counts hands.now text.now calls made.steps) }
{
    let mut steps = 0u64;
    for _ in 0..calls {
        let made = call(traversal, hands, words, text, way, core, limit)?;
        steps = steps.saturating_add(made);
    }
    Some(Made { calls, steps })
}

/// Makes the order's calls, all of one request, under the order's core.
fn repeat_under(
    traversal: &mut Traversal,
    hands: &Hands,
    words: &mut Words,
    text: &[u8],
    order: &Order,
    limit: u64,
) -> Option<Made>
    requires valid { IsValid hands.now }
    requires space { traversal.old.space ≡ pass_space hands.now }
    requires words { words.old.geometry ≡ hands.now }
    ensures calls { IfSome result (λ made. made.calls ≡ order.now.calls) }
    ensures made { IfSome result (λ made. MadeUnder order.now.core hands.now text.now order.now.calls made.steps) }
{
    match order.core {
        CoreKind::Plain => {
            let mut core = PlainCore::new();
            repeat(
                traversal,
                hands,
                words,
                text,
                order.way,
                &mut core,
                order.calls,
                limit,
            )
        }
        CoreKind::Script => {
            let mut core = ScriptCore::new(None);
            repeat(
                traversal,
                hands,
                words,
                text,
                order.way,
                &mut core,
                order.calls,
                limit,
            )
        }
    }
}

/// Makes one call of the first request, and then the calls of the order, of the second one.
fn measured(
    traversal: &mut Traversal,
    hands: &Hands,
    words: &mut Words,
    set: &[u8],
    text: &[u8],
    order: &Order,
) -> Result<Made, Failure>
    requires valid { IsValid hands.now }
    requires space { traversal.old.space ≡ pass_space hands.now }
    requires words { words.old.geometry ≡ hands.now }
    requires order { IsValid order.now.geometry }
    ensures calls { IfOk result (λ made. made.calls ≡ order.now.calls) }
    ensures made { IfOk result (λ made. MadeUnder order.now.core hands.now text.now order.now.calls made.steps) }
{
    let limit = most_steps(&order.geometry);
    let mut core = PlainCore::new();
    let first = call(traversal, hands, words, set, order.way, &mut core, limit);
    if first.is_none() {
        return Err(Failure::Unfinished);
    }
    match repeat_under(traversal, hands, words, text, order, limit) {
        Some(made) => Ok(made),
        None => Err(Failure::Unfinished),
    }
}

/// The handler of a geometry.
fn hands_of(alloc: Global, geometry: Geometry) -> Result<Hands, Failure>
    requires { IsValid geometry }
    ensures { IfOk result (λ hands. hands ≡ geometry) }
{
    match Hands::new(alloc, geometry) {
        Ok(hands) => Ok(hands),
        Err(HandsError::Memory) => Err(Failure::Memory),
        Err(HandsError::BadGeometry) => unreachable!(),
    }
}

/// Sets the key once, and then makes the calls of the order.
pub fn measure(alloc: Global, order: &Order) -> Result<Made, Failure>
    requires { IsValid order.now.geometry }
    ensures calls { IfOk result (λ made. made.calls ≡ order.now.calls) }
    // This many calls of the request that the order spells finished, with this many steps in all.
    ensures made { IfOk result (λ made. MadeUnder order.now.core order.now.geometry (request_text order.now.command order.now.key order.now.value) order.now.calls made.steps) }
{
    let hands = hands_of(alloc, order.geometry)?;
    let mut words = Words::new(alloc, &order.geometry, 0)?;
    let mut traversal = Traversal::new(alloc, &order.geometry)?;
    let set = request(alloc, Command::Set, order.key, order.value)?;
    let text = request(alloc, order.command, order.key, order.value)?;
    measured(&mut traversal, &hands, &mut words, &set, &text, order)
}
