//! A server whose buckets are words: it answers a call by one traversal, whose two passes of the table
//! work on the words of the call's bucket, with the fault that is planned for it.
ghost use Rattle.std.specs.Prelude.{◌≡◌, ◌+◌, ◌≤◌, IfOk, OnOk, true, map, length, All, None, Some};
ghost use Rattle.std.specs.List.{range_with_len};
ghost use Rattle.mc_model.specs.Server.{IsValid};
ghost use Rattle.sei_words.specs.Words.{fresh_words};
ghost use Rattle.sei_stmt.specs.Handling.{parsed_words};
ghost use Rattle.sei_pass.specs.Setting.{sealed_call};
ghost use Rattle.sei_pass.specs.Spaces.{input_room, bytes_room, pass_space};
ghost use Rattle.sei_hand.specs.Requests.{parsed_call};
ghost use Rattle.sei_traverse.specs.Bounds.{most_steps};
ghost use Rattle.sei_main.specs.State.{limits_of};
ghost use Rattle.sei_main.specs.Tables.{fresh_tables, IsOfGeometry};
ghost use Rattle.sei_main.specs.TableAnswers.{table_answering, sealed_for};
ghost use Rattle.sei_main.specs.Course.{lent_behind, served_behind, is_ended, unserved, course_of};
ghost use Rattle.sei_main.specs.SoFar.{served_in, HasRoom};
ghost use Rattle.sei_main.specs.Turning.{IsStep, IsTurn};

use crate::world::{Entered, Numbers, Served, Service};
use mc_model::{CallSpan, Geometry};
use sei_code::{Buffer, Coded, Memory, Mode, message_code};
use sei_fault::{Planned, ScriptCore};
use sei_hand::{Hands, HandsError};
use sei_outside::SetClock;
use sei_pass::Sealed;
use sei_script::Text;
use sei_traverse::{State, Traversal, Turned, Want, most_steps};
use sei_words::Words;
use std::alloc::{AllocError, Global};
use std::marker::Model;

/// The words of as many empty buckets as the geometry says.
fn fresh_buckets(alloc: Global, g: &Geometry) -> Result<Vec<Words>, Memory>
    requires { IsValid g.now }
    ensures { IfOk result (λ buckets. buckets.items ≡ map (fresh_words g.now) (range_with_len 0 g.now.buckets)) }
{
    let mut buckets = Vec::new(alloc);
    for bucket in 0..g.buckets {
        buckets.push(Words::new(alloc, g, bucket)?)?;
    }
    Ok(buckets)
}

/// The bucket that is lent after a step that wants this: one is from the want of `Take` to the want of
/// `Give`.
fn lent_behind(want: Want, lent: Option<u64>) -> Option<u64>
    ensures { result ≡ lent_behind want lent }
{
    match want {
        Want::Take { bucket } => Some(bucket),
        Want::Give => None,
        Want::Nothing | Want::Enter | Want::Send => lent,
    }
}

/// Makes a step of the traversal, with the words of a bucket lent.
#[inline(always)]
fn turn_on(
    traversal: &mut Traversal,
    hands: &Hands,
    text: &[u8],
    words: &mut Words,
    core: &mut ScriptCore,
    clock: &SetClock,
) -> Turned
    requires running { traversal.old.running ≡ true }
    requires room { length (parsed_words (sealed_call (parsed_call hands.now text.now) traversal.old.workspace.sealed.nth)) ≤ traversal.old.space.input }
    requires laid_out { words.old.geometry ≡ traversal.old.space.geometry }
    ensures { IsStep hands.now text.now clock.now.at (Some words.old) (Some words.new) traversal.old traversal.new core.old core.new result }
{
    traversal.step(hands, text, Some(words), core, clock)
}

/// Makes a step of the traversal, with nothing lent.
#[inline(never)]
fn turn_alone(
    traversal: &mut Traversal,
    hands: &Hands,
    text: &[u8],
    core: &mut ScriptCore,
    clock: &SetClock,
) -> Turned
    requires running { traversal.old.running ≡ true }
    requires room { length (parsed_words (sealed_call (parsed_call hands.now text.now) traversal.old.workspace.sealed.nth)) ≤ traversal.old.space.input }
    ensures { IsStep hands.now text.now clock.now.at None None traversal.old traversal.new core.old core.new result }
{
    traversal.step(hands, text, None, core, clock)
}

/// Makes a step of the traversal. The words of the bucket that is lent go with it; one that is not there
/// has none.
#[inline(always)]
fn turn(
    traversal: &mut Traversal,
    hands: &Hands,
    text: &[u8],
    buckets: &mut Vec<Words>,
    lent: Option<u64>,
    core: &mut ScriptCore,
    clock: &SetClock,
) -> Turned
    requires running { traversal.old.running ≡ true }
    requires room { length (parsed_words (sealed_call (parsed_call hands.now text.now) traversal.old.workspace.sealed.nth)) ≤ traversal.old.space.input }
    requires space { traversal.old.space ≡ pass_space hands.now }
    requires laid_out { All (IsOfGeometry hands.now) buckets.old.items }
    ensures turned { IsTurn hands.now text.now clock.now.at lent traversal.old traversal.new buckets.old.items buckets.new.items core.old core.new result }
    ensures laid_out { All (IsOfGeometry hands.now) buckets.new.items }
{
    match lent {
        Some(bucket) if bucket < buckets.len() as u64 => {
            let words = &mut buckets[bucket as usize];
            turn_on(traversal, hands, text, words, core, clock)
        }
        Some(_) => turn_alone(traversal, hands, text, core, clock),
        None => turn_alone(traversal, hands, text, core, clock),
    }
}

/// What became of a call so far. Its buffers are made before its traversal begins, so that nothing is
/// allocated while that goes on.
#[derive(Drop)]
struct SoFar {
    /// The time of its entry, once it was entered.
    entered: Option<u64>,
    /// The reply in its entry.
    reply: Buffer,
    /// The message that was sent; an empty one before that.
    message: Buffer,
    /// How the last step turned out.
    state: State,
}

impl SoFar {
    /// Of a call that begins, with n bytes of room for its reply.
    fn new(alloc: Global, room: usize) -> Result<SoFar, Memory>
        ensures served { IfOk result (λ so_far. served_in so_far ≡ unserved) }
        ensures room { IfOk result (HasRoom room) }
    {
        Ok(SoFar {
            entered: None,
            reply: Buffer::new(alloc, room)?,
            message: Buffer::new(alloc, room)?,
            state: State::Went,
        })
    }

    /// Does what the last step wanted of the journal and of the connection: the call is entered, at
    /// the noted time, with the reply; the copy for the wire is sent.
    #[inline(always)]
    fn meet(&mut self, traversal: &Traversal, turned: Turned)
        requires { HasRoom traversal.now.space.bytes self.old }
        ensures served { served_in self.new ≡ served_behind turned.want traversal.now.workspace (served_in self.old) turned.state }
        ensures room { HasRoom traversal.now.space.bytes self.new }
    {
        match turned.want {
            Want::Enter => {
                self.entered = Some(traversal.now().unwrap_or(0));
                self.reply.clear();
                self.reply.extend_from_slice(traversal.reply());
            }
            Want::Send => {
                self.message.clear();
                self.message.extend_from_slice(traversal.wire());
            }
            Want::Nothing | Want::Take { .. } | Want::Give => {}
        }
        self.state = turned.state;
    }

    /// What became of the call, once its traversal came to an end.
    fn finish(self) -> Served
        ensures { result ≡ served_in self }
    {
        let message = Text::new(self.message.into_vec());
        match self.entered {
            None => Served {
                entered: None,
                message,
                state: self.state,
            },
            Some(now) => Served {
                entered: Some(Entered {
                    now,
                    reply: Text::new(self.reply.into_vec()),
                }),
                message,
                state: self.state,
            },
        }
    }
}

/// Whether a traversal came to an end of whichever kind.
fn is_ended(state: State) -> bool
    ensures { result ≡ is_ended state }
{
    match state {
        State::Went => false,
        State::Finished | State::Refused | State::Aborted(_) => true,
    }
}

/// Whether a step wanted nothing and the traversal goes on, as most do.
#[inline(always)]
fn is_quiet(turned: &Turned) -> bool
    ensures { result ≡ true → (turned.now.want ≡ Want.Nothing) × (turned.now.state ≡ State.Went) }
{
    match turned.want {
        Want::Nothing => match turned.state {
            State::Went => true,
            State::Finished | State::Refused | State::Aborted(_) => false,
        },
        Want::Take { .. } | Want::Enter | Want::Give | Want::Send => false,
    }
}

/// Leads a traversal from its begin to its end, for the sealed call, with the fault that is planned for
/// it.
fn traverse(
    traversal: &mut Traversal,
    hands: &Hands,
    buckets: &mut Vec<Words>,
    plan: Option<Planned>,
    now: u64,
    text: &[u8],
    sealed: Sealed,
    mut so_far: SoFar,
    limit: u64,
) -> Served
    requires space { traversal.old.space ≡ pass_space hands.now }
    requires laid_out { All (IsOfGeometry hands.now) buckets.old.items }
    requires room { length (parsed_words (sealed_call (parsed_call hands.now text.now) sealed.nth)) ≤ input_room hands.now }
    requires begins { served_in so_far ≡ unserved }
    requires reply_room { HasRoom (bytes_room hands.now) so_far }
    requires limit { limit ≡ most_steps (pass_space hands.now) + 1 }
    ensures buckets { buckets.new.items ≡ (course_of hands.now text.now now buckets.old.items sealed plan).buckets }
    ensures served { result ≡ (course_of hands.now text.now now buckets.old.items sealed plan).served }
    ensures laid_out { All (IsOfGeometry hands.now) buckets.new.items }
    ensures space { traversal.new.space ≡ pass_space hands.now }
{
    let clock = SetClock { at: now };
    let mut core = ScriptCore::new(plan);
    let mut lent = None;
    traversal.begin(sealed, Mode::Plain);
    for _ in 0..limit {
        let turned = turn(traversal, hands, text, buckets, lent, &mut core, &clock);
        if is_quiet(&turned) {
            continue;
        }
        lent = lent_behind(turned.want, lent);
        so_far.meet(traversal, turned);
        if is_ended(turned.state) {
            return so_far.finish();
        }
    }
    unreachable!()
}

/// A server whose buckets are words. It stands for its geometry and the words of its buckets.
#[derive(Drop)]
pub struct TableServer {
    alloc: Global,
    geometry: Geometry,
    hands: Hands,
    buckets: Vec<Words>,
    traversal: Traversal,
}

impl Model for TableServer {
    ghost use Rattle.std.specs.Prelude.{◌≡◌};
    ghost use Rattle.sei_main.specs.Tables.{Tables, IsTableServer};

    ghost Value = { Tables };

    ghost view = { λ t. record { geometry = t.geometry; buckets = t.buckets.items } };

    ghost invariant = { λ t. (t.hands ≡ t.geometry) × IsTableServer (record { geometry = t.geometry; buckets = t.buckets.items }) t.traversal };
}

impl TableServer {
    /// A server that was asked nothing yet. The error is that memory ran out.
    pub fn new(alloc: Global, geometry: Geometry) -> Result<TableServer, Memory>
        requires { IsValid geometry }
        ensures { IfOk result (λ server. server ≡ fresh_tables geometry) }
    {
        let hands = match Hands::new(alloc, geometry) {
            Ok(hands) => hands,
            Err(HandsError::Memory) => return Err(AllocError),
            Err(HandsError::BadGeometry) => unreachable!(),
        };
        Ok(TableServer {
            alloc,
            geometry,
            hands,
            buckets: fresh_buckets(alloc, &geometry)?,
            traversal: Traversal::new(alloc, &geometry)?,
        })
    }
}

/// The call of a request that was let in.
fn sealed_for(text: &[u8], nth: u64, numbers: Numbers) -> Sealed
    ensures { result ≡ sealed_for text.now nth numbers }
{
    Sealed {
        number: numbers.request,
        nth: Coded::seal(nth),
        code: message_code(numbers.request, text),
        answer: numbers.reply,
    }
}

impl Service for TableServer {
    ghost answering = { table_answering };

    ghost limits = { λ t. limits_of t.geometry };

    fn answer(
        &mut self,
        now: u64,
        text: &[u8],
        nth: u64,
        _call: &CallSpan,
        numbers: Numbers,
        plan: Option<Planned>,
    ) -> Result<Served, Memory> {
        let sealed = sealed_for(text, nth, numbers);
        let limit = most_steps(&self.geometry) + 1;
        let so_far = SoFar::new(self.alloc, self.traversal.reply_room() as usize)?;
        Ok(traverse(
            &mut self.traversal,
            &self.hands,
            &mut self.buckets,
            plan,
            now,
            text,
            sealed,
            so_far,
            limit,
        ))
    }
}
