//! A traversal.
ghost use Rattle.std.specs.Prelude.{◌≡◌, ◌<◌, ◌≤◌, ◌^◌, IfOk, IfSome, length, true, false};
ghost use Rattle.mc_model.specs.Server.{IsValid};
ghost use Rattle.sei_code.specs.declared.modes.Mode.{Mode};
ghost use Rattle.sei_words.specs.Exits.{lent_at, lent_left};
ghost use Rattle.sei_words.specs.LentBucket.{IsOf};
ghost use Rattle.sei_pass.specs.Spaces.{pass_space};
ghost use Rattle.sei_traverse.specs.Bounds.{most_steps};
ghost use Rattle.sei_traverse.specs.Phases.{reply_of};
ghost use Rattle.sei_traverse.specs.Promises.{KeepsBound, KeepsRoom, KeepsOnWay, KeepsIsolated, RefusesUnfit};
ghost use Rattle.sei_traverse.specs.Running.{on, Makes, RunsOn};
ghost use Rattle.sei_traverse.specs.State.{IsTraversal, begun_traversal, new_traversal, noted_time};
ghost use Rattle.sei_traverse.specs.Workspaces.{FitsIn};

use crate::turned::{Many, State, Turned, Want};
use crate::workspace::{NO_NOTES, Workspace};
use mc_model::Geometry;
use sei_code::{Buffer, Coded, Memory, Mode};
use sei_fault::{Core, Phase, Place};
use sei_gate::Gate;
use sei_log::{Notes, WriteLog};
use sei_outside::Clock;
use sei_pass::{Exit, PassSpace, Sealed, Slots};
use sei_stmt::Handler;
use sei_words::{NoBucket, Words};
use std::alloc::Global;
use std::marker::Model;

/// The way of one call through all phases: two passes with their logs and outputs, what the first
/// one noted, the number of closed phases, and the copy for the wire.
#[derive(Drop)]
pub struct Traversal {
    workspace: Workspace,
    space: PassSpace,
    steps: u64,
    running: bool,
}

impl Model for Traversal {
    ghost use Rattle.sei_traverse.specs.State.{TraversalState, IsTraversal};

    ghost Value = { TraversalState };

    ghost view = { λ t. record { workspace = t.workspace; space = t.space; steps = t.steps; running = t.running } };

    ghost invariant = { λ t. IsTraversal (record { workspace = t.workspace; space = t.space; steps = t.steps; running = t.running }) };
}

/// A run stops after this number of steps, so that it ends whatever the core answers.
const MOST_BEFORE: u64 = 1 << 32;

/// How many steps a traversal makes at most, with one strike at most.
pub fn most_steps(g: &Geometry) -> u64
    requires { IsValid g.now }
    ensures { result ≡ most_steps (pass_space g.now) }
{
    let space = PassSpace::new(g, g.value_words);
    2 * space.budget + 6 * space.log + 26
}

impl Traversal {
    /// A traversal that has not begun, with the room that each call of this geometry needs. Nothing
    /// is allocated afterwards.
    pub fn new(alloc: Global, g: &Geometry) -> Result<Traversal, Memory>
        requires { IsValid g.now }
        ensures space { IfOk result (λ t. t.space ≡ pass_space g.now) }
        ensures running { IfOk result (λ t. t.running ≡ false) }
        ensures fresh { IfOk result (λ t. t ≡ new_traversal (pass_space g.now)) }
    {
        Ok(Traversal {
            workspace: Workspace::new(alloc, g)?,
            space: PassSpace::new(g, g.value_words),
            steps: 0,
            running: false,
        })
    }

    /// Begins, for the call that is sealed. Replies are sent as their bytes alone.
    pub fn begin(&mut self, sealed: Sealed, mode: Mode)
        requires plain { mode ≡ Mode.Plain }
        ensures { self.new ≡ begun_traversal self.old.space sealed }
    {
        match mode {
            Mode::Plain => self.begin_plain(sealed),
            Mode::Coded => unreachable!(),
        }
    }

    fn begin_plain(&mut self, sealed: Sealed)
        ensures { self.new ≡ begun_traversal self.old.space sealed }
    {
        self.workspace.sealed = sealed;
        self.workspace.place = Place {
            phase: Phase::Guard,
            index: 0,
        };
        self.workspace.gate = Gate::new();
        self.workspace.wanted = 0;
        self.workspace.want = Want::Nothing;
        self.workspace.first.clear();
        self.workspace.second.clear();
        self.workspace.first_log.clear();
        self.workspace.second_log.clear();
        self.workspace.notes = NO_NOTES;
        self.workspace.wire.clear();
        self.steps = 0;
        self.running = true;
    }

    /// The place of the next step.
    pub fn place(&self) -> Place
        ensures { result ≡ self.now.workspace.place }
    {
        self.workspace.place
    }

    /// How many phases are closed.
    pub fn gate(&self) -> u64
        ensures { result ≡ self.now.workspace.gate.done }
    {
        self.workspace.gate.done
    }

    /// How many steps were made since it began. The last value stays.
    pub fn steps(&self) -> u64
        ensures { result ≡ self.now.steps }
    {
        self.steps
    }

    /// The number of the bucket that is wanted; 0 before that was stored.
    pub fn wanted(&self) -> u64
        ensures { result ≡ self.now.workspace.wanted }
    {
        self.workspace.wanted
    }

    /// The reply: the output bytes of the second pass.
    pub fn reply(&self) -> &[u8]
        ensures bytes { result.now ≡ reply_of self.now.workspace }
        ensures fits { length result.now ≤ self.now.space.bytes }
    {
        self.workspace.second.bytes()
    }

    /// The copy of the reply for the wire.
    pub fn wire(&self) -> &[u8]
        ensures bytes { result.now ≡ self.now.workspace.wire.items }
        ensures fits { length result.now ≤ self.now.space.bytes }
    {
        self.workspace.wire.bytes()
    }

    /// How many bytes a reply has at most.
    pub fn reply_room(&self) -> u64
        ensures { result ≡ self.now.space.bytes }
    {
        self.space.bytes
    }

    /// The time that the first pass was told and noted, if the note reads.
    pub fn now(&self) -> Option<u64>
        ensures noted { result ≡ noted_time self.now }
        ensures small { IfSome (noted_time self.now) (λ time. time < 2 ^ 64) }
    {
        match self.workspace.notes.now {
            None => None,
            Some(note) => note.read(),
        }
    }

    /// Makes one step, with each of its effects asked of `core`. `lent` are the words of the bucket
    /// that is lent, if one is.
    #[inline(always)]
    pub fn step<H: Handler, K: Core, C: Clock>(
        &mut self,
        hands: &H,
        input: &[u8],
        lent: Option<&mut Words>,
        core: &mut K,
        clock: &C,
    ) -> Turned
        requires running { self.old.running ≡ true }
        // The input words of the passes have room for what the hands make of the input.
        requires room { FitsIn self.old.space ((H.behavior hands.now).parsed input.now) self.old.workspace.sealed }
        // What is lent is of the traversal's geometry.
        requires lent { IsOf self.old.space.geometry (lent_at lent) }
        // The step is that of the definition, whatever the core answers.
        ensures makes { Makes K.gives K.counts (C.told clock.now) (H.behavior hands.now) input.now
            (on self.old (lent_at lent.entry) core.old) (on self.new (lent_left lent.exit) core.new) result }
        // Each step but a struck one comes further, so with one strike at most the number of steps is bounded.
        ensures within { KeepsBound K.counts (on self.old (lent_at lent.entry) core.old) (on self.new (lent_left lent.exit) core.new) result }
        // If the core tells how many strikes can still fall, it still does, and each strike is one less.
        ensures room { KeepsRoom K.counts (on self.old (lent_at lent.entry) core.old) (on self.new (lent_left lent.exit) core.new) }
        // A traversal that is on its way stays on it: it is refused or aborts only if a strike fell since it began,
        // and otherwise stands where its definition leads, or has come to its end.
        ensures on_way { KeepsOnWay K.counts (C.told clock.now) (H.behavior hands.now) input.now
            (on self.old (lent_at lent.entry) core.old) (on self.new (lent_left lent.exit) core.new) result }
        // One strike is isolated: what is known of a traversal is known after each step; what it wants is so, and is wanted
        // but once; it aborts only if a strike fell, and is refused only before Take is closed. If the caller follows what
        // is wanted, it lends what the next step asks for.
        ensures isolated { KeepsIsolated K.counts (C.told clock.now) (H.behavior hands.now) input.now
            (on self.old (lent_at lent.entry) core.old) (on self.new (lent_left lent.exit) core.new) result }
        // Without a strike an input that does not pass the tests of Guard is refused.
        ensures refused { RefusesUnfit K.counts (H.behavior hands.now) input.now
            (on self.old (lent_at lent.entry) core.old) (on self.new (lent_left lent.exit) core.new) result }
    {
        match lent {
            None => self.step_on(hands, input, &mut NoBucket, core, clock),
            Some(words) => self.step_on(hands, input, words, core, clock),
        }
    }

    /// The same step, on what is lent.
    #[inline(always)]
    fn step_on<H: Handler, L: Slots, K: Core, C: Clock>(
        &mut self,
        hands: &H,
        input: &[u8],
        lent: &mut L,
        core: &mut K,
        clock: &C,
    ) -> Turned
        requires running { self.old.running ≡ true }
        requires room { FitsIn self.old.space ((H.behavior hands.now).parsed input.now) self.old.workspace.sealed }
        requires lent { IsOf self.old.space.geometry (L.lent_bucket lent.old) }
        ensures makes { Makes K.gives K.counts (C.told clock.now) (H.behavior hands.now) input.now
            (on self.old (L.lent_bucket lent.old) core.old) (on self.new (L.lent_bucket lent.new) core.new) result }
        ensures within { KeepsBound K.counts (on self.old (L.lent_bucket lent.old) core.old) (on self.new (L.lent_bucket lent.new) core.new) result }
        ensures room { KeepsRoom K.counts (on self.old (L.lent_bucket lent.old) core.old) (on self.new (L.lent_bucket lent.new) core.new) }
        ensures on_way { KeepsOnWay K.counts (C.told clock.now) (H.behavior hands.now) input.now
            (on self.old (L.lent_bucket lent.old) core.old) (on self.new (L.lent_bucket lent.new) core.new) result }
        ensures isolated { KeepsIsolated K.counts (C.told clock.now) (H.behavior hands.now) input.now
            (on self.old (L.lent_bucket lent.old) core.old) (on self.new (L.lent_bucket lent.new) core.new) result }
        ensures refused { RefusesUnfit K.counts (H.behavior hands.now) input.now
            (on self.old (L.lent_bucket lent.old) core.old) (on self.new (L.lent_bucket lent.new) core.new) result }
    {
        self.make(hands, input, lent, core, clock)
    }

    /// The same step, which is often one of a pass that leads on in it.
    #[inline(always)]
    fn make<H: Handler, L: Slots, K: Core, C: Clock>(
        &mut self,
        hands: &H,
        input: &[u8],
        lent: &mut L,
        core: &mut K,
        clock: &C,
    ) -> Turned
        requires running { self.old.running ≡ true }
        requires room { FitsIn self.old.space ((H.behavior hands.now).parsed input.now) self.old.workspace.sealed }
        requires lent { IsOf self.old.space.geometry (L.lent_bucket lent.old) }
        ensures makes { Makes K.gives K.counts (C.told clock.now) (H.behavior hands.now) input.now
            (on self.old (L.lent_bucket lent.old) core.old) (on self.new (L.lent_bucket lent.new) core.new) result }
        ensures traversal { IsTraversal self.old }
    {
        self.steps = self.steps.saturating_add(1);
        let mut exit = Exit::Alone;
        if self.workspace.lead(hands, lent, core, &mut exit) {
            Turned {
                want: Want::Nothing,
                state: State::Went,
            }
        } else {
            let state = self
                .workspace
                .rest(exit, hands, input, &self.space, lent, core, clock);
            self.running = state == State::Went;
            Turned {
                want: self.workspace.want,
                state,
            }
        }
    }

    /// Makes one step or more, each as `step` does, up to the first that wants something or ends the
    /// traversal. It stops sooner only after more steps than a traversal makes with one strike at most.
    pub fn run<H: Handler, K: Core, C: Clock>(
        &mut self,
        hands: &H,
        input: &[u8],
        lent: Option<&mut Words>,
        core: &mut K,
        clock: &C,
    ) -> Many
        requires running { self.old.running ≡ true }
        requires room { FitsIn self.old.space ((H.behavior hands.now).parsed input.now) self.old.workspace.sealed }
        requires lent { IsOf self.old.space.geometry (lent_at lent) }
        // So many steps that want nothing, and one more: each is that of the definition, whatever the core answers.
        ensures run { RunsOn K.gives K.counts (C.told clock.now) (H.behavior hands.now) input.now result.before
            (on self.old (lent_at lent.entry) core.old) (on self.new (lent_left lent.exit) core.new) result.turned }
    {
        match lent {
            None => self.run_on(hands, input, &mut NoBucket, core, clock),
            Some(words) => self.run_on(hands, input, words, core, clock),
        }
    }

    /// The same steps, on what is lent.
    fn run_on<H: Handler, L: Slots, K: Core, C: Clock>(
        &mut self,
        hands: &H,
        input: &[u8],
        lent: &mut L,
        core: &mut K,
        clock: &C,
    ) -> Many
        requires running { self.old.running ≡ true }
        requires room { FitsIn self.old.space ((H.behavior hands.now).parsed input.now) self.old.workspace.sealed }
        requires lent { IsOf self.old.space.geometry (L.lent_bucket lent.old) }
        ensures run { RunsOn K.gives K.counts (C.told clock.now) (H.behavior hands.now) input.now result.before
            (on self.old (L.lent_bucket lent.old) core.old) (on self.new (L.lent_bucket lent.new) core.new) result.turned }
    {
        let mut many = self.run_part(hands, input, lent, core, clock);
        while many.before < MOST_BEFORE && many.turned.is_quiet() {
            let more = self.run_part(hands, input, lent, core, clock);
            many = Many {
                before: many.before + 1 + more.before,
                turned: more.turned,
            };
        }
        many
    }

    /// Makes the steps of a pass up to the first that does not lead on in it or whose statement is a
    /// rare one (`Now`, `Alloc`, `Parse` or `Render`), and of the other phases one step.
    #[inline(always)]
    fn run_part<H: Handler, L: Slots, K: Core, C: Clock>(
        &mut self,
        hands: &H,
        input: &[u8],
        lent: &mut L,
        core: &mut K,
        clock: &C,
    ) -> Many
        requires running { self.old.running ≡ true }
        requires room { FitsIn self.old.space ((H.behavior hands.now).parsed input.now) self.old.workspace.sealed }
        requires lent { IsOf self.old.space.geometry (L.lent_bucket lent.old) }
        ensures run { RunsOn K.gives K.counts (C.told clock.now) (H.behavior hands.now) input.now result.before
            (on self.old (L.lent_bucket lent.old) core.old) (on self.new (L.lent_bucket lent.new) core.new) result.turned }
        ensures few { result.before < 2 ^ 20 }
    {
        let many = self
            .workspace
            .run(hands, input, &self.space, lent, core, clock);
        self.steps = self.steps.saturating_add(many.before).saturating_add(1);
        self.running = many.turned.state == State::Went;
        many
    }
}
