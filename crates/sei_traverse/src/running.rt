//! One step of a traversal, and many at once. Those of the passes are made as the loop over a pass makes them.
ghost use Rattle.std.specs.Prelude.{◌≡◌, ◌≤◌, ℕ, List, true, false};
ghost use Rattle.sei_fault.specs.Tree.{Runs};
ghost use Rattle.sei_words.specs.LentBucket.{place_of, IsOf};
ghost use Rattle.sei_pass.specs.Loop.{HasIndexAfter};
ghost use Rattle.sei_traverse.specs.Running.{halted_tree, rest, BeginsStep, RunsAs};
ghost use Rattle.sei_traverse.specs.Step.{step_result};
ghost use Rattle.sei_traverse.specs.Work.{work, TurnsAs};
ghost use Rattle.sei_traverse.specs.Workspaces.{IsWorkspace, FitsIn, Stays};

use crate::stepping::{arrive, next_phase};
use crate::turned::{Abort, Many, State, Turned, Want};
use crate::workspace::Workspace;
use sei_fault::{Core, Phase, Place, Times};
use sei_outside::Clock;
use sei_pass::{Exit, FirstStep, PassSpace, SecondStep, Slots};
use sei_stmt::Handler;

impl Workspace {
    /// Closes the phase of a pass, and goes on to the next phase.
    fn halt<K: Core>(&mut self, core: &mut K) -> State
        ensures halted { (words : List ℕ) → Runs K.gives (halted_tree self.old words) core.old core.new (step_result self.new words result) }
        ensures stays { Stays self.old self.new }
    {
        let phase = self.place.phase;
        let to = Place {
            phase: next_phase(phase),
            index: 0,
        };
        let ending = self.close(phase, Want::Nothing, to, core);
        self.go_on(ending, core)
    }

    /// Does what is left to do of a step of a pass that the loop over its steps left so.
    #[cold]
    #[inline(never)]
    pub fn rest<H: Handler, L: Slots, K: Core, C: Clock>(
        &mut self,
        exit: Exit,
        hands: &H,
        input: &[u8],
        space: &PassSpace,
        lent: &mut L,
        core: &mut K,
        clock: &C,
    ) -> State
        requires workspace { IsWorkspace self.old }
        requires space { self.old.first.space ≡ space.now }
        requires room { FitsIn space.now ((H.behavior hands.now).parsed input.now) self.old.sealed }
        requires index { HasIndexAfter exit self.old.place.index }
        requires lent { IsOf space.now.geometry (L.lent_bucket lent.old) }
        ensures rest { TurnsAs K.gives (C.told clock.now) (H.behavior hands.now) input.now space.now (rest exit)
            (work self.old (L.lent_bucket lent.old) core.old) (work self.new (L.lent_bucket lent.new) core.new) result }
        ensures lent { place_of (L.lent_bucket lent.new) ≡ place_of (L.lent_bucket lent.old) }
        ensures stays { Stays self.old self.new }
    {
        match exit {
            Exit::At(place) => {
                let phase = self.place.phase;
                self.place = place;
                arrive(phase, place, self.gate.done)
            }
            Exit::Halted => self.halt(core),
            Exit::Bad(cause) => State::Aborted(Abort {
                phase: self.place.phase,
                cause,
            }),
            Exit::Struck(act, times) => match times {
                Times::Once => self.once(hands, input, space, lent, core, clock),
                Times::Skip => {
                    let to = self.skipped(act);
                    self.go(to, core)
                }
                Times::Twice => self.twice(hands, input, space, lent, core, clock),
            },
            Exit::Alone => self.step_alone(hands, input, space, lent, core, clock),
        }
    }

    /// Makes a step of the first pass, as far as the loop over a pass makes it.
    #[inline(always)]
    fn lead_first<H: Handler, L: Slots, K: Core>(
        &mut self,
        hands: &H,
        lent: &mut L,
        core: &mut K,
        exit: &mut Exit,
    ) -> bool
        requires workspace { IsWorkspace self.old }
        requires first { self.old.place.phase ≡ Phase.First }
        ensures begins { BeginsStep K.gives (H.behavior hands.now)
            (work self.old (L.lent_bucket lent.old) core.old) (work self.new (L.lent_bucket lent.new) core.new) exit.new result }
        ensures after { result ≡ false → HasIndexAfter exit.new self.new.place.index }
        ensures want { result ≡ true → self.new.want ≡ Want.Nothing }
        ensures lent { place_of (L.lent_bucket lent.new) ≡ place_of (L.lent_bucket lent.old) }
        ensures stays { Stays self.old self.new }
    {
        self.want = Want::Nothing;
        let index = self.place.index;
        match self.first.lead_on::<FirstStep, H, L, K>(
            Phase::First,
            hands,
            lent,
            &mut self.first_log,
            core,
            index,
            exit,
        ) {
            Some(to) => {
                self.place = Place {
                    phase: Phase::First,
                    index: to,
                };
                true
            }
            None => false,
        }
    }

    /// Makes a step of the second pass, as far as the loop over a pass makes it.
    #[inline(always)]
    fn lead_second<H: Handler, L: Slots, K: Core>(
        &mut self,
        hands: &H,
        lent: &mut L,
        core: &mut K,
        exit: &mut Exit,
    ) -> bool
        requires workspace { IsWorkspace self.old }
        requires second { self.old.place.phase ≡ Phase.Second }
        ensures begins { BeginsStep K.gives (H.behavior hands.now)
            (work self.old (L.lent_bucket lent.old) core.old) (work self.new (L.lent_bucket lent.new) core.new) exit.new result }
        ensures after { result ≡ false → HasIndexAfter exit.new self.new.place.index }
        ensures want { result ≡ true → self.new.want ≡ Want.Nothing }
        ensures lent { place_of (L.lent_bucket lent.new) ≡ place_of (L.lent_bucket lent.old) }
        ensures stays { Stays self.old self.new }
    {
        self.want = Want::Nothing;
        let index = self.place.index;
        match self.second.lead_on::<SecondStep, H, L, K>(
            Phase::Second,
            hands,
            lent,
            &mut self.second_log,
            core,
            index,
            exit,
        ) {
            Some(to) => {
                self.place = Place {
                    phase: Phase::Second,
                    index: to,
                };
                true
            }
            None => false,
        }
    }

    /// Makes the step at this place as far as the loop over a pass makes it, and whether that was the
    /// whole step, and the traversal goes on. If not, `exit` says what is left of it.
    #[inline(always)]
    pub fn lead<H: Handler, L: Slots, K: Core>(
        &mut self,
        hands: &H,
        lent: &mut L,
        core: &mut K,
        exit: &mut Exit,
    ) -> bool
        requires workspace { IsWorkspace self.old }
        ensures begins { BeginsStep K.gives (H.behavior hands.now)
            (work self.old (L.lent_bucket lent.old) core.old) (work self.new (L.lent_bucket lent.new) core.new) exit.new result }
        ensures after { result ≡ false → HasIndexAfter exit.new self.new.place.index }
        ensures want { result ≡ true → self.new.want ≡ Want.Nothing }
        ensures lent { place_of (L.lent_bucket lent.new) ≡ place_of (L.lent_bucket lent.old) }
        ensures stays { Stays self.old self.new }
    {
        match self.place.phase {
            Phase::First => self.lead_first(hands, lent, core, exit),
            Phase::Second => self.lead_second(hands, lent, core, exit),
            Phase::Guard | Phase::Take | Phase::Restore | Phase::Compare => {
                *exit = Exit::Alone;
                false
            }
            Phase::Verify | Phase::Enter | Phase::Give | Phase::Send | Phase::Done => {
                *exit = Exit::Alone;
                false
            }
        }
    }

    /// Makes the steps of the first pass, up to the first that does not lead on in it.
    fn run_first<H: Handler, L: Slots, K: Core, C: Clock>(
        &mut self,
        hands: &H,
        input: &[u8],
        space: &PassSpace,
        lent: &mut L,
        core: &mut K,
        clock: &C,
    ) -> Many
        requires workspace { IsWorkspace self.old }
        requires space { self.old.first.space ≡ space.now }
        requires room { FitsIn space.now ((H.behavior hands.now).parsed input.now) self.old.sealed }
        requires lent { IsOf space.now.geometry (L.lent_bucket lent.old) }
        requires first { self.old.place.phase ≡ Phase.First }
        ensures run { RunsAs K.gives K.counts (C.told clock.now) (H.behavior hands.now) input.now space.now
            (work self.old (L.lent_bucket lent.old) core.old) (work self.new (L.lent_bucket lent.new) core.new) result }
        ensures few { result.before ≤ space.now.budget }
        ensures stays { Stays self.old self.new }
    {
        self.want = Want::Nothing;
        let from = self.place.index;
        let ran = self
            .first
            .run_on(Phase::First, hands, lent, &mut self.first_log, core, from);
        self.place = Place {
            phase: Phase::First,
            index: ran.index,
        };
        let state = self.rest(ran.exit, hands, input, space, lent, core, clock);
        Many {
            before: ran.before,
            turned: Turned {
                want: self.want,
                state,
            },
        }
    }

    /// Makes the steps of the second pass, up to the first that does not lead on in it.
    fn run_second<H: Handler, L: Slots, K: Core, C: Clock>(
        &mut self,
        hands: &H,
        input: &[u8],
        space: &PassSpace,
        lent: &mut L,
        core: &mut K,
        clock: &C,
    ) -> Many
        requires workspace { IsWorkspace self.old }
        requires space { self.old.first.space ≡ space.now }
        requires room { FitsIn space.now ((H.behavior hands.now).parsed input.now) self.old.sealed }
        requires lent { IsOf space.now.geometry (L.lent_bucket lent.old) }
        requires second { self.old.place.phase ≡ Phase.Second }
        ensures run { RunsAs K.gives K.counts (C.told clock.now) (H.behavior hands.now) input.now space.now
            (work self.old (L.lent_bucket lent.old) core.old) (work self.new (L.lent_bucket lent.new) core.new) result }
        ensures few { result.before ≤ space.now.budget }
        ensures stays { Stays self.old self.new }
    {
        self.want = Want::Nothing;
        let from = self.place.index;
        let ran = self.second.run_on(Phase::Second, hands, lent, &mut self.second_log, core, from);
        self.place = Place {
            phase: Phase::Second,
            index: ran.index,
        };
        let state = self.rest(ran.exit, hands, input, space, lent, core, clock);
        Many {
            before: ran.before,
            turned: Turned {
                want: self.want,
                state,
            },
        }
    }

    /// Makes one step, of a phase that has no loop.
    fn run_one<H: Handler, L: Slots, K: Core, C: Clock>(
        &mut self,
        hands: &H,
        input: &[u8],
        space: &PassSpace,
        lent: &mut L,
        core: &mut K,
        clock: &C,
    ) -> Many
        requires workspace { IsWorkspace self.old }
        requires space { self.old.first.space ≡ space.now }
        requires room { FitsIn space.now ((H.behavior hands.now).parsed input.now) self.old.sealed }
        requires lent { IsOf space.now.geometry (L.lent_bucket lent.old) }
        ensures run { RunsAs K.gives K.counts (C.told clock.now) (H.behavior hands.now) input.now space.now
            (work self.old (L.lent_bucket lent.old) core.old) (work self.new (L.lent_bucket lent.new) core.new) result }
        ensures few { result.before ≤ space.now.budget }
        ensures stays { Stays self.old self.new }
    {
        let state = self.step_alone(hands, input, space, lent, core, clock);
        Many {
            before: 0,
            turned: Turned {
                want: self.want,
                state,
            },
        }
    }

    /// Makes the steps of a pass up to the first that does not lead on in it, and of the other phases
    /// one step.
    #[inline(always)]
    pub fn run<H: Handler, L: Slots, K: Core, C: Clock>(
        &mut self,
        hands: &H,
        input: &[u8],
        space: &PassSpace,
        lent: &mut L,
        core: &mut K,
        clock: &C,
    ) -> Many
        requires workspace { IsWorkspace self.old }
        requires space { self.old.first.space ≡ space.now }
        requires room { FitsIn space.now ((H.behavior hands.now).parsed input.now) self.old.sealed }
        requires lent { IsOf space.now.geometry (L.lent_bucket lent.old) }
        ensures run { RunsAs K.gives K.counts (C.told clock.now) (H.behavior hands.now) input.now space.now
            (work self.old (L.lent_bucket lent.old) core.old) (work self.new (L.lent_bucket lent.new) core.new) result }
        ensures few { result.before ≤ space.now.budget }
        ensures stays { Stays self.old self.new }
    {
        match self.place.phase {
            Phase::First => self.run_first(hands, input, space, lent, core, clock),
            Phase::Second => self.run_second(hands, input, space, lent, core, clock),
            Phase::Guard | Phase::Take | Phase::Restore | Phase::Compare => {
                self.run_one(hands, input, space, lent, core, clock)
            }
            Phase::Verify | Phase::Enter | Phase::Give | Phase::Send | Phase::Done => {
                self.run_one(hands, input, space, lent, core, clock)
            }
        }
    }
}
