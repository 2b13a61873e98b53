//! What each step of a traversal does: how often its act is made, and where it goes on.
ghost use Rattle.std.specs.Prelude.{◌≡◌, ℕ, ◌+◌, ◌<◌, ◌^◌, IfSome, List};
ghost use Rattle.sei_fault.specs.Tree.{Runs};
ghost use Rattle.sei_words.specs.LentBucket.{place_of, IsOf};
ghost use Rattle.sei_traverse.specs.Acts.{next_phase};
ghost use Rattle.sei_traverse.specs.Step.{site_of, is_halt, is_last, skipped, step_result, arrival, is_end, plain_below, goes, goes_from};
ghost use Rattle.sei_traverse.specs.Step.{once, made_twice, step_of, traversal_step};
ghost use Rattle.sei_traverse.specs.Work.{work, GoesAs, TurnsAs};
ghost use Rattle.sei_traverse.specs.Workspaces.{IsWorkspace, FitsIn, Stays};

use crate::turned::{Abort, State, Want};
use crate::workspace::{Ending, Workspace};
use sei_fault::{AbortCause, Act, Core, Phase, Place, Site, Times};
use sei_outside::Clock;
use sei_pass::{PassSpace, Slots};
use sei_stmt::Handler;

/// The phase after this one; after the last one there is none.
pub fn next_phase(phase: Phase) -> Phase
    ensures { result ≡ next_phase phase }
{
    match phase {
        Phase::Guard => Phase::Take,
        Phase::Take => Phase::First,
        Phase::First => Phase::Restore,
        Phase::Restore => Phase::Second,
        Phase::Second => Phase::Compare,
        Phase::Compare => Phase::Verify,
        Phase::Verify => Phase::Enter,
        Phase::Enter => Phase::Give,
        Phase::Give => Phase::Send,
        Phase::Send | Phase::Done => Phase::Done,
    }
}

fn is_halt(act: Act) -> bool
    ensures { result ≡ is_halt act }
{
    match act {
        Act::Halt => true,
        Act::Plain | Act::Load(_) | Act::Store(_) => false,
        Act::Now | Act::Alloc | Act::Parse | Act::Render => false,
    }
}

/// Whether a place is the end of a traversal.
fn is_end(place: Place) -> bool
    ensures { result ≡ is_end place }
{
    place.phase.number() == 10 && place.index == 1
}

/// How a step ends that arrives at this place, with n closed phases.
pub fn arrive(phase: Phase, place: Place, done: u64) -> State
    ensures { result ≡ arrival phase place done }
{
    if is_end(place) {
        if done == 11 {
            State::Finished
        } else {
            State::Aborted(Abort {
                phase,
                cause: AbortCause::Gate { done },
            })
        }
    } else {
        State::Went
    }
}

/// Another step than one of a pass, if its phase has it.
fn plain_below(steps: u64, index: u64) -> Option<Act>
    ensures act { result ≡ plain_below steps index }
    ensures below { IfSome result (λ _. index < steps) }
{
    if index < steps {
        Some(Act::Plain)
    } else {
        None
    }
}

impl Workspace {
    /// What the step at this place is told as, or `None` if the place is no step of its phase.
    #[inline(always)]
    fn site<H: Handler>(&self, hands: &H) -> Option<Act>
        requires { IsWorkspace self.now }
        ensures act { result ≡ site_of (H.behavior hands.now) self.now }
        ensures below { IfSome result (λ _. self.now.place.index + 1 < 2 ^ 64) }
    {
        let index = self.place.index;
        match self.place.phase {
            Phase::First => self.first.act(hands, index),
            Phase::Second => self.second.act(hands, index),
            Phase::Take => plain_below(2, index),
            Phase::Restore => plain_below(self.first_log.len() + 1, index),
            Phase::Compare => plain_below(self.compared() + 1, index),
            Phase::Verify => plain_below(self.second_log.len() + 2, index),
            Phase::Guard | Phase::Enter | Phase::Give | Phase::Send | Phase::Done => {
                plain_below(1, index)
            }
        }
    }

    /// Whether no further step of the phase comes after this one, which is told as `act`.
    fn is_last(&self, act: Act) -> bool
        requires { IsWorkspace self.now }
        ensures { result ≡ is_last self.now self.now.place.phase self.now.place.index act }
    {
        let index = self.place.index;
        match self.place.phase {
            Phase::Take => index == 1,
            Phase::First | Phase::Second => is_halt(act),
            Phase::Restore => index == self.first_log.len(),
            Phase::Compare => index == self.compared(),
            Phase::Verify => index == self.second_log.len() + 1,
            Phase::Guard | Phase::Enter | Phase::Give | Phase::Send => true,
            Phase::Done => false,
        }
    }

    /// Where a step goes on whose act was left out.
    pub fn skipped(&self, act: Act) -> Place
        requires workspace { IsWorkspace self.now }
        requires index { self.now.place.index + 1 < 2 ^ 64 }
        ensures { result ≡ skipped self.now act }
    {
        let phase = self.place.phase;
        if self.is_last(act) {
            Place {
                phase: next_phase(phase),
                index: 0,
            }
        } else {
            Place {
                phase,
                index: self.place.index + 1,
            }
        }
    }

    /// Asks where to go on, and goes there.
    #[inline(always)]
    pub fn go<K: Core>(&mut self, to: Place, core: &mut K) -> State
        ensures gone { (words : List ℕ) → Runs K.gives (goes self.old words to) core.old core.new (step_result self.new words result) }
        ensures stays { Stays self.old self.new }
    {
        let phase = self.place.phase;
        self.place = core.next(to);
        arrive(phase, self.place, self.gate.done)
    }

    /// Goes on after an act, unless that ended the traversal.
    #[inline(always)]
    pub fn go_on<K: Core>(&mut self, ending: Ending, core: &mut K) -> State
        ensures gone { (words : List ℕ) → Runs K.gives (goes_from self.old words ending) core.old core.new (step_result self.new words result) }
        ensures stays { Stays self.old self.new }
    {
        match ending {
            Ending::Leads(to) => self.go(to, core),
            Ending::Refuses => State::Refused,
            Ending::Aborts(cause) => State::Aborted(Abort {
                phase: self.place.phase,
                cause,
            }),
        }
    }

    /// Does the act of the step, and goes on.
    #[inline(always)]
    pub fn once<H: Handler, L: Slots, K: Core, C: Clock>(
        &mut self,
        hands: &H,
        input: &[u8],
        space: &PassSpace,
        lent: &mut L,
        core: &mut K,
        clock: &C,
    ) -> State
        requires workspace { IsWorkspace self.old }
        requires space { self.old.first.space ≡ space.now }
        requires room { FitsIn space.now ((H.behavior hands.now).parsed input.now) self.old.sealed }
        requires index { self.old.place.index + 1 < 2 ^ 64 }
        requires lent { IsOf space.now.geometry (L.lent_bucket lent.old) }
        ensures once { GoesAs K.gives (C.told clock.now) (H.behavior hands.now) input.now space.now once
            (work self.old (L.lent_bucket lent.old) core.old) (work self.new (L.lent_bucket lent.new) core.new) result }
        ensures lent { place_of (L.lent_bucket lent.new) ≡ place_of (L.lent_bucket lent.old) }
        ensures stays { Stays self.old self.new }
    {
        let ending = self.act(hands, input, space, lent, core, clock);
        self.go_on(ending, core)
    }

    /// Does the act of the step two times, unless the first one ended the traversal.
    #[inline(never)]
    pub fn twice<H: Handler, L: Slots, K: Core, C: Clock>(
        &mut self,
        hands: &H,
        input: &[u8],
        space: &PassSpace,
        lent: &mut L,
        core: &mut K,
        clock: &C,
    ) -> State
        requires workspace { IsWorkspace self.old }
        requires space { self.old.first.space ≡ space.now }
        requires room { FitsIn space.now ((H.behavior hands.now).parsed input.now) self.old.sealed }
        requires index { self.old.place.index + 1 < 2 ^ 64 }
        requires lent { IsOf space.now.geometry (L.lent_bucket lent.old) }
        ensures twice { TurnsAs K.gives (C.told clock.now) (H.behavior hands.now) input.now space.now made_twice
            (work self.old (L.lent_bucket lent.old) core.old) (work self.new (L.lent_bucket lent.new) core.new) result }
        ensures lent { place_of (L.lent_bucket lent.new) ≡ place_of (L.lent_bucket lent.old) }
        ensures stays { Stays self.old self.new }
    {
        match self.act(hands, input, space, lent, core, clock) {
            Ending::Leads(_) => self.once(hands, input, space, lent, core, clock),
            Ending::Refuses => State::Refused,
            Ending::Aborts(cause) => State::Aborted(Abort {
                phase: self.place.phase,
                cause,
            }),
        }
    }

    /// Asks how often the act of the step is to be done, does it, and goes on.
    #[inline(always)]
    fn make_act<H: Handler, L: Slots, K: Core, C: Clock>(
        &mut self,
        act: Act,
        hands: &H,
        input: &[u8],
        space: &PassSpace,
        lent: &mut L,
        core: &mut K,
        clock: &C,
    ) -> State
        requires workspace { IsWorkspace self.old }
        requires space { self.old.first.space ≡ space.now }
        requires room { FitsIn space.now ((H.behavior hands.now).parsed input.now) self.old.sealed }
        requires index { self.old.place.index + 1 < 2 ^ 64 }
        requires lent { IsOf space.now.geometry (L.lent_bucket lent.old) }
        ensures turned { TurnsAs K.gives (C.told clock.now) (H.behavior hands.now) input.now space.now (step_of act)
            (work self.old (L.lent_bucket lent.old) core.old) (work self.new (L.lent_bucket lent.new) core.new) result }
        ensures lent { place_of (L.lent_bucket lent.new) ≡ place_of (L.lent_bucket lent.old) }
        ensures stays { Stays self.old self.new }
    {
        let site = Site {
            place: self.place,
            act,
        };
        match core.times(site) {
            Times::Once => self.once(hands, input, space, lent, core, clock),
            Times::Skip => {
                let to = self.skipped(act);
                self.go(to, core)
            }
            Times::Twice => self.twice(hands, input, space, lent, core, clock),
        }
    }

    /// Makes the step at this place by itself, whatever its phase.
    #[inline(never)]
    pub fn step_alone<H: Handler, L: Slots, K: Core, C: Clock>(
        &mut self,
        hands: &H,
        input: &[u8],
        space: &PassSpace,
        lent: &mut L,
        core: &mut K,
        clock: &C,
    ) -> State
        requires workspace { IsWorkspace self.old }
        requires space { self.old.first.space ≡ space.now }
        requires room { FitsIn space.now ((H.behavior hands.now).parsed input.now) self.old.sealed }
        requires lent { IsOf space.now.geometry (L.lent_bucket lent.old) }
        ensures turned { TurnsAs K.gives (C.told clock.now) (H.behavior hands.now) input.now space.now traversal_step
            (work self.old (L.lent_bucket lent.old) core.old) (work self.new (L.lent_bucket lent.new) core.new) result }
        ensures lent { place_of (L.lent_bucket lent.new) ≡ place_of (L.lent_bucket lent.old) }
        ensures stays { Stays self.old self.new }
    {
        self.want = Want::Nothing;
        match self.site(hands) {
            None => State::Aborted(Abort {
                phase: self.place.phase,
                cause: AbortCause::Table {
                    index: self.place.index,
                },
            }),
            Some(act) => self.make_act(act, hands, input, space, lent, core, clock),
        }
    }
}
