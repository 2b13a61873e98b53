//! The acts of the two passes.
ghost use Rattle.std.specs.Prelude.{◌≡◌};
ghost use Rattle.sei_words.specs.LentBucket.{place_of, IsOf};
ghost use Rattle.sei_traverse.specs.PassActs.{pass_phase, passing};
ghost use Rattle.sei_traverse.specs.Work.{work, ActsAs, StepsIn};
ghost use Rattle.sei_traverse.specs.Workspaces.{IsWorkspace, FitsIn, Stays};

use crate::stepping::next_phase;
use crate::turned::Want;
use crate::workspace::{Ending, Workspace};
use sei_fault::{Core, Phase, Place};
use sei_outside::Clock;
use sei_pass::{Given, PassSpace, PassStep, Slots, Which};
use sei_stmt::Handler;

/// The phase of a pass.
fn pass_phase(which: Which) -> Phase
    ensures { result ≡ pass_phase which }
{
    match which {
        Which::Making => Phase::First,
        Which::Reading => Phase::Second,
    }
}

impl Workspace {
    /// Makes the statement at this place, in this pass.
    #[inline(always)]
    fn pass_step<H: Handler, L: Slots, K: Core, C: Clock>(
        &mut self,
        which: Which,
        hands: &H,
        input: &[u8],
        space: &PassSpace,
        lent: &mut L,
        core: &mut K,
        clock: &C,
    ) -> PassStep
        requires workspace { IsWorkspace self.old }
        requires space { self.old.first.space ≡ space.now }
        requires room { FitsIn space.now ((H.behavior hands.now).parsed input.now) self.old.sealed }
        requires lent { IsOf space.now.geometry (L.lent_bucket lent.old) }
        ensures steps { StepsIn K.gives K.counts (C.told clock.now) (H.behavior hands.now) input.now space.now which
            (work self.old (L.lent_bucket lent.old) core.old) (work self.new (L.lent_bucket lent.new) core.new) result }
        ensures lent { place_of (L.lent_bucket lent.new) ≡ place_of (L.lent_bucket lent.old) }
        ensures stays { Stays self.old self.new }
        ensures place { self.new.place ≡ self.old.place }
    {
        let given = Given {
            which,
            hands,
            input,
            sealed: &self.sealed,
            clock,
            index: self.place.index,
        };
        match which {
            Which::Making => {
                self.first
                    .step_on(given, lent, &mut self.first_log, &mut self.notes, core)
            }
            Which::Reading => {
                self.second
                    .step_on(given, lent, &mut self.second_log, &mut self.notes, core)
            }
        }
    }

    /// A statement of this pass.
    pub fn pass<H: Handler, L: Slots, K: Core, C: Clock>(
        &mut self,
        which: Which,
        hands: &H,
        input: &[u8],
        space: &PassSpace,
        lent: &mut L,
        core: &mut K,
        clock: &C,
    ) -> Ending
        requires workspace { IsWorkspace self.old }
        requires space { self.old.first.space ≡ space.now }
        requires room { FitsIn space.now ((H.behavior hands.now).parsed input.now) self.old.sealed }
        requires lent { IsOf space.now.geometry (L.lent_bucket lent.old) }
        ensures act { ActsAs K.gives (C.told clock.now) (H.behavior hands.now) input.now space.now (passing which)
            (work self.old (L.lent_bucket lent.old) core.old) (work self.new (L.lent_bucket lent.new) core.new) result }
        ensures lent { place_of (L.lent_bucket lent.new) ≡ place_of (L.lent_bucket lent.old) }
        ensures stays { Stays self.old self.new }
        ensures place { self.new.place ≡ self.old.place }
    {
        let phase = pass_phase(which);
        match self.pass_step(which, hands, input, space, lent, core, clock) {
            PassStep::Next { index } => Ending::Leads(Place { phase, index }),
            PassStep::Halted => {
                let to = Place {
                    phase: next_phase(phase),
                    index: 0,
                };
                self.close(phase, Want::Nothing, to, core)
            }
            PassStep::Bad(cause) => Ending::Aborts(cause),
        }
    }
}
