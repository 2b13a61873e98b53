//! The act at a place, whichever its phase is.
ghost use Rattle.std.specs.Prelude.{◌≡◌, ◌+◌, ◌<◌, ◌^◌};
ghost use Rattle.sei_words.specs.LentBucket.{place_of, IsOf};
ghost use Rattle.sei_traverse.specs.Step.{act_tree};
ghost use Rattle.sei_traverse.specs.Work.{work, ActsAs};
ghost use Rattle.sei_traverse.specs.Workspaces.{IsWorkspace, FitsIn, Stays};

use crate::workspace::{Ending, Workspace};
use sei_fault::{Core, Phase};
use sei_outside::Clock;
use sei_pass::{PassSpace, Slots, Which};
use sei_stmt::Handler;

impl Workspace {
    /// Does what is to be done at this place.
    // It stays a call, so that the step around it is small enough to be inlined into a caller's loop.
    #[inline(never)]
    pub fn act<H: Handler, L: Slots, K: Core, C: Clock>(
        &mut self,
        hands: &H,
        input: &[u8],
        space: &PassSpace,
        lent: &mut L,
        core: &mut K,
        clock: &C,
    ) -> Ending
        requires workspace { IsWorkspace self.old }
        requires space { self.old.first.space ≡ space.now }
        requires room { FitsIn space.now ((H.behavior hands.now).parsed input.now) self.old.sealed }
        requires index { self.old.place.index + 1 < 2 ^ 64 }
        requires lent { IsOf space.now.geometry (L.lent_bucket lent.old) }
        ensures act { ActsAs K.gives (C.told clock.now) (H.behavior hands.now) input.now space.now act_tree
            (work self.old (L.lent_bucket lent.old) core.old) (work self.new (L.lent_bucket lent.new) core.new) result }
        ensures lent { place_of (L.lent_bucket lent.new) ≡ place_of (L.lent_bucket lent.old) }
        ensures stays { Stays self.old self.new }
        ensures place { self.new.place ≡ self.old.place }
    {
        match self.place.phase {
            Phase::Guard => self.guard(hands, input, core),
            Phase::Take => self.take(hands, input, space, core),
            Phase::First => self.pass(Which::Making, hands, input, space, lent, core, clock),
            Phase::Restore => self.restore(lent, core),
            Phase::Second => self.pass(Which::Reading, hands, input, space, lent, core, clock),
            Phase::Compare => self.compare(core),
            Phase::Verify => self.verify(lent, core),
            Phase::Enter => self.close_only(Phase::Enter, core),
            Phase::Give => self.close_only(Phase::Give, core),
            Phase::Send => self.close_only(Phase::Send, core),
            Phase::Done => self.close_only(Phase::Done, core),
        }
    }
}
