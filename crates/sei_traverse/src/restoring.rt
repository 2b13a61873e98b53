//! The acts that undo the first pass.
ghost use Rattle.std.specs.Prelude.{◌≡◌, ◌+◌, ◌^◌, ◌<◌, length};
ghost use Rattle.sei_fault.specs.Tree.{Runs};
ghost use Rattle.sei_words.specs.LentBucket.{words_of, place_of};
ghost use Rattle.sei_traverse.specs.Workspaces.{Stays};
ghost use Rattle.sei_traverse.specs.Acts.{acted};
ghost use Rattle.sei_traverse.specs.Phases.{undo_tree, restore_tree};

use crate::turned::Want;
use crate::workspace::{Ending, Workspace};
use sei_fault::{Core, Phase, Place};
use sei_restore::undo_on;
use sei_words::Lent;

impl Workspace {
    /// Restore.
    pub fn restore<L: Lent, K: Core>(&mut self, lent: &mut L, core: &mut K) -> Ending
        ensures act { Runs K.gives (restore_tree self.old.place.index self.old (words_of (L.lent_bucket lent.old)))
            core.old core.new (acted self.new (words_of (L.lent_bucket lent.new)) result) }
        ensures lent { place_of (L.lent_bucket lent.new) ≡ place_of (L.lent_bucket lent.old) }
        ensures stays { Stays self.old self.new }
        ensures place { self.new.place ≡ self.old.place }
    {
        if self.place.index < self.first_log.len() {
            self.undo_change(lent, core)
        } else {
            self.close(
                Phase::Restore,
                Want::Nothing,
                Place {
                    phase: Phase::Second,
                    index: 0,
                },
                core,
            )
        }
    }

    /// Undoes one change.
    fn undo_change<L: Lent, K: Core>(&mut self, lent: &mut L, core: &mut K) -> Ending
        requires there { self.old.place.index < length self.old.first_log.items }
        requires index { self.old.place.index + 1 < 2 ^ 64 }
        ensures act { Runs K.gives (undo_tree self.old.place.index self.old (words_of (L.lent_bucket lent.old)))
            core.old core.new (acted self.new (words_of (L.lent_bucket lent.new)) result) }
        ensures lent { place_of (L.lent_bucket lent.new) ≡ place_of (L.lent_bucket lent.old) }
        ensures stays { Stays self.old self.new }
        ensures place { self.new.place ≡ self.old.place }
    {
        let index = self.place.index;
        match undo_on(&self.first_log, index, lent, core) {
            Ok(()) => Ending::Leads(Place {
                phase: Phase::Restore,
                index: index + 1,
            }),
            Err(cause) => Ending::Aborts(cause),
        }
    }
}
