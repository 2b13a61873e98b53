//! The acts that compare the two passes.
ghost use Rattle.std.specs.Prelude.{◌≡◌, ◌+◌, ◌^◌, ◌<◌};
ghost use Rattle.sei_traverse.specs.Phases.{compared, compare_tree, entries_tree, outputs_tree};
ghost use Rattle.sei_traverse.specs.Work.{ActsAlone};
ghost use Rattle.sei_traverse.specs.Workspaces.{Stays};

use crate::turned::Want;
use crate::workspace::{Ending, Workspace};
use sei_compare::{codes, entry};
use sei_fault::{AbortCause, Core, Phase, Place};

impl Workspace {
    /// How many entries the longer log has.
    pub fn compared(&self) -> u64
        ensures { result ≡ compared self.now }
    {
        self.first_log.len().max(self.second_log.len())
    }

    /// Compare.
    pub fn compare<K: Core>(&mut self, core: &mut K) -> Ending
        ensures act { ActsAlone K.gives (compare_tree self.old.place.index) self.old core.old self.new core.new result }
        ensures stays { Stays self.old self.new }
        ensures place { self.new.place ≡ self.old.place }
    {
        if self.place.index < self.compared() {
            self.compare_entry(core)
        } else {
            self.compare_outputs(core)
        }
    }

    /// Compares an entry of both logs.
    fn compare_entry<K: Core>(&mut self, core: &mut K) -> Ending
        requires { self.old.place.index + 1 < 2 ^ 64 }
        ensures act { ActsAlone K.gives (entries_tree self.old.place.index) self.old core.old self.new core.new result }
        ensures stays { Stays self.old self.new }
        ensures place { self.new.place ≡ self.old.place }
    {
        let index = self.place.index;
        if entry(&self.first_log, &self.second_log, index, core) {
            Ending::Leads(Place {
                phase: Phase::Compare,
                index: index + 1,
            })
        } else {
            Ending::Aborts(AbortCause::Differs { index })
        }
    }

    /// Compares the outputs.
    fn compare_outputs<K: Core>(&mut self, core: &mut K) -> Ending
        ensures act { ActsAlone K.gives outputs_tree self.old core.old self.new core.new result }
        ensures stays { Stays self.old self.new }
        ensures place { self.new.place ≡ self.old.place }
    {
        let one = self.first.code();
        let two = self.second.code();
        if codes(one, self.first.bytes(), two, self.second.bytes(), core) {
            self.close(
                Phase::Compare,
                Want::Nothing,
                Place {
                    phase: Phase::Verify,
                    index: 0,
                },
                core,
            )
        } else {
            Ending::Aborts(AbortCause::Reply)
        }
    }
}
