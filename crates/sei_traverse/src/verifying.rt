//! The acts that read the changed words back, and that make and test the copy for the wire.
ghost use Rattle.std.specs.Prelude.{◌≡◌, ◌+◌, ◌^◌, ◌<◌, ◌≤◌, length};
ghost use Rattle.sei_code.specs.declared.modes.Mode.{Mode};
ghost use Rattle.sei_fault.specs.Tree.{Runs};
ghost use Rattle.sei_words.specs.LentBucket.{words_of};
ghost use Rattle.sei_traverse.specs.Acts.{acted};
ghost use Rattle.sei_traverse.specs.Phases.{verify_tree, read_back, verify_copy, copy_tree, copy_test};
ghost use Rattle.sei_traverse.specs.Work.{ActsAlone};
ghost use Rattle.sei_traverse.specs.Workspaces.{Stays};

use crate::turned::Want;
use crate::workspace::{Ending, Workspace};
use sei_code::Mode;
use sei_compare::{wire, word_on};
use sei_fault::{AbortCause, Core, Phase, Place};
use sei_words::Lent;

impl Workspace {
    /// Verify.
    pub fn verify<L: Lent, K: Core>(&mut self, lent: &L, core: &mut K) -> Ending
        requires fits { length self.old.second.bytes.items ≤ self.old.wire.room }
        requires index { self.old.place.index + 1 < 2 ^ 64 }
        ensures act { Runs K.gives (verify_tree self.old.place.index self.old (words_of (L.lent_bucket lent.now)))
            core.old core.new (acted self.new (words_of (L.lent_bucket lent.now)) result) }
        ensures stays { Stays self.old self.new }
        ensures place { self.new.place ≡ self.old.place }
    {
        if self.place.index < self.second_log.len() {
            self.verify_word(lent, core)
        } else {
            self.verify_copy(core)
        }
    }

    /// Reads a changed word back.
    fn verify_word<L: Lent, K: Core>(&mut self, lent: &L, core: &mut K) -> Ending
        requires there { self.old.place.index < length self.old.second_log.items }
        requires index { self.old.place.index + 1 < 2 ^ 64 }
        ensures act { Runs K.gives (read_back self.old.place.index self.old (words_of (L.lent_bucket lent.now)))
            core.old core.new (acted self.new (words_of (L.lent_bucket lent.now)) result) }
        ensures stays { Stays self.old self.new }
        ensures place { self.new.place ≡ self.old.place }
    {
        let index = self.place.index;
        match word_on(&self.second_log, index, lent, core) {
            Err(cause) => Ending::Aborts(cause),
            Ok(true) => Ending::Leads(Place {
                phase: Phase::Verify,
                index: index + 1,
            }),
            Ok(false) => Ending::Aborts(AbortCause::Differs { index }),
        }
    }

    /// Makes the copy for the wire, or tests it.
    fn verify_copy<K: Core>(&mut self, core: &mut K) -> Ending
        requires fits { length self.old.second.bytes.items ≤ self.old.wire.room }
        requires index { self.old.place.index + 1 < 2 ^ 64 }
        ensures act { ActsAlone K.gives (verify_copy self.old.place.index) self.old core.old self.new core.new result }
        ensures stays { Stays self.old self.new }
        ensures place { self.new.place ≡ self.old.place }
    {
        if self.place.index == self.second_log.len() {
            self.make_copy(core)
        } else {
            self.test_copy(core)
        }
    }

    /// Makes the copy for the wire anew.
    fn make_copy<K: Core>(&mut self, core: &mut K) -> Ending
        requires fits { length self.old.second.bytes.items ≤ self.old.wire.room }
        requires index { self.old.place.index + 1 < 2 ^ 64 }
        ensures act { ActsAlone K.gives (copy_tree self.old.place.index) self.old core.old self.new core.new result }
        ensures stays { Stays self.old self.new }
        ensures place { self.new.place ≡ self.old.place }
    {
        let index = self.place.index;
        self.wire.clear();
        self.wire.extend_from_slice(self.second.bytes());
        match self.wire.get(0) {
            None => Ending::Leads(Place {
                phase: Phase::Verify,
                index: index + 1,
            }),
            Some(byte) => {
                let b = core.written(u64::from(byte));
                self.wire.set(0, (b % 256) as u8);
                Ending::Leads(Place {
                    phase: Phase::Verify,
                    index: index + 1,
                })
            }
        }
    }

    /// Tests the copy for the wire.
    fn test_copy<K: Core>(&mut self, core: &mut K) -> Ending
        ensures act { ActsAlone K.gives copy_test self.old core.old self.new core.new result }
        ensures stays { Stays self.old self.new }
        ensures place { self.new.place ≡ self.old.place }
    {
        let code = self.first.code();
        if wire(
            self.wire.bytes(),
            Mode::Plain,
            self.sealed.answer,
            code,
            self.first.bytes(),
            core,
        ) {
            self.close(
                Phase::Verify,
                Want::Nothing,
                Place {
                    phase: Phase::Enter,
                    index: 0,
                },
                core,
            )
        } else {
            Ending::Aborts(AbortCause::Wire)
        }
    }
}
