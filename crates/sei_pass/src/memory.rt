//! Statements that read and write the words of the bucket.
ghost use Rattle.std.specs.Prelude.{◌≡◌, ◌+◌, ◌<◌, ◌^◌};
ghost use Rattle.sei_stmt.specs.Statements.{load_tree, store_tree};
ghost use Rattle.sei_words.specs.LentBucket.{place_of};
ghost use Rattle.sei_pass.specs.Frames.{Reads};
ghost use Rattle.sei_pass.specs.Work.{work, Writes};

use crate::frame::{Frame, PassStep};
use sei_fault::{AbortCause, Core};
use sei_log::{Change, WriteLog};
use sei_words::Lent;

impl Frame {
    /// The register gets a word of the bucket.
    #[inline(always)]
    pub fn load<L: Lent, K: Core>(
        &mut self,
        to: u8,
        address: u8,
        lent: &L,
        index: u64,
        core: &mut K,
    ) -> PassStep
        requires to { to < 32 }
        requires address { address < 32 }
        requires index { index + 1 < 2 ^ 64 }
        ensures { Reads K.gives (L.lent_bucket lent.now) (λ m. load_tree index m to address) self.old self.new result core.old core.new }
    {
        let a = core.value(self.registers[address as usize]);
        match lent.get(a) {
            None => PassStep::Bad(AbortCause::Range { address: a }),
            Some(word) => {
                let v = core.value(word);
                self.registers[to as usize] = core.written(v);
                PassStep::Next { index: index + 1 }
            }
        }
    }

    /// The word of the bucket becomes what the register holds, and the change is logged. A store
    /// that changes nothing is not made.
    #[inline(always)]
    pub fn store<L: Lent, K: Core>(
        &mut self,
        address: u8,
        from: u8,
        lent: &mut L,
        log: &mut WriteLog,
        index: u64,
        core: &mut K,
    ) -> PassStep
        requires address { address < 32 }
        requires from { from < 32 }
        requires index { index + 1 < 2 ^ 64 }
        ensures tree { Writes K.gives L.lent_bucket (λ m. store_tree index m address from)
            (work self.old lent.old log.old core.old) (work self.new lent.new log.new core.new) result }
        ensures lent { place_of (L.lent_bucket lent.new) ≡ place_of (L.lent_bucket lent.old) }
    {
        let a = core.value(self.registers[address as usize]);
        let Some(word) = lent.get(a) else {
            return PassStep::Bad(AbortCause::Range { address: a });
        };
        let v = core.value(self.registers[from as usize]);
        let was = core.value(word);
        if core.test(was == v) {
            return PassStep::Next { index: index + 1 };
        }
        if !log.has_room() {
            return PassStep::Bad(AbortCause::LogFull);
        }
        let w = core.written(v);
        log.push(Change {
            address: a,
            was,
            becomes: v,
        });
        lent.set(a, w);
        PassStep::Next { index: index + 1 }
    }
}
