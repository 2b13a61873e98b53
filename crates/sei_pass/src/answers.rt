//! Statements whose answers the first pass notes, and the second goes by: the time, and a free slot.
ghost use Rattle.std.specs.Prelude.{◌≡◌, ◌+◌, ◌<◌, ◌^◌};
ghost use Rattle.sei_stmt.specs.Slots.{is_admissible};
ghost use Rattle.sei_stmt.specs.Statements.{now_tree, alloc_tree, noted_now};
ghost use Rattle.sei_words.specs.LentBucket.{words_of, IsOf};
ghost use Rattle.sei_pass.specs.Setting.{timed, choosing, checking};
ghost use Rattle.sei_pass.specs.Frames.{Does, Reads, Noting, NotingRead, noted_alloc};

use crate::frame::{Frame, PassStep};
use crate::given::Which;
use crate::slots::Slots;
use mc_model::Geometry;
use sei_code::Coded;
use sei_fault::{AbortCause, Core};
use sei_log::Notes;

/// Whether the slot may answer a request for a free one: it is free, or it is the number of slots
/// and none is free.
fn is_admissible<L: Slots>(lent: &L, g: &Geometry, moment: u64, slot: u64) -> bool
    requires { IsOf g.now (L.lent_bucket lent.now) }
    ensures { result ≡ is_admissible (checking g.now (L.lent_bucket lent.now)) (words_of (L.lent_bucket lent.now)) moment slot }
{
    if slot < g.slots {
        lent.is_free(g, slot, moment)
    } else {
        slot == g.slots && lent.lowest_free(g, moment) == g.slots
    }
}

impl Frame {
    /// The register gets the time: `time` is the clock's answer.
    pub fn now<K: Core>(
        &mut self,
        which: Which,
        to: u8,
        time: u64,
        notes: &mut Notes,
        index: u64,
        core: &mut K,
    ) -> PassStep
        requires to { to < 32 }
        requires index { index + 1 < 2 ^ 64 }
        ensures { Noting K.gives (λ m. now_tree (timed which time) index m to) self.old notes.old self.new notes.new result core.old core.new }
    {
        match which {
            Which::Making => {
                notes.now = Some(Coded::seal(time));
                let v = core.value(time);
                self.registers[to as usize] = core.written(v);
                PassStep::Next { index: index + 1 }
            }
            Which::Reading => self.noted_now(to, notes.now, index, core),
        }
    }

    /// The register gets the noted time.
    fn noted_now<K: Core>(
        &mut self,
        to: u8,
        note: Option<Coded>,
        index: u64,
        core: &mut K,
    ) -> PassStep
        requires to { to < 32 }
        requires index { index + 1 < 2 ^ 64 }
        ensures { Does K.gives (λ m. noted_now index m to note) self.old self.new result core.old core.new }
    {
        let Some(note) = note else {
            return PassStep::Bad(AbortCause::Notes);
        };
        match note.read() {
            None => PassStep::Bad(AbortCause::Code),
            Some(n) => {
                let v = core.value(n);
                self.registers[to as usize] = core.written(v);
                PassStep::Next { index: index + 1 }
            }
        }
    }

    /// The register gets the lowest slot that is free at the moment that a register holds.
    pub fn alloc<L: Slots, K: Core>(
        &mut self,
        to: u8,
        moment: u8,
        lent: &L,
        g: &Geometry,
        notes: &mut Notes,
        index: u64,
        core: &mut K,
    ) -> PassStep
        requires to { to < 32 }
        requires moment { moment < 32 }
        requires geometry { IsOf g.now (L.lent_bucket lent.now) }
        requires index { index + 1 < 2 ^ 64 }
        ensures { NotingRead K.gives (L.lent_bucket lent.now) (λ m. alloc_tree (choosing g.now (L.lent_bucket lent.now)) index m to moment)
            self.old notes.old self.new notes.new result core.old core.new }
    {
        let t = core.value(self.registers[moment as usize]);
        let slot = lent.lowest_free(g, t);
        notes.slot = Some(Coded::seal(slot));
        let v = core.value(slot);
        self.registers[to as usize] = core.written(v);
        PassStep::Next { index: index + 1 }
    }

    /// The register gets the noted slot, if that may answer at the moment that a register holds.
    pub fn noted_alloc<L: Slots, K: Core>(
        &mut self,
        to: u8,
        moment: u8,
        lent: &L,
        g: &Geometry,
        note: Option<Coded>,
        index: u64,
        core: &mut K,
    ) -> PassStep
        requires to { to < 32 }
        requires moment { moment < 32 }
        requires geometry { IsOf g.now (L.lent_bucket lent.now) }
        requires index { index + 1 < 2 ^ 64 }
        ensures { Reads K.gives (L.lent_bucket lent.now) (λ m. noted_alloc (checking g.now (L.lent_bucket lent.now)) index m to moment note)
            self.old self.new result core.old core.new }
    {
        let t = core.value(self.registers[moment as usize]);
        let Some(note) = note else {
            return PassStep::Bad(AbortCause::Notes);
        };
        let Some(slot) = note.read() else {
            return PassStep::Bad(AbortCause::Code);
        };
        if core.test(is_admissible(lent, g, t, slot)) {
            let v = core.value(slot);
            self.registers[to as usize] = core.written(v);
            return PassStep::Next { index: index + 1 };
        }
        PassStep::Bad(AbortCause::Notes)
    }
}
