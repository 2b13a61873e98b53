//! The free slots of what is lent to a pass.
ghost use Rattle.std.specs.Prelude.{◌≡◌, ◌<◌};
ghost use Rattle.sei_stmt.specs.Slots.{first_free};
ghost use Rattle.sei_words.specs.LentBucket.{words_of, bucket_of, IsOf};
ghost use Rattle.sei_pass.specs.Setting.{free_of};

use mc_model::Geometry;
use sei_words::{Lent, NoBucket, Words};

/// What is lent, with its slots.
pub trait Slots: Lent {
    /// Whether the slot is free at this moment. If no bucket is lent, none is.
    fn is_free(&self, g: &Geometry, slot: u64, moment: u64) -> bool
        requires geometry { IsOf g.now (Self.lent_bucket self.now) }
        requires slot { slot < g.now.slots }
        ensures { result ≡ free_of g.now (bucket_of (Self.lent_bucket self.now)) (words_of (Self.lent_bucket self.now)) moment slot };

    /// The lowest slot that is free at this moment, or the number of slots if none is.
    fn lowest_free(&self, g: &Geometry, moment: u64) -> u64
        requires { IsOf g.now (Self.lent_bucket self.now) }
        ensures { result ≡ first_free (free_of g.now (bucket_of (Self.lent_bucket self.now)) (words_of (Self.lent_bucket self.now)) moment) 0 g.now.slots };
}

impl Slots for Words {
    fn is_free(&self, _g: &Geometry, slot: u64, moment: u64) -> bool {
        self.is_free(slot, moment)
    }

    fn lowest_free(&self, g: &Geometry, moment: u64) -> u64 {
        match self.first_free(moment) {
            Some(slot) => slot,
            None => g.slots,
        }
    }
}

impl Slots for NoBucket {
    fn is_free(&self, _g: &Geometry, _slot: u64, _moment: u64) -> bool {
        false
    }

    fn lowest_free(&self, g: &Geometry, _moment: u64) -> u64 {
        g.slots
    }
}
