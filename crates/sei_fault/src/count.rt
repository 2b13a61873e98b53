//! How the cores count their questions.
ghost use Rattle.std.specs.Prelude.{◌≡◌, ◌+◌, ◌-◌, ◌^◌, min};
ghost use Rattle.sei_fault.specs.Counts.{counted};

use std::marker::Model;

/// A number of questions, in two halves. At the last value of a `u128` it does not change. The
/// upper half is used only if the lower one overflows.
#[derive(Drop)]
pub(crate) struct Count {
    /// The lower half.
    low: u64,
    /// The upper half.
    high: u64,
    /// Whether it is at its last value, whatever the halves are.
    full: bool,
}

impl Model for Count {
    ghost use Rattle.std.specs.Prelude.{ℕ, ◌+◌, ◌-◌, ◌*◌, ◌^◌, ◌<◌, if◌then◌else◌};

    ghost Value = { ℕ };

    ghost view = { λ count. if count.full then 2 ^ 128 - 1 else count.low + 2 ^ 64 * count.high };

    ghost invariant = { λ count. (count.low < 2 ^ 64) × (count.high < 2 ^ 64) };
}

impl Count {
    /// Nothing is counted yet.
    pub(crate) fn new() -> Count
        ensures { result ≡ 0 }
    {
        Count {
            low: 0,
            high: 0,
            full: false,
        }
    }

    /// Counts one question.
    #[inline(always)]
    pub(crate) fn count(&mut self)
        ensures { self.new ≡ counted self.old }
    {
        self.add(1);
    }

    /// Counts this many questions.
    #[inline(always)]
    pub(crate) fn add(&mut self, questions: u64)
        ensures { self.new ≡ min (self.old + questions) (2 ^ 128 - 1) }
    {
        self.low = self.low.wrapping_add(questions);
        if self.low < questions {
            self.carry();
        }
    }

    /// Adds one to the upper half: the lower one has overflowed.
    #[cold]
    #[inline(never)]
    fn carry(&mut self)
        ensures { self.new ≡ min (self.old + 2 ^ 64) (2 ^ 128 - 1) }
    {
        if self.high == u64::MAX {
            self.full = true;
        } else {
            self.high += 1;
        }
    }
}

#[cfg(test)]
mod tests {
    use super::*;

    #[test]
    fn a_count_goes_over_the_edge_of_each_half(rt: HostRuntime) {
        let mut count = Count {
            low: u64::MAX - 1,
            high: 4,
            full: false,
        };
        count.count();
        assert_eq!(rt; (count.low, count.high, count.full), (u64::MAX, 4, false));
        count.count();
        assert_eq!(rt; (count.low, count.high, count.full), (0, 5, false));
        count.high = u64::MAX;
        count.add(u64::MAX);
        assert!(rt; !count.full);
        count.count();
        assert!(rt; count.full);
        count.count();
        assert!(rt; count.full);
    }
}
