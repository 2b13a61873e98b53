//! Statements that work on registers alone, and the jumps.
ghost use Rattle.std.specs.Prelude.{◌≡◌, ℕ, ◌+◌, ◌<◌, ◌^◌, List};
ghost use Rattle.sei_fault.specs.Tree.{Runs};
ghost use Rattle.sei_stmt.specs.Statements.{const_tree, move_tree, add_tree, sub_tree, equal_tree, less_tree, input_tree};
ghost use Rattle.sei_pass.specs.Frames.{Does};

use crate::frame::{Frame, PassStep};
use sei_fault::{AbortCause, Core};

impl Frame {
    /// The register gets the number.
    #[inline(always)]
    pub fn constant<K: Core>(&mut self, to: u8, number: u64, index: u64, core: &mut K) -> PassStep
        requires to { to < 32 }
        requires index { index + 1 < 2 ^ 64 }
        ensures { Does K.gives (λ m. const_tree index m to number) self.old self.new result core.old core.new }
    {
        self.registers[to as usize] = core.written(number);
        PassStep::Next { index: index + 1 }
    }

    /// The register gets what the other one holds.
    #[inline(always)]
    pub fn copy<K: Core>(&mut self, to: u8, from: u8, index: u64, core: &mut K) -> PassStep
        requires to { to < 32 }
        requires from { from < 32 }
        requires index { index + 1 < 2 ^ 64 }
        ensures { Does K.gives (λ m. move_tree index m to from) self.old self.new result core.old core.new }
    {
        let v = core.value(self.registers[from as usize]);
        self.registers[to as usize] = core.written(v);
        PassStep::Next { index: index + 1 }
    }

    /// The register gets the sum.
    #[inline(always)]
    pub fn add<K: Core>(
        &mut self,
        to: u8,
        left: u8,
        right: u8,
        index: u64,
        core: &mut K,
    ) -> PassStep
        requires to { to < 32 }
        requires left { left < 32 }
        requires right { right < 32 }
        requires index { index + 1 < 2 ^ 64 }
        ensures { Does K.gives (λ m. add_tree index m to left right) self.old self.new result core.old core.new }
    {
        let a = core.value(self.registers[left as usize]);
        let b = core.value(self.registers[right as usize]);
        self.registers[to as usize] = core.written(a.wrapping_add(b));
        PassStep::Next { index: index + 1 }
    }

    /// The register gets the difference.
    #[inline(always)]
    pub fn sub<K: Core>(
        &mut self,
        to: u8,
        left: u8,
        right: u8,
        index: u64,
        core: &mut K,
    ) -> PassStep
        requires to { to < 32 }
        requires left { left < 32 }
        requires right { right < 32 }
        requires index { index + 1 < 2 ^ 64 }
        ensures { Does K.gives (λ m. sub_tree index m to left right) self.old self.new result core.old core.new }
    {
        let a = core.value(self.registers[left as usize]);
        let b = core.value(self.registers[right as usize]);
        self.registers[to as usize] = core.written(a.wrapping_sub(b));
        PassStep::Next { index: index + 1 }
    }

    /// The register gets an input word.
    #[inline(always)]
    pub fn input<K: Core>(&mut self, to: u8, from: u8, index: u64, core: &mut K) -> PassStep
        requires to { to < 32 }
        requires from { from < 32 }
        requires index { index + 1 < 2 ^ 64 }
        ensures { Does K.gives (λ m. input_tree index m to from) self.old self.new result core.old core.new }
    {
        let a = core.value(self.registers[from as usize]);
        match self.input.get(a as usize) {
            None => PassStep::Bad(AbortCause::Range { address: a }),
            Some(word) => {
                let v = core.value(word);
                self.registers[to as usize] = core.written(v);
                PassStep::Next { index: index + 1 }
            }
        }
    }

    /// Goes on at `to` if both registers hold the same.
    #[inline(always)]
    pub fn jump_equal<K: Core>(
        &mut self,
        left: u8,
        right: u8,
        to: u64,
        index: u64,
        core: &mut K,
    ) -> PassStep
        requires left { left < 32 }
        requires right { right < 32 }
        requires index { index + 1 < 2 ^ 64 }
        ensures { Does K.gives (λ m. equal_tree index m left right to) self.old self.new result core.old core.new }
    {
        let a = core.value(self.registers[left as usize]);
        let b = core.value(self.registers[right as usize]);
        if core.test(a == b) {
            PassStep::Next { index: to }
        } else {
            PassStep::Next { index: index + 1 }
        }
    }

    /// Goes on at `to` if the left register holds less.
    #[inline(always)]
    pub fn jump_less<K: Core>(
        &mut self,
        left: u8,
        right: u8,
        to: u64,
        index: u64,
        core: &mut K,
    ) -> PassStep
        requires left { left < 32 }
        requires right { right < 32 }
        requires index { index + 1 < 2 ^ 64 }
        ensures { Does K.gives (λ m. less_tree index m left right to) self.old self.new result core.old core.new }
    {
        let a = core.value(self.registers[left as usize]);
        let b = core.value(self.registers[right as usize]);
        if core.test(a < b) {
            PassStep::Next { index: to }
        } else {
            PassStep::Next { index: index + 1 }
        }
    }
}
