//! Statements whose step is asked for first: how often the act is to be made, and then the statement,
//! if that is once.
ghost use Rattle.std.specs.Prelude.{◌≡◌, ◌+◌, ◌<◌, ◌^◌};
ghost use Rattle.sei_code.specs.Kept.{Kept};
ghost use Rattle.sei_fault.specs.Question.Question.{Often};
ghost use Rattle.sei_fault.specs.declared.place.Act.TheVariants.{Plain, Halt};
ghost use Rattle.sei_log.specs.declared.log.Change.{Change};
ghost use Rattle.sei_stmt.specs.Machine.{ends};
ghost use Rattle.sei_stmt.specs.Machine.Outcome.{Next, Halted};
ghost use Rattle.sei_stmt.specs.Statements.{const_tree, move_tree, add_tree, sub_tree, input_tree, emit_tree, equal_tree, less_tree};
ghost use Rattle.sei_stmt.specs.Table.{HasRegisters};
ghost use Rattle.sei_words.specs.LentBucket.{place_of};
ghost use Rattle.sei_pass.specs.Arms.{asked_of, site};
ghost use Rattle.sei_pass.specs.Frames.{outcome_of};
ghost use Rattle.sei_pass.specs.Turns.{HasTarget, Turns, TurnsWork};
ghost use Rattle.sei_pass.specs.Work.{work};

use crate::frame::{Frame, PassStep};
use crate::loops::Asked;
use sei_fault::{Act, Core, Phase, Place, Site, Times};
use sei_log::WriteLog;
use sei_stmt::{Stmt, target};
use sei_words::Lent;

/// How often the act of the step at this place is to be made.
#[inline(always)]
fn often<K: Core>(core: &mut K, phase: Phase, index: u64, act: Act) -> Times
    ensures { K.gives core.old (Often (site phase index act)) result core.new }
{
    core.times(Site {
        place: Place { phase, index },
        act,
    })
}

/// How a statement ended that was made.
#[inline(always)]
fn asked(step: PassStep) -> Asked
    ensures { result ≡ asked_of (outcome_of step) }
{
    match step {
        PassStep::Next { index } => Asked::Next(index),
        PassStep::Halted => Asked::Halted,
        PassStep::Bad(cause) => Asked::Bad(cause),
    }
}

// Each `ask_..` asks how often its statement is to be made, and counts and makes it if that is once.
impl Frame {
    #[inline(always)]
    fn ask_constant<K: Core>(
        &mut self,
        to: u8,
        number: u64,
        phase: Phase,
        index: u64,
        core: &mut K,
    ) -> Asked
        requires to { to < 32 }
        requires index { index + 1 < 2 ^ 64 }
        requires made { self.old.made + 1 < 2 ^ 64 }
        ensures { Turns K.gives phase index Plain (λ m. const_tree index m to number) self.old self.new result core.old core.new }
    {
        match often(core, phase, index, Act::Plain) {
            Times::Once => {
                self.made += 1;
                asked(self.constant(to, number, index, core))
            }
            times => Asked::Struck(Act::Plain, times),
        }
    }

    #[inline(always)]
    fn ask_copy<K: Core>(
        &mut self,
        to: u8,
        from: u8,
        phase: Phase,
        index: u64,
        core: &mut K,
    ) -> Asked
        requires to { to < 32 }
        requires from { from < 32 }
        requires index { index + 1 < 2 ^ 64 }
        requires made { self.old.made + 1 < 2 ^ 64 }
        ensures { Turns K.gives phase index Plain (λ m. move_tree index m to from) self.old self.new result core.old core.new }
    {
        match often(core, phase, index, Act::Plain) {
            Times::Once => {
                self.made += 1;
                asked(self.copy(to, from, index, core))
            }
            times => Asked::Struck(Act::Plain, times),
        }
    }

    #[inline(always)]
    fn ask_add<K: Core>(
        &mut self,
        to: u8,
        left: u8,
        right: u8,
        phase: Phase,
        index: u64,
        core: &mut K,
    ) -> Asked
        requires to { to < 32 }
        requires left { left < 32 }
        requires right { right < 32 }
        requires index { index + 1 < 2 ^ 64 }
        requires made { self.old.made + 1 < 2 ^ 64 }
        ensures { Turns K.gives phase index Plain (λ m. add_tree index m to left right) self.old self.new result core.old core.new }
    {
        match often(core, phase, index, Act::Plain) {
            Times::Once => {
                self.made += 1;
                asked(self.add(to, left, right, index, core))
            }
            times => Asked::Struck(Act::Plain, times),
        }
    }

    #[inline(always)]
    fn ask_sub<K: Core>(
        &mut self,
        to: u8,
        left: u8,
        right: u8,
        phase: Phase,
        index: u64,
        core: &mut K,
    ) -> Asked
        requires to { to < 32 }
        requires left { left < 32 }
        requires right { right < 32 }
        requires index { index + 1 < 2 ^ 64 }
        requires made { self.old.made + 1 < 2 ^ 64 }
        ensures { Turns K.gives phase index Plain (λ m. sub_tree index m to left right) self.old self.new result core.old core.new }
    {
        match often(core, phase, index, Act::Plain) {
            Times::Once => {
                self.made += 1;
                asked(self.sub(to, left, right, index, core))
            }
            times => Asked::Struck(Act::Plain, times),
        }
    }

    #[inline(always)]
    fn ask_input<K: Core>(
        &mut self,
        to: u8,
        from: u8,
        phase: Phase,
        index: u64,
        core: &mut K,
    ) -> Asked
        requires to { to < 32 }
        requires from { from < 32 }
        requires index { index + 1 < 2 ^ 64 }
        requires made { self.old.made + 1 < 2 ^ 64 }
        ensures { Turns K.gives phase index Plain (λ m. input_tree index m to from) self.old self.new result core.old core.new }
    {
        match often(core, phase, index, Act::Plain) {
            Times::Once => {
                self.made += 1;
                asked(self.input(to, from, index, core))
            }
            times => Asked::Struck(Act::Plain, times),
        }
    }

    #[inline(always)]
    fn ask_load<L: Lent, K: Core>(
        &mut self,
        to: u8,
        address: u8,
        phase: Phase,
        index: u64,
        lent: &L,
        core: &mut K,
    ) -> Asked
        requires to { to < 32 }
        requires address { address < 32 }
        requires index { index + 1 < 2 ^ 64 }
        requires made { self.old.made + 1 < 2 ^ 64 }
        ensures { (log : Kept Change) → TurnsWork K.gives L.lent_bucket phase index (Stmt.Load to address)
            (work self.old lent.now log core.old) (work self.new lent.now log core.new) result }
    {
        let act = Act::Load(self.registers[address as usize]);
        match often(core, phase, index, act) {
            Times::Once => {
                self.made += 1;
                asked(self.load(to, address, lent, index, core))
            }
            times => Asked::Struck(act, times),
        }
    }

    #[inline(always)]
    fn ask_store<L: Lent, K: Core>(
        &mut self,
        address: u8,
        from: u8,
        phase: Phase,
        index: u64,
        lent: &mut L,
        log: &mut WriteLog,
        core: &mut K,
    ) -> Asked
        requires address { address < 32 }
        requires from { from < 32 }
        requires index { index + 1 < 2 ^ 64 }
        requires made { self.old.made + 1 < 2 ^ 64 }
        ensures tree { TurnsWork K.gives L.lent_bucket phase index (Stmt.Store address from)
            (work self.old lent.old log.old core.old) (work self.new lent.new log.new core.new) result }
        ensures lent { place_of (L.lent_bucket lent.new) ≡ place_of (L.lent_bucket lent.old) }
    {
        let act = Act::Store(self.registers[address as usize]);
        match often(core, phase, index, act) {
            Times::Once => {
                self.made += 1;
                asked(self.store(address, from, lent, log, index, core))
            }
            times => Asked::Struck(act, times),
        }
    }

    #[inline(always)]
    fn ask_emit<K: Core>(&mut self, from: u8, phase: Phase, index: u64, core: &mut K) -> Asked
        requires from { from < 32 }
        requires index { index + 1 < 2 ^ 64 }
        requires made { self.old.made + 1 < 2 ^ 64 }
        ensures { Turns K.gives phase index Plain (λ m. emit_tree index m from) self.old self.new result core.old core.new }
    {
        match often(core, phase, index, Act::Plain) {
            Times::Once => {
                self.made += 1;
                asked(self.emit(from, index, core))
            }
            times => Asked::Struck(Act::Plain, times),
        }
    }

    #[inline(always)]
    fn ask_jump<K: Core>(&mut self, to: u64, phase: Phase, index: u64, core: &mut K) -> Asked
        requires made { self.old.made + 1 < 2 ^ 64 }
        ensures { Turns K.gives phase index Plain (λ m. ends m (Next to)) self.old self.new result core.old core.new }
    {
        match often(core, phase, index, Act::Plain) {
            Times::Once => {
                self.made += 1;
                Asked::Next(to)
            }
            times => Asked::Struck(Act::Plain, times),
        }
    }

    #[inline(always)]
    fn ask_jump_equal<K: Core>(
        &mut self,
        left: u8,
        right: u8,
        to: u64,
        phase: Phase,
        index: u64,
        core: &mut K,
    ) -> Asked
        requires left { left < 32 }
        requires right { right < 32 }
        requires index { index + 1 < 2 ^ 64 }
        requires made { self.old.made + 1 < 2 ^ 64 }
        ensures { Turns K.gives phase index Plain (λ m. equal_tree index m left right to) self.old self.new result core.old core.new }
    {
        match often(core, phase, index, Act::Plain) {
            Times::Once => {
                self.made += 1;
                asked(self.jump_equal(left, right, to, index, core))
            }
            times => Asked::Struck(Act::Plain, times),
        }
    }

    #[inline(always)]
    fn ask_jump_less<K: Core>(
        &mut self,
        left: u8,
        right: u8,
        to: u64,
        phase: Phase,
        index: u64,
        core: &mut K,
    ) -> Asked
        requires left { left < 32 }
        requires right { right < 32 }
        requires index { index + 1 < 2 ^ 64 }
        requires made { self.old.made + 1 < 2 ^ 64 }
        ensures { Turns K.gives phase index Plain (λ m. less_tree index m left right to) self.old self.new result core.old core.new }
    {
        match often(core, phase, index, Act::Plain) {
            Times::Once => {
                self.made += 1;
                asked(self.jump_less(left, right, to, index, core))
            }
            times => Asked::Struck(Act::Plain, times),
        }
    }

    #[inline(always)]
    fn ask_halt<K: Core>(&mut self, phase: Phase, index: u64, core: &mut K) -> Asked
        requires made { self.old.made + 1 < 2 ^ 64 }
        ensures { Turns K.gives phase index Halt (λ m. ends m Halted) self.old self.new result core.old core.new }
    {
        match often(core, phase, index, Act::Halt) {
            Times::Once => {
                self.made += 1;
                Asked::Halted
            }
            times => Asked::Struck(Act::Halt, times),
        }
    }

    /// Asks how often the statement is to be made, and counts and makes it if that is once. A rare
    /// one is not asked for: its step is to be made by itself.
    #[inline(always)]
    pub fn ask<U, L: Lent, K: Core>(
        &mut self,
        statement: Stmt,
        phase: Phase,
        index: u64,
        lent: &mut L,
        log: &mut WriteLog,
        core: &mut K,
    ) -> Asked
        requires registers { HasRegisters statement }
        requires jumps { HasTarget index statement }
        requires index { index + 1 < 2 ^ 64 }
        requires made { self.old.made + 1 < 2 ^ 64 }
        ensures tree { TurnsWork K.gives L.lent_bucket phase index statement
            (work self.old lent.old log.old core.old) (work self.new lent.new log.new core.new) result }
        ensures lent { place_of (L.lent_bucket lent.new) ≡ place_of (L.lent_bucket lent.old) }
    {
        match statement {
            Stmt::Const { to, number } => self.ask_constant(to, number, phase, index, core),
            Stmt::Move { to, from } => self.ask_copy(to, from, phase, index, core),
            Stmt::Add { to, left, right } => self.ask_add(to, left, right, phase, index, core),
            Stmt::Sub { to, left, right } => self.ask_sub(to, left, right, phase, index, core),
            Stmt::Input { to, index: from } => self.ask_input(to, from, phase, index, core),
            Stmt::Load { to, address } => self.ask_load(to, address, phase, index, lent, core),
            Stmt::Store { address, from } => self.ask_store(
                address, from, phase, index, lent, log, core,
            ),
            Stmt::Emit { from } => self.ask_emit(from, phase, index, core),
            Stmt::Jump { offset } => self.ask_jump(target(index, offset), phase, index, core),
            Stmt::JumpEq {
                left,
                right,
                offset,
            } => self.ask_jump_equal(left, right, target(index, offset), phase, index, core),
            Stmt::JumpLt {
                left,
                right,
                offset,
            } => self.ask_jump_less(left, right, target(index, offset), phase, index, core),
            Stmt::Halt => self.ask_halt(phase, index, core),
            Stmt::Now { .. } | Stmt::Alloc { .. } | Stmt::Parse | Stmt::Render => Asked::Alone,
        }
    }
}
