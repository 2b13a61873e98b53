//! One statement, whichever it is.
ghost use Rattle.std.specs.Prelude.{◌≡◌, ◌+◌, ◌<◌, ◌≤◌, ◌^◌, length};
ghost use Rattle.sei_stmt.specs.Table.{HasRegisters, JumpsInside, HasNext};
ghost use Rattle.sei_words.specs.LentBucket.{place_of, IsOf};
ghost use Rattle.sei_pass.specs.Frames.{KeepsRooms};
ghost use Rattle.sei_pass.specs.Given.{Steps, Makes, words_given};
ghost use Rattle.sei_pass.specs.Steps.{IsAsked};
ghost use Rattle.sei_pass.specs.Work.{work};

use crate::frame::{Frame, PassStep};
use crate::given::{Given, Turn, Which};
use crate::slots::Slots;
use crate::spaces::PassSpace;
use sei_code::WordList;
use sei_fault::{AbortCause, Core};
use sei_log::{Notes, WriteLog};
use sei_outside::Clock;
use sei_stmt::{Handler, Stmt, target};

/// The clock's answer, for a statement of the first pass that asks for it. It is 0 for each other
/// statement, which does not look at it: a second pass asks no clock.
pub fn time<C: Clock>(which: Which, statement: Stmt, clock: &C) -> u64
    ensures { IsAsked which statement (C.told clock.now) result }
{
    match which {
        Which::Reading => 0,
        Which::Making => match statement {
            Stmt::Now { .. } => clock.now(),
            _ => 0,
        },
    }
}

impl Frame {
    /// Makes the statement at the given index, if there is one and the budget is not spent.
    #[inline(always)]
    pub fn step<H: Handler, L: Slots, K: Core, C: Clock>(
        &mut self,
        given: Given<'_, H, C>,
        space: &PassSpace,
        lent: &mut L,
        log: &mut WriteLog,
        notes: &mut Notes,
        scratch: &mut WordList,
        core: &mut K,
    ) -> PassStep
        requires geometry { IsOf space.now.geometry (L.lent_bucket lent.old) }
        requires room { length (words_given H.behavior given) ≤ self.old.input.room }
        requires fits { length self.old.output.items ≤ self.old.output.room }
        requires bytes_fit { length self.old.bytes.items ≤ self.old.bytes.room }
        requires input_fits { length self.old.input.items ≤ self.old.input.room }
        requires scratch { scratch.old.room ≡ self.old.output.room }
        requires made { self.old.made ≤ space.now.budget }
        ensures stepped { Steps K.gives L.lent_bucket H.behavior C.told given.entry space.now
            (work self.old lent.old log.old core.old) notes.old (work self.new lent.new log.new core.new) notes.new result }
        ensures lent { place_of (L.lent_bucket lent.new) ≡ place_of (L.lent_bucket lent.old) }
        ensures rooms { KeepsRooms self.old self.new }
        ensures made { self.new.made ≤ space.now.budget }
        ensures log { log.new.room ≡ log.old.room }
        ensures log_fits { length log.old.items ≤ log.old.room → length log.new.items ≤ log.new.room }
        ensures scratch { scratch.new.room ≡ scratch.old.room }
    {
        match given.hands.table().get(given.index) {
            None => PassStep::Bad(AbortCause::Table { index: given.index }),
            Some(statement) => {
                if self.made < space.budget {
                    self.made += 1;
                    let time = time(given.which, statement, given.clock);
                    let turn = Turn {
                        statement,
                        time,
                        space,
                    };
                    self.make(turn, given, lent, log, notes, scratch, core)
                } else {
                    PassStep::Bad(AbortCause::Budget)
                }
            }
        }
    }

    /// Makes the statement whose turn it is.
    #[inline(always)]
    fn make<H: Handler, L: Slots, K: Core, C: Clock>(
        &mut self,
        turn: Turn<'_>,
        given: Given<'_, H, C>,
        lent: &mut L,
        log: &mut WriteLog,
        notes: &mut Notes,
        scratch: &mut WordList,
        core: &mut K,
    ) -> PassStep
        requires registers { HasRegisters turn.statement }
        requires jumps { JumpsInside (length (H.behavior given.hands.now).statements) given.index turn.statement }
        requires small { length (H.behavior given.hands.now).statements < 2 ^ 63 }
        requires here { given.index < length (H.behavior given.hands.now).statements }
        requires geometry { IsOf turn.space.now.geometry (L.lent_bucket lent.old) }
        requires room { length (words_given H.behavior given) ≤ self.old.input.room }
        requires scratch { length self.old.output.items ≤ scratch.old.room }
        ensures tree { Makes K.gives L.lent_bucket H.behavior given.entry turn.entry
            (work self.old lent.old log.old core.old) notes.old (work self.new lent.new log.new core.new) notes.new result }
        ensures lent { place_of (L.lent_bucket lent.new) ≡ place_of (L.lent_bucket lent.old) }
        ensures scratch { scratch.new.room ≡ scratch.old.room }
    {
        let index = given.index;
        match turn.statement {
            Stmt::Const { to, number } => self.constant(to, number, index, core),
            Stmt::Move { to, from } => self.copy(to, from, index, core),
            Stmt::Add { to, left, right } => self.add(to, left, right, index, core),
            Stmt::Sub { to, left, right } => self.sub(to, left, right, index, core),
            Stmt::Input { to, index: from } => self.input(to, from, index, core),
            Stmt::Load { to, address } => self.load(to, address, lent, index, core),
            Stmt::Store { address, from } => self.store(address, from, lent, log, index, core),
            Stmt::Emit { from } => self.emit(from, index, core),
            Stmt::Jump { offset } => PassStep::Next {
                index: target(index, offset),
            },
            Stmt::JumpEq {
                left,
                right,
                offset,
            } => self.jump_equal(left, right, target(index, offset), index, core),
            Stmt::JumpLt {
                left,
                right,
                offset,
            } => self.jump_less(left, right, target(index, offset), index, core),
            Stmt::Now { to } => self.now(given.which, to, turn.time, notes, index, core),
            Stmt::Alloc { to, moment } => {
                let g = &turn.space.geometry;
                match given.which {
                    Which::Making => self.alloc(to, moment, lent, g, notes, index, core),
                    Which::Reading => self.noted_alloc(
                        to, moment, lent, g, notes.slot, index, core,
                    ),
                }
            }
            Stmt::Parse => self.parse(
                given.hands,
                given.input,
                given.sealed,
                lent.bucket(),
                index,
                core,
            ),
            Stmt::Render => self.render(given.hands, given.sealed.answer, scratch, index, core),
            Stmt::Halt => PassStep::Halted,
        }
    }
}
