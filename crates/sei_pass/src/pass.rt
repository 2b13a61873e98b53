//! A pass.
ghost use Rattle.std.specs.Prelude.{◌≡◌, ◌+◌, ◌≤◌, ◌<◌, ◌^◌, IfOk, IfSome, length, slice_get};
ghost use Rattle.std.specs.Option.{option_map};
ghost use Rattle.mc_model.specs.Server.{IsValid};
ghost use Rattle.sei_stmt.specs.Handling.{parsed_words};
ghost use Rattle.sei_words.specs.LentBucket.{place_of, IsOf};
ghost use Rattle.sei_words.specs.Exits.{lent_at, lent_left};
ghost use Rattle.sei_pass.specs.Acts.{act_of};
ghost use Rattle.sei_pass.specs.Given.{StepsOn, StepsBy, setting_by, words_given};
ghost use Rattle.sei_pass.specs.Loop.{PassLeads, PassRuns, HasIndexAfter, IfOut, led_to};
ghost use Rattle.sei_pass.specs.Setting.{sealed_call};
ghost use Rattle.sei_pass.specs.Spaces.{pass_space};
ghost use Rattle.sei_pass.specs.State.{IsPass, new_pass};
ghost use Rattle.sei_pass.specs.Work.{work};

use crate::frame::{Frame, PassStep};
use crate::given::{Given, Sealed, Which};
use crate::loops::{Exit, Ran};
use crate::slots::Slots;
use crate::spaces::PassSpace;
use mc_model::Geometry;
use sei_code::{Memory, WordList};
use sei_fault::{Act, Core, Phase};
use sei_log::{Notes, WriteLog};
use sei_outside::Clock;
use sei_stmt::Handler;
use sei_words::{Lent, NoBucket, Words};
use std::alloc::Global;
use std::marker::Model;

/// One pass over a table: its registers, its input words, its output words and bytes, the output
/// code, and how many statements it made.
#[derive(Drop)]
pub struct Pass {
    frame: Frame,
    /// Where `Render` puts the output words that it reads.
    scratch: WordList,
    space: PassSpace,
}

impl Model for Pass {
    ghost use Rattle.sei_pass.specs.Acts.{act_of};
    ghost use Rattle.sei_pass.specs.State.{PassState, IsBuilt};

    ghost Value = { PassState };

    ghost view = { λ p. record {
      registers = p.frame.registers;
      input = p.frame.input;
      output = p.frame.output;
      bytes = p.frame.bytes;
      code = p.frame.code;
      made = p.frame.made;
      space = p.space;
    } };

    ghost invariant = { λ p. IsBuilt (record {
      registers = p.frame.registers;
      input = p.frame.input;
      output = p.frame.output;
      bytes = p.frame.bytes;
      code = p.frame.code;
      made = p.frame.made;
      space = p.space;
    }) p.scratch };
}

impl Pass {
    /// A pass before its first statement, with the room that each call of this geometry needs.
    /// Nothing is allocated afterwards.
    pub fn new(alloc: Global, g: &Geometry) -> Result<Pass, Memory>
        requires { IsValid g.now }
        ensures { IfOk result (λ pass. pass ≡ new_pass (pass_space g.now)) }
    {
        let space = PassSpace::new(g, g.value_words);
        Ok(Pass {
            frame: Frame::new(alloc, &space)?,
            scratch: WordList::new(alloc, space.output as usize)?,
            space,
        })
    }

    /// Makes it as it was before its first statement.
    pub fn clear(&mut self)
        ensures { self.new ≡ new_pass self.old.space }
    {
        self.frame.clear();
    }

    /// The code of the output bytes, or `None` if they were not made.
    pub fn code(&self) -> Option<u64>
        ensures value { result ≡ self.now.code }
        ensures pass { IsPass self.now }
    {
        self.frame.code
    }

    /// The output bytes.
    pub fn bytes(&self) -> &[u8]
        ensures { result.now ≡ self.now.bytes.items }
    {
        self.frame.bytes.bytes()
    }

    /// What the statement at `index` of the table does, or `None` if there is no such statement.
    #[inline(always)]
    pub fn act<H: Handler>(&self, hands: &H, index: u64) -> Option<Act>
        ensures act { result ≡ option_map (act_of self.now.registers) (slice_get (H.behavior hands.now).statements index) }
        ensures below { IfSome result (λ _. index < 2 ^ 63) }
    {
        match hands.table().get(index) {
            None => None,
            Some(statement) => Some(self.frame.act(statement)),
        }
    }

    /// Makes the statement at `index` of the table, counted from 0, with each of its effects asked
    /// of `core`. `lent` are the words of the bucket that is lent, if one is.
    ///
    /// It aborts with `Table` where there is no such statement, with `Budget` where the pass has
    /// made as many statements as it may, and else as the statement does.
    /// Behind a `Parse` that aborts the input words may be filled already.
    pub fn step<H: Handler, K: Core, C: Clock>(
        &mut self,
        which: Which,
        hands: &H,
        input: &[u8],
        sealed: &Sealed,
        lent: Option<&mut Words>,
        log: &mut WriteLog,
        notes: &mut Notes,
        core: &mut K,
        clock: &C,
        index: u64,
    ) -> PassStep
        // The input words have room for what the hands make of the input.
        requires room { length (parsed_words (sealed_call ((H.behavior hands.now).parsed input.now) sealed.now.nth)) ≤ self.old.input.room }
        // What is lent is of the pass's geometry.
        requires lent { IsOf self.old.space.geometry (lent_at lent) }
        ensures stepped { StepsBy K.gives K.counts (C.told clock.now) (setting_by which (H.behavior hands.now) input.now sealed.now) index
            (work self.old (lent_at lent.entry) log.old core.old) notes.old
            (work self.new (lent_left lent.exit) log.new core.new) notes.new result }
        ensures lent { place_of (lent_left lent.exit) ≡ place_of (lent_at lent.entry) }
        ensures space { self.new.space ≡ self.old.space }
        ensures pass { IsPass self.new }
        ensures log { log.new.room ≡ log.old.room }
        ensures log_fits { length log.old.items ≤ log.old.room → length log.new.items ≤ log.new.room }
    {
        let given = Given {
            which,
            hands,
            input,
            sealed,
            clock,
            index,
        };
        match lent {
            None => self.step_on(given, &mut NoBucket, log, notes, core),
            Some(words) => self.step_on(given, words, log, notes, core),
        }
    }

    /// The same step, on what is lent.
    #[inline(always)]
    pub fn step_on<H: Handler, L: Slots, K: Core, C: Clock>(
        &mut self,
        given: Given<'_, H, C>,
        lent: &mut L,
        log: &mut WriteLog,
        notes: &mut Notes,
        core: &mut K,
    ) -> PassStep
        requires room { length (words_given H.behavior given) ≤ self.old.input.room }
        requires lent { IsOf self.old.space.geometry (L.lent_bucket lent.old) }
        ensures stepped { StepsOn K.gives K.counts L.lent_bucket H.behavior C.told given.entry
            (work self.old lent.old log.old core.old) notes.old (work self.new lent.new log.new core.new) notes.new result }
        ensures lent { place_of (L.lent_bucket lent.new) ≡ place_of (L.lent_bucket lent.old) }
        ensures space { self.new.space ≡ self.old.space }
        ensures pass { IsPass self.new }
        ensures log { log.new.room ≡ log.old.room }
        ensures log_fits { length log.old.items ≤ log.old.room → length log.new.items ≤ log.new.room }
    {
        self.frame.step(
            given,
            &self.space,
            lent,
            log,
            notes,
            &mut self.scratch,
            core,
        )
    }

    /// Makes the step of the phase at `index`, as far as a loop over its steps makes it: it returns
    /// the index that it leads on to in the phase, or `None` and in `exit` how it left the loop, which
    /// says what is left to do of it.
    #[inline(always)]
    pub fn lead_on<U, H: Handler, L: Lent, K: Core>(
        &mut self,
        phase: Phase,
        hands: &H,
        lent: &mut L,
        log: &mut WriteLog,
        core: &mut K,
        index: u64,
        exit: &mut Exit,
    ) -> Option<u64>
        ensures led { PassLeads K.gives L.lent_bucket (H.behavior hands.now) phase index (led_to result exit.new)
            (work self.old lent.old log.old core.old) (work self.new lent.new log.new core.new) }
        ensures after { IfOut (led_to result exit.new) (λ exit. HasIndexAfter exit index) }
        ensures lent { place_of (L.lent_bucket lent.new) ≡ place_of (L.lent_bucket lent.old) }
        ensures space { self.new.space ≡ self.old.space }
        ensures pass { IsPass self.new }
        ensures log { log.new.room ≡ log.old.room }
        ensures log_fits { length log.old.items ≤ log.old.room → length log.new.items ≤ log.new.room }
    {
        if self.frame.made < self.space.budget {
            self.frame
                .lead::<U, L, K>(phase, hands.table(), lent, log, core, index, exit)
        } else {
            *exit = Exit::Alone;
            None
        }
    }

    /// Makes the steps of the phase from the index `from`, as long as each leads on in it, and of the
    /// next one what can be made in a loop: how it left that one says what is left to do of it. The
    /// statements are those of the table, with each of their effects asked of `core`.
    #[inline(never)]
    pub fn run_on<H: Handler, L: Lent, K: Core>(
        &mut self,
        phase: Phase,
        hands: &H,
        lent: &mut L,
        log: &mut WriteLog,
        core: &mut K,
        from: u64,
    ) -> Ran
        ensures ran { PassRuns K.gives L.lent_bucket (H.behavior hands.now) phase from result
            (work self.old lent.old log.old core.old) (work self.new lent.new log.new core.new) }
        ensures after { HasIndexAfter result.exit result.index }
        ensures few { result.before ≤ self.old.space.budget }
        ensures lent { place_of (L.lent_bucket lent.new) ≡ place_of (L.lent_bucket lent.old) }
        ensures space { self.new.space ≡ self.old.space }
        ensures pass { IsPass self.new }
        ensures log { log.new.room ≡ log.old.room }
        ensures log_fits { length log.old.items ≤ log.old.room → length log.new.items ≤ log.new.room }
    {
        self.frame.run(
            phase,
            hands.table(),
            self.space.budget,
            lent,
            log,
            core,
            from,
        )
    }
}
