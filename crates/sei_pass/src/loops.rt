//! Many steps of a pass.
ghost use Rattle.std.specs.Prelude.{◌≡◌, ◌+◌, ◌<◌, ◌≤◌, ◌^◌};
ghost use Rattle.sei_words.specs.LentBucket.{place_of};
ghost use Rattle.sei_pass.specs.Loop.{FrameLeads, FrameRuns, HasIndexAfter, IfOut, led_to};
ghost use Rattle.sei_pass.specs.Work.{work};

use crate::frame::Frame;
use sei_fault::{AbortCause, Act, Core, Phase, Place, Times};
use sei_log::WriteLog;
use sei_stmt::Table;
use sei_words::Lent;

/// How a statement ended whose step was asked for first.
#[derive(Clone, Copy)]
pub enum Asked {
    /// It leads to the statement with this index.
    Next(u64),
    /// The pass has ended.
    Halted,
    /// The traversal aborts.
    Bad(AbortCause),
    /// Its act is to be made otherwise than once, so it was not made.
    Struck(Act, Times),
    /// It was not asked for: its step is to be made by itself.
    Alone,
}

/// Where and why a loop over the steps of a pass ended.
#[derive(Clone, Copy)]
pub enum Exit {
    /// The statement was made, and the core leads to another phase.
    At(Place),
    /// The pass has ended.
    Halted,
    /// The traversal aborts.
    Bad(AbortCause),
    /// The act of the statement is to be made otherwise than once, so it was not made.
    Struck(Act, Times),
    /// Nothing was done of the step yet.
    Alone,
}

/// How a loop over the steps of a pass ended.
#[derive(Clone, Copy)]
pub struct Ran {
    /// How many whole steps it made.
    pub before: u64,
    /// The index of the statement whose step it left.
    pub index: u64,
    /// How it left that step.
    pub exit: Exit,
}

/// The use of a step that is made in a loop over many.
pub struct LoopStep;

/// The use of a step of the first pass that is made by itself.
pub struct FirstStep;

/// The use of a step of the second pass that is made by itself.
pub struct SecondStep;

impl Frame {
    /// Makes the step at `index`, as far as the loop makes it. It returns the index of the statement
    /// that it leads on to, or `None` and how it left the loop in `exit`. `U` is the use: each has a
    /// copy of its own in the machine code, and what only one caller has is taken into it.
    #[inline(always)]
    pub fn lead<U, L: Lent, K: Core>(
        &mut self,
        phase: Phase,
        table: &Table,
        lent: &mut L,
        log: &mut WriteLog,
        core: &mut K,
        index: u64,
        exit: &mut Exit,
    ) -> Option<u64>
        requires made { self.old.made + 1 < 2 ^ 64 }
        ensures led { FrameLeads K.gives L.lent_bucket table.now phase index (led_to result exit.new)
            (work self.old lent.old log.old core.old) (work self.new lent.new log.new core.new) }
        ensures after { IfOut (led_to result exit.new) (λ exit. HasIndexAfter exit index) }
        ensures lent { place_of (L.lent_bucket lent.new) ≡ place_of (L.lent_bucket lent.old) }
    {
        let Some(statement) = table.get(index) else {
            *exit = Exit::Alone;
            return None;
        };
        match self.ask::<U, L, K>(statement, phase, index, lent, log, core) {
            Asked::Next(to) => {
                let place = core.next(Place { phase, index: to });
                if place.phase == phase {
                    Some(place.index)
                } else {
                    *exit = Exit::At(place);
                    None
                }
            }
            Asked::Halted => {
                *exit = Exit::Halted;
                None
            }
            Asked::Bad(cause) => {
                *exit = Exit::Bad(cause);
                None
            }
            Asked::Struck(act, times) => {
                *exit = Exit::Struck(act, times);
                None
            }
            Asked::Alone => {
                *exit = Exit::Alone;
                None
            }
        }
    }

    /// Makes the steps of the phase from the index `from`, up to the first that does not lead on in
    /// it, and makes of that one what can be made in a loop. At most `budget` statements are made in
    /// the whole pass.
    #[inline(always)]
    pub fn run<L: Lent, K: Core>(
        &mut self,
        phase: Phase,
        table: &Table,
        budget: u64,
        lent: &mut L,
        log: &mut WriteLog,
        core: &mut K,
        from: u64,
    ) -> Ran
        ensures ran { FrameRuns K.gives L.lent_bucket table.now budget phase from result
            (work self.old lent.old log.old core.old) (work self.new lent.new log.new core.new) }
        ensures after { HasIndexAfter result.exit result.index }
        ensures few { result.before ≤ budget }
        ensures lent { place_of (L.lent_bucket lent.new) ≡ place_of (L.lent_bucket lent.old) }
    {
        let first = self.made;
        let mut index = from;
        let mut exit = Exit::Alone;
        for made in first..budget {
            match self.lead::<LoopStep, L, K>(phase, table, lent, log, core, index, &mut exit) {
                Some(to) => index = to,
                None => {
                    return Ran {
                        before: made - first,
                        index,
                        exit,
                    };
                }
            }
        }
        Ran {
            before: self.made - first,
            index,
            exit: Exit::Alone,
        }
    }
}
