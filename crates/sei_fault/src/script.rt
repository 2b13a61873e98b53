//! The core that carries out one planned fault.
ghost use Rattle.std.specs.Prelude.{◌≡◌, ◌-◌, ◌^◌, IsTrue, false};
ghost use Rattle.sei_fault.specs.declared.place.Site.{Site};
ghost use Rattle.sei_fault.specs.Counts.{IsAtMostOne, counted};
ghost use Rattle.sei_fault.specs.Question.Question.{Value, Written, Test, Often, Goes};
ghost use Rattle.sei_fault.specs.Script.{script_begin, waited, begun, altered_in, settled, read_more, script_counts, script_answer, script_next};
ghost use Rattle.sei_fault.specs.Scripted.{function_core};
ghost use Rattle.sei_fault.specs.ScriptLaw.{script_lawful};
ghost use Rattle.sei_fault.specs.Watching.{is_armed, watches};

use super::count::Count;
use super::plan::StepCounts;
use super::{Act, Core, Place, Planned, Single, Site, Times};
use std::marker::Model;

/// The stage of a plan in its traversal.
#[derive(Clone, Copy)]
enum Stage {
    /// The step that it fits has not come yet.
    Waiting,
    /// Its step is being made.
    Armed {
        /// How many answers were given in the step so far.
        so_far: StepCounts,
    },
    /// It has struck.
    Struck,
    /// Its step is over, and it has not struck.
    Over,
}

/// The core that carries out one planned fault, or none. The plan is armed for the first step that
/// it fits, and strikes there, at most once. All other answers are honest. The core tells that one
/// strike can come until its plan has struck, and none from then on. Without a plan it always tells
/// one.
///
/// Each question adds one to `ticks`. Only if that gives 0, a separate method looks at the plan and
/// answers. While the plan's step is made, `ticks` is kept at its last value, so each question of
/// that step gives 0.
#[derive(Drop)]
pub struct ScriptCore {
    /// The questions that `count` does not have. While the plan's step is made it has them all.
    ticks: u64,
    /// Whether the plan waits for its step, or its step is being made.
    watching: bool,
    /// The questions before the ticks.
    count: Count,
    /// The planned fault.
    plan: Option<Planned>,
    /// The stage of the plan.
    stage: Stage,
}

impl Model for ScriptCore {
    ghost use Rattle.std.specs.Prelude.{◌≡◌};
    ghost use Rattle.sei_fault.specs.Script.{ScriptState};
    ghost use Rattle.sei_fault.specs.Watching.{watches, asked_by, StandsAtEdge};

    ghost Value = { ScriptState };

    ghost view = { λ core. record { asked = asked_by core.stage core.count core.ticks; plan = core.plan; stage = core.stage } };

    ghost invariant = { λ core. (core.watching ≡ watches core.plan core.stage) × StandsAtEdge core.stage core.ticks };
}

/// The stage of a plan once the step at this site begins. The plan is armed if the site is the
/// first that it fits, and the step in which it was armed is over.
fn begun(plan: Option<Planned>, stage: Stage, site: Site) -> Stage
    ensures { result ≡ begun plan stage site }
{
    match stage {
        Stage::Waiting => waited(plan, site),
        Stage::Armed { .. } => Stage::Over,
        Stage::Struck => Stage::Struck,
        Stage::Over => Stage::Over,
    }
}

/// The same of a plan that waits.
fn waited(plan: Option<Planned>, site: Site) -> Stage
    ensures { result ≡ waited plan site }
{
    match plan {
        Some(plan) if plan.fits(site) => Stage::Armed {
            so_far: StepCounts::new(),
        },
        _ => Stage::Waiting,
    }
}

/// Whether the plan's step is being made.
fn is_armed(stage: Stage) -> bool
    ensures { result ≡ is_armed stage }
{
    matches!(stage, Stage::Armed { .. })
}

/// Whether a plan waits for its step, or its step is being made.
fn watches(plan: Option<Planned>, stage: Stage) -> bool
    ensures { result ≡ watches plan stage }
{
    match stage {
        Stage::Waiting => plan.is_some(),
        Stage::Armed { .. } => true,
        Stage::Struck | Stage::Over => false,
    }
}

/// Puts ticks that became 0 back to their last value. It is a cold call, since a store in its place
/// would cost every tick.
#[cold]
#[inline(never)]
fn put_back(ticks: &mut u64)
    ensures { ticks.new ≡ 2 ^ 64 - 1 }
{
    *ticks = u64::MAX;
}

impl ScriptCore {
    /// No question was asked yet, and the plan, if there is one, waits for its step.
    pub fn new(plan: Option<Planned>) -> ScriptCore
        ensures { result ≡ script_begin plan }
    {
        ScriptCore {
            ticks: 0,
            watching: plan.is_some(),
            count: Count::new(),
            plan,
            stage: Stage::Waiting,
        }
    }

    /// Counts one question by a tick, and answers that it did. Or the ticks are at their last
    /// value: then nothing changes, and the question is still to be counted.
    #[inline(always)]
    fn tick(&mut self) -> bool
        ensures honest { IsTrue result → is_armed self.old.stage ≡ false }
        ensures counted { IsTrue result → self.new ≡ record self.old { asked = counted self.old.asked } }
        ensures same { result ≡ false → self.new ≡ self.old }
    {
        self.ticks = self.ticks.wrapping_add(1);
        if self.ticks == 0 {
            put_back(&mut self.ticks);
            return false;
        }
        true
    }

    /// Goes on to a stage. The ticks are added to the count, and begin anew.
    fn enter(&mut self, stage: Stage)
        ensures { self.new ≡ record self.old { stage = stage } }
    {
        if !is_armed(self.stage) {
            self.count.add(self.ticks);
        }
        self.ticks = if is_armed(stage) { u64::MAX } else { 0 };
        self.watching = watches(self.plan, stage);
        self.stage = stage;
    }

    /// Counts one question for which there is no tick.
    #[cold]
    #[inline(never)]
    fn count_aside(&mut self)
        ensures { self.new ≡ record self.old { asked = counted self.old.asked } }
    {
        self.count.count();
        self.enter(self.stage);
    }

    /// Counts one question.
    #[inline(always)]
    fn count(&mut self)
        ensures { self.new ≡ record self.old { asked = counted self.old.asked } }
    {
        if !self.tick() {
            self.count_aside();
        }
    }

    /// Notes that the plan has struck, if it altered an answer.
    fn settle(&mut self, is_altered: bool)
        ensures { self.new ≡ record self.old { stage = settled self.old.stage is_altered } }
    {
        if is_altered {
            self.enter(Stage::Struck);
        }
    }

    /// Counts one number that was read in the step of the plan.
    fn count_read(&mut self)
        ensures { self.new ≡ record self.old { stage = read_more self.old.stage } }
    {
        if let Stage::Armed { so_far } = self.stage {
            self.stage = Stage::Armed {
                so_far: so_far.with_value(),
            };
        }
    }

    /// What is answered when a number is read, if the plan alters that.
    fn read_fault(&self, honest: u64) -> Option<u64>
        ensures { result ≡ altered_in self.now.plan self.now.stage (Value honest) }
    {
        match (self.plan, self.stage) {
            (Some(plan), Stage::Armed { so_far }) => plan.kind.read(so_far, honest),
            _ => None,
        }
    }

    /// What is answered when a number is stored, if the plan alters that.
    fn written_fault(&self, honest: u64) -> Option<u64>
        ensures { result ≡ altered_in self.now.plan self.now.stage (Written honest) }
    {
        match (self.plan, self.stage) {
            (Some(plan), Stage::Armed { .. }) => plan.kind.written(honest),
            _ => None,
        }
    }

    /// The outcome of a comparison, if the plan alters it.
    fn test_fault(&self, honest: bool) -> Option<bool>
        ensures { result ≡ altered_in self.now.plan self.now.stage (Test honest) }
    {
        match (self.plan, self.stage) {
            (Some(plan), Stage::Armed { .. }) => plan.kind.test(honest),
            _ => None,
        }
    }

    /// How often an act is done, if the plan alters that.
    fn times_fault(&self) -> Option<Times>
        ensures { (site : Site) → result ≡ altered_in self.now.plan self.now.stage (Often site) }
    {
        match (self.plan, self.stage) {
            (Some(plan), Stage::Armed { .. }) => plan.kind.times(),
            _ => None,
        }
    }

    /// Where the traversal goes on, if the plan alters that.
    fn next_fault(&self, honest: Place) -> Option<Place>
        ensures { result ≡ altered_in self.now.plan self.now.stage (Goes honest) }
    {
        match (self.plan, self.stage) {
            (Some(plan), Stage::Armed { .. }) => plan.kind.next(honest),
            _ => None,
        }
    }

    /// `value`, if there is no tick for it.
    #[cold]
    #[inline(never)]
    fn watched_value(&mut self, honest: u64) -> u64
        ensures { function_core script_answer script_next self.old (Value honest) result self.new }
    {
        self.count_aside();
        let fault = self.read_fault(honest);
        self.settle(fault.is_some());
        self.count_read();
        fault.unwrap_or(honest)
    }

    /// `written`, if there is no tick for it.
    #[cold]
    #[inline(never)]
    fn watched_written(&mut self, honest: u64) -> u64
        ensures { function_core script_answer script_next self.old (Written honest) result self.new }
    {
        self.count_aside();
        let fault = self.written_fault(honest);
        self.settle(fault.is_some());
        fault.unwrap_or(honest)
    }

    /// `test`, if there is no tick for it.
    #[cold]
    #[inline(never)]
    fn watched_test(&mut self, honest: bool) -> bool
        ensures { function_core script_answer script_next self.old (Test honest) result self.new }
    {
        self.count_aside();
        let fault = self.test_fault(honest);
        self.settle(fault.is_some());
        fault.unwrap_or(honest)
    }

    /// `times`, while the plan waits or its step is made. The site is passed by its parts, which stay
    /// in registers: passed whole, it would be stored at each step, watched or not.
    #[cold]
    #[inline(never)]
    fn watched_times(&mut self, place: Place, act: Act) -> Times
        ensures { let site : Site = record { place = place; act = act } in
            function_core script_answer script_next self.old (Often site) result self.new }
    {
        let site = Site { place, act };
        self.count();
        self.enter(begun(self.plan, self.stage, site));
        let fault = self.times_fault();
        self.settle(fault.is_some());
        fault.unwrap_or(Times::Once)
    }

    /// `next`, if there is no tick for it.
    #[cold]
    #[inline(never)]
    fn watched_next(&mut self, honest: Place) -> Place
        ensures { function_core script_answer script_next self.old (Goes honest) result self.new }
    {
        self.count_aside();
        let fault = self.next_fault(honest);
        self.settle(fault.is_some());
        fault.unwrap_or(honest)
    }
}

impl Core for ScriptCore {
    ghost counts = { script_counts };

    ghost gives = { function_core script_answer script_next };

    #[inline(always)]
    fn value(&mut self, honest: u64) -> u64 {
        if self.tick() {
            honest
        } else {
            self.watched_value(honest)
        }
    }

    #[inline(always)]
    fn written(&mut self, honest: u64) -> u64 {
        if self.tick() {
            honest
        } else {
            self.watched_written(honest)
        }
    }

    #[inline(always)]
    fn test(&mut self, honest: bool) -> bool {
        if self.tick() {
            honest
        } else {
            self.watched_test(honest)
        }
    }

    #[inline(always)]
    fn times(&mut self, site: Site) -> Times {
        if self.watching {
            self.watched_times(site.place, site.act)
        } else {
            self.count();
            Times::Once
        }
    }

    #[inline(always)]
    fn next(&mut self, honest: Place) -> Place {
        if self.tick() {
            honest
        } else {
            self.watched_next(honest)
        }
    }

    ghost lawful = { script_lawful };
}

impl Single for ScriptCore {
    // The plan is for one traversal, so nothing changes, as `same` says. The other clauses are
    // those of the trait.
    fn begin(&mut self, _t: u64)
        ensures same { self.new ≡ self.old }
        ensures asked { (script_counts self.new).asked ≡ (script_counts self.old).asked }
        ensures struck { (script_counts self.new).struck ≡ (script_counts self.old).struck }
        ensures room { IsAtMostOne (script_counts self.new).room }
    {}
}
