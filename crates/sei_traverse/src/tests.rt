//! Traversals over a small table, with the plain core or with one planned fault, and a clock that is set.
ghost use Rattle.std.specs.Prelude.{◌≡◌, ◌≤◌, true};
ghost use Rattle.sei_traverse.specs.State.{is_running};

use super::*;
use mc_model::Geometry;
use sei_code::{Buffer, Coded, Mode, Rendered, WordList, message_code};
use sei_fault::{AbortCause, Core, Kind, Phase, Place, PlainCore, Planned, ScriptCore, Select};
use sei_outside::SetClock;
use sei_pass::Sealed;
use sei_stmt::{Handler, Modeled, Stmt, Table};
use sei_words::Words;
use std::alloc::Global;
use std::test::Fail;

const SMALL: Geometry = Geometry {
    buckets: 1,
    slots: 1,
    value_words: 3,
};

/// Reads each input as one call of bucket 0 with the one input word 7, and answers `A`, or nothing
/// where it is silent.
#[derive(Drop)]
struct Service {
    table: Table,
    silent: bool,
}

impl Handler for Service {
    ghost use Rattle.std.specs.Prelude.{[], ◌∷◌, Some, if◌then◌else◌};

    ghost behavior = { λ s. record { statements = s.table; calls = λ _. Some 1; parsed = λ _ _. Some (record { bucket = 0; words = 7 ∷ [] }); rendered = λ _. Some (if s.silent then [] else 65 ∷ []) } };

    fn calls(&self, _input: &[u8]) -> Option<u64> {
        Some(1)
    }

    fn bucket(&self, _input: &[u8], _nth: u64) -> Option<u64> {
        Some(0)
    }

    fn parse(&self, _input: &[u8], _nth: u64, into: &mut WordList) -> Option<u64> {
        into.clear();
        into.push(7);
        Some(0)
    }

    fn table(&self) -> &Table {
        &self.table
    }

    fn render(&self, _words: &[u64], into: &mut Buffer) -> Rendered {
        into.clear();
        if self.silent || into.push(b'A') {
            Rendered::Done
        } else {
            Rendered::Full
        }
    }
}

/// Word 0 of the bucket is the state, and a call leaves the time there.
impl Modeled for Service {
    ghost use Rattle.std.specs.Prelude.{◌≡◌, ℕ, [], ◌∷◌, Some, slice_get, if◌then◌else◌};
    ghost use Rattle.sei_pass.specs.Spaces.{space_of};

    ghost State = { ℕ };

    ghost begins = { λ _ words state. slice_get words 0 ≡ Some state };

    ghost stands = { λ _ words state. slice_get words 0 ≡ Some state };

    ghost space = { λ _ _ _. space_of (record { buckets = 1; slots = 1; value_words = 3 }) };

    ghost answer = { λ s _ _ _ now. (now, if s.silent then [] else 65 ∷ []) };
}

/// Stores the time into word 0, and emits it.
fn serving(alloc: Global, silent: bool) -> Result<Service, Fail> {
    let mut list = Vec::new(alloc);
    list.extend_from_slice(&[
        Stmt::Parse,
        Stmt::Now { to: 3 },
        Stmt::Const { to: 1, number: 0 },
        Stmt::Store {
            address: 1,
            from: 3,
        },
        Stmt::Emit { from: 3 },
        Stmt::Render,
        Stmt::Halt,
    ])?;
    let table = Table::new(list)?;
    Ok(Service { table, silent })
}

/// A call of the input `x` as message 2, whose reply is message 5.
fn sealed(input: &[u8], nth: Coded) -> Sealed {
    Sealed {
        number: 2,
        nth,
        code: message_code(2, input),
        answer: 5,
    }
}

/// The core with a planned fault at this step.
fn struck(phase: Phase, index: u64, kind: Kind) -> ScriptCore {
    ScriptCore::new(Some(Planned {
        phase,
        select: Select::Index(index),
        kind,
    }))
}

/// How a traversal is led: step by step, or by runs of steps.
#[derive(Clone, Copy)]
enum By {
    Steps,
    Runs,
}

/// One step or run for the input `x` at second 1000, with the words lent or not.
fn make<K: Core>(
    traversal: &mut Traversal,
    by: By,
    service: &Service,
    words: &mut Words,
    lent: bool,
    core: &mut K,
) -> Turned
    requires running { traversal.old.running ≡ true }
    requires laid_out { words.old.geometry ≡ traversal.old.space.geometry }
    requires room { 1 ≤ traversal.old.space.input }
    ensures running { traversal.new.running ≡ is_running result.state }
    ensures laid_out { words.new.geometry ≡ traversal.new.space.geometry }
    ensures room { 1 ≤ traversal.new.space.input }
{
    match by {
        By::Steps => step(traversal, service, words, lent, core),
        By::Runs => run(traversal, service, words, lent, core),
    }
}

/// One run.
fn run<K: Core>(
    traversal: &mut Traversal,
    service: &Service,
    words: &mut Words,
    lent: bool,
    core: &mut K,
) -> Turned
    requires running { traversal.old.running ≡ true }
    requires laid_out { words.old.geometry ≡ traversal.old.space.geometry }
    requires room { 1 ≤ traversal.old.space.input }
    ensures running { traversal.new.running ≡ is_running result.state }
    ensures laid_out { words.new.geometry ≡ traversal.new.space.geometry }
    ensures room { 1 ≤ traversal.new.space.input }
{
    let clock = SetClock { at: 1000 };
    if lent {
        traversal
            .run(service, b"x", Some(words), core, &clock)
            .turned
    } else {
        traversal.run(service, b"x", None, core, &clock).turned
    }
}

/// One step.
fn step<K: Core>(
    traversal: &mut Traversal,
    service: &Service,
    words: &mut Words,
    lent: bool,
    core: &mut K,
) -> Turned
    requires running { traversal.old.running ≡ true }
    requires laid_out { words.old.geometry ≡ traversal.old.space.geometry }
    requires room { 1 ≤ traversal.old.space.input }
    ensures running { traversal.new.running ≡ is_running result.state }
    ensures laid_out { words.new.geometry ≡ traversal.new.space.geometry }
    ensures room { 1 ≤ traversal.new.space.input }
{
    let clock = SetClock { at: 1000 };
    if lent {
        traversal.step(service, b"x", Some(words), core, &clock)
    } else {
        traversal.step(service, b"x", None, core, &clock)
    }
}

/// How a traversal went: its wants in their order, in how many steps or runs, and how it ended.
#[derive(Debug, PartialEq, Eq, Drop)]
struct Way {
    wants: Vec<Want>,
    turns: u64,
    state: State,
}

/// Serves the sealed call until it ends. The words are lent from the want of `Take` to that of
/// `Give`, where `lends`.
fn serve<K: Core>(
    alloc: Global,
    traversal: &mut Traversal,
    by: By,
    service: &Service,
    sealed: Sealed,
    words: &mut Words,
    lends: bool,
    core: &mut K,
) -> Result<Way, Fail>
    requires laid_out { words.old.geometry ≡ traversal.old.space.geometry }
    requires room { 1 ≤ traversal.old.space.input }
{
    traversal.begin(sealed, Mode::Plain);
    let mut wants = Vec::new(alloc);
    let mut lent = false;
    for turns in 1..100 {
        let turned = make(traversal, by, service, words, lent, core);
        match turned.want {
            Want::Take { .. } => lent = lends,
            Want::Give => lent = false,
            Want::Nothing | Want::Enter | Want::Send => {}
        }
        if turned.want != Want::Nothing {
            wants.push(turned.want)?;
        }
        match turned.state {
            State::Went => {}
            state => {
                return Ok(Way {
                    wants,
                    turns,
                    state,
                });
            }
        }
    }
    Err(Fail::new("it does not end"))
}

/// What a traversal shows.
#[derive(Clone, Debug, PartialEq, Eq, Drop)]
struct Shown {
    place: Place,
    gate: u64,
    steps: u64,
    wanted: u64,
    now: Option<u64>,
    reply: Vec<u8>,
    wire: Vec<u8>,
}

fn show(alloc: Global, traversal: &Traversal) -> Result<Shown, Fail> {
    Ok(Shown {
        place: traversal.place(),
        gate: traversal.gate(),
        steps: traversal.steps(),
        wanted: traversal.wanted(),
        now: traversal.now(),
        reply: traversal.reply().to_vec(alloc)?,
        wire: traversal.wire().to_vec(alloc)?,
    })
}

/// Begins once more.
fn show_again(alloc: Global, traversal: &mut Traversal, call: Sealed) -> Result<Shown, Fail> {
    traversal.begin(call, Mode::Plain);
    show(alloc, traversal)
}

/// What came of a call.
#[derive(Debug, PartialEq, Eq, Drop)]
struct Served {
    way: Way,
    shown: Shown,
    /// Word 0 of the bucket.
    word: Option<u64>,
    /// What is shown behind a further begin.
    again: Shown,
}

fn serve_and_show<K: Core>(
    alloc: Global,
    traversal: &mut Traversal,
    by: By,
    service: &Service,
    call: Sealed,
    words: &mut Words,
    lends: bool,
    core: &mut K,
) -> Result<Served, Fail>
    requires laid_out { words.old.geometry ≡ traversal.old.space.geometry }
    requires room { 1 ≤ traversal.old.space.input }
{
    let way = serve(alloc, traversal, by, service, call, words, lends, core)?;
    let shown = show(alloc, traversal)?;
    let again = show_again(alloc, traversal, call)?;
    let word = words.get(0);
    Ok(Served {
        way,
        shown,
        word,
        again,
    })
}

fn outcome<K: Core>(
    alloc: Global,
    by: By,
    silent: bool,
    call: Sealed,
    lends: bool,
    core: &mut K,
) -> Result<Served, Fail> {
    let service = serving(alloc, silent)?;
    let mut traversal = Traversal::new(alloc, &SMALL)?;
    let mut words = Words::new(alloc, &SMALL, 0)?;
    serve_and_show(
        alloc,
        &mut traversal,
        by,
        &service,
        call,
        &mut words,
        lends,
        core,
    )
}

const START: Place = Place {
    phase: Phase::Guard,
    index: 0,
};

const END: Place = Place {
    phase: Phase::Done,
    index: 1,
};

/// The steps are 1 of Guard, 2 of Take, 7 of each pass, 2 of Restore, 2 of Compare, 3 of Verify,
/// and 4 behind it.
#[test]
fn a_call_goes_through_all_phases(rt: HostRuntime) -> Result<(), Fail> {
    let alloc = rt.alloc();
    let mut core = PlainCore::new();
    let call = sealed(b"x", Coded::seal(0));
    let served = outcome(alloc, By::Steps, false, call, true, &mut core)?;
    assert_eq!(rt;
        served.way.wants.as_slice(),
        [
            Want::Take { bucket: 0 },
            Want::Enter,
            Want::Give,
            Want::Send
        ]
        .as_slice()
    );
    assert_eq!(rt; served.way.state, State::Finished);
    assert_eq!(rt;
        served.shown,
        Shown {
            place: END,
            gate: 11,
            steps: 28,
            wanted: 0,
            now: Some(1000),
            reply: b"A".to_vec(alloc)?,
            wire: b"A".to_vec(alloc)?,
        }
    );
    assert_eq!(rt; served.word, Some(1000));
    assert_eq!(rt;
        served.again,
        Shown {
            place: START,
            gate: 0,
            steps: 0,
            wanted: 0,
            now: None,
            reply: Vec::new(alloc),
            wire: Vec::new(alloc),
        }
    );
    Ok(())
}

#[test]
fn another_input_or_call_is_refused(rt: HostRuntime) -> Result<(), Fail> {
    let alloc = rt.alloc();
    let unreadable = Coded { value: 0, check: 0 };
    for call in [
        sealed(b"y", Coded::seal(0)),
        sealed(b"x", Coded::seal(1)),
        sealed(b"x", unreadable),
    ] {
        let mut core = PlainCore::new();
        let served = outcome(alloc, By::Steps, false, call, true, &mut core)?;
        assert!(rt; served.way.wants.is_empty());
        assert_eq!(rt; served.way.state, State::Refused);
        assert_eq!(rt; served.shown.place, START);
        assert_eq!(rt; served.shown.gate, 0);
        assert_eq!(rt; served.shown.steps, 1);
    }
    Ok(())
}

/// A skipped `Halt` leaves the second pass open, which Compare finds; a closing test that is
/// negated is found at once, and a word that was stored wrongly when it is read back.
#[test]
fn a_strike_aborts(rt: HostRuntime) -> Result<(), Fail> {
    let alloc = rt.alloc();
    let call = sealed(b"x", Coded::seal(0));
    for (mut core, phase, cause) in [
        (
            struck(Phase::Second, 6, Kind::Skip),
            Phase::Compare,
            AbortCause::Gate { done: 4 },
        ),
        (
            struck(Phase::Enter, 0, Kind::Flip),
            Phase::Enter,
            AbortCause::Gate { done: 7 },
        ),
        (
            struck(Phase::Second, 3, Kind::Write { mask: 1 }),
            Phase::Verify,
            AbortCause::Differs { index: 0 },
        ),
    ] {
        let served = outcome(alloc, By::Steps, false, call, true, &mut core)?;
        assert_eq!(rt;
            served.way.wants.as_slice(),
            [Want::Take { bucket: 0 }].as_slice()
        );
        assert_eq!(rt; served.way.state, State::Aborted(Abort { phase, cause }));
    }
    Ok(())
}

#[test]
fn a_call_without_its_bucket_aborts(rt: HostRuntime) -> Result<(), Fail> {
    let mut core = PlainCore::new();
    let call = sealed(b"x", Coded::seal(0));
    let served = outcome(rt.alloc(), By::Steps, false, call, false, &mut core)?;
    assert_eq!(rt;
        served.way.wants.as_slice(),
        [Want::Take { bucket: 0 }].as_slice()
    );
    let abort = Abort {
        phase: Phase::First,
        cause: AbortCause::Bucket,
    };
    assert_eq!(rt; served.way.state, State::Aborted(abort));
    Ok(())
}

#[test]
fn an_empty_reply_is_not_sent(rt: HostRuntime) -> Result<(), Fail> {
    let mut core = PlainCore::new();
    let call = sealed(b"x", Coded::seal(0));
    let served = outcome(rt.alloc(), By::Steps, true, call, true, &mut core)?;
    assert_eq!(rt;
        served.way.wants.as_slice(),
        [Want::Take { bucket: 0 }, Want::Enter, Want::Give].as_slice()
    );
    assert_eq!(rt; served.way.state, State::Finished);
    assert!(rt; served.shown.wire.is_empty());
    Ok(())
}

/// By runs a call comes to the same end as by steps, with the same wants and in as many steps.
#[test]
fn runs_lead_where_steps_do(rt: HostRuntime) -> Result<(), Fail> {
    let alloc = rt.alloc();
    let call = sealed(b"x", Coded::seal(0));
    let inside = Place {
        phase: Phase::First,
        index: 1,
    };
    for (phase, index, kind) in [
        (Phase::First, 2, Kind::Skip),
        (Phase::First, 3, Kind::Repeat),
        (Phase::First, 4, Kind::Jump { to: inside }),
        (Phase::First, 6, Kind::Skip),
        (Phase::Second, 3, Kind::Write { mask: 1 }),
        (Phase::Second, 4, Kind::Jump { to: END }),
        (Phase::Second, 6, Kind::Repeat),
        (Phase::Compare, 1, Kind::Flip),
    ] {
        let mut core = struck(phase, index, kind);
        let steps = outcome(alloc, By::Steps, false, call, true, &mut core)?;
        let mut core = struck(phase, index, kind);
        let mut runs = outcome(alloc, By::Runs, false, call, true, &mut core)?;
        runs.way.turns = steps.way.turns;
        assert_eq!(rt; runs, steps);
    }
    Ok(())
}

/// A run ends at a want or at the end of the traversal: 28 steps in 5 runs, behind which a bucket is
/// taken, the call is entered, the bucket is given back, the reply is sent, and the traversal is at
/// its end.
#[test]
fn a_run_makes_many_steps(rt: HostRuntime) -> Result<(), Fail> {
    let alloc = rt.alloc();
    let mut core = PlainCore::new();
    let call = sealed(b"x", Coded::seal(0));
    let served = outcome(alloc, By::Runs, false, call, true, &mut core)?;
    assert_eq!(rt; served.way.turns, 5);
    assert_eq!(rt; served.shown.steps, 28);
    assert_eq!(rt; served.way.state, State::Finished);
    assert_eq!(rt; served.word, Some(1000));
    Ok(())
}

#[test]
fn the_laws_can_be_called() {
    sound_handlers_are_trusted::<Service>();
    runs_keep_what_steps_keep::<PlainCore>();
    runs_go_as_steps_go::<PlainCore>();
}
