//! How many statements a first pass makes of a call, and which words it changes.
ghost use Rattle.std.specs.Prelude.{◌≡◌, ◌+◌, ◌≤◌, ◌<◌, ◌^◌};
ghost use Rattle.mc_model.specs.Server.{IsValid};
ghost use Rattle.sei_pass.specs.Spaces.{pass_space};

use super::*;
use sei_code::{Coded, message_code};
use sei_fault::PlainCore;
use sei_log::{Notes, WriteLog};
use sei_outside::SetClock;
use sei_pass::{Given, Pass, PassStep, Sealed, Which};
use sei_stmt::{Program, Stmt};
use sei_words::Words;
use tab_find::registers::{NUMBER, VERB};

/// Makes the statement at the index, when the clock answers `second`.
#[tactic(auto, using(crate::proofs::PassLaws::sealed_words_fit, crate::proofs::PassLaws::one_geometry))]
fn make(
    pass: &mut Pass,
    hands: &Hands,
    text: &[u8],
    words: &mut Words,
    log: &mut WriteLog,
    notes: &mut Notes,
    second: u64,
    index: u64,
) -> PassStep
    requires valid { IsValid hands.now }
    requires space { pass.old.space ≡ pass_space hands.now }
    requires words { words.old.geometry ≡ hands.now }
    ensures space { pass.new.space ≡ pass.old.space }
    ensures words { words.new.geometry ≡ words.old.geometry }
{
    let _code = pass.code();
    let mut core = PlainCore::new();
    let clock = SetClock { at: second };
    let sealed = Sealed {
        number: 0,
        nth: Coded::seal(0),
        code: message_code(0, text),
        answer: 1,
    };
    let given = Given {
        which: Which::Making,
        hands,
        input: text,
        sealed: &sealed,
        clock: &clock,
        index,
    };
    pass.step_on(given, words, log, notes, &mut core)
}

/// Makes at most `left` statements from the index on, and answers how many it made if the pass has halted.
fn make_all(
    pass: &mut Pass,
    hands: &Hands,
    text: &[u8],
    words: &mut Words,
    log: &mut WriteLog,
    notes: &mut Notes,
    second: u64,
    index: u64,
    made: u64,
    left: u32,
) -> Option<u64>
    requires valid { IsValid hands.now }
    requires space { pass.old.space ≡ pass_space hands.now }
    requires words { words.old.geometry ≡ hands.now }
    requires made { made + left < 2 ^ 64 }
    ensures words { words.new.geometry ≡ words.old.geometry }
{
    if left == 0 {
        return None;
    }
    match make(pass, hands, text, words, log, notes, second, index) {
        PassStep::Next { index: next } => make_all(
            pass,
            hands,
            text,
            words,
            log,
            notes,
            second,
            next,
            made + 1,
            left - 1,
        ),
        PassStep::Halted => Some(made + 1),
        PassStep::Bad(_) => None,
    }
}

/// What a call costs: how many statements a pass of it makes, and at which addresses it changes
/// words.
#[derive(Drop)]
struct Counted {
    /// None if the pass did not halt.
    statements: Option<u64>,
    addresses: Vec<u64>,
}

/// Makes a first pass of the request's only call, and leaves its words.
fn cost(
    rt: HostRuntime,
    geometry: &Geometry,
    hands: &Hands,
    words: &mut Words,
    second: u64,
    text: &[u8],
) -> Result<Counted, Fail>
    requires same { hands.now ≡ geometry.now }
    requires valid { IsValid hands.now }
    requires words { words.old.geometry ≡ hands.now }
    ensures words { words.new.geometry ≡ words.old.geometry }
{
    let alloc = rt.alloc();
    let mut pass = Pass::new(alloc, geometry)?;
    let mut log = WriteLog::new(alloc, 2_000)?;
    let mut notes = Notes {
        now: None,
        slot: None,
    };
    let made = make_all(
        &mut pass, hands, text, words, &mut log, &mut notes, second, 0, 0, 100_000,
    );
    let mut addresses = Vec::new(alloc);
    for i in 0..log.len() {
        if let Some(change) = log.get(i) {
            addresses.push(change.address)?;
        }
    }
    Ok(Counted {
        statements: made,
        addresses,
    })
}

/// The costs of requests that come one after the other at an empty bucket, when the clock answers
/// `second`.
fn costs(rt: HostRuntime, slots: u64, second: u64, texts: &[&[u8]]) -> Result<Vec<Counted>, Fail> {
    let geometry = Geometry {
        buckets: 1,
        slots,
        value_words: 1_024,
    };
    let hands = Hands::new(rt.alloc(), geometry)?;
    let mut words = Words::new(rt.alloc(), &geometry, 0)?;
    let mut costs = Vec::new(rt.alloc());
    for text in texts {
        costs.push(cost(rt, &geometry, &hands, &mut words, second, text)?)?;
    }
    Ok(costs)
}

/// How many statements each of these requests costs, in the same way.
fn statements(
    rt: HostRuntime,
    slots: u64,
    second: u64,
    texts: &[&[u8]],
) -> Result<Vec<Option<u64>>, Fail> {
    let made = costs(rt, slots, second, texts)?;
    let mut counts = Vec::new(rt.alloc());
    for cost in made.iter() {
        counts.push(cost.statements)?;
    }
    Ok(counts)
}

/// Which register the statements put out first if the register that they choose by holds `number`, and how many they make before.
fn chosen(stmts: &[Stmt], number: u64) -> Option<(u8, u64)> {
    let mut bound = 0;
    let mut at = 0u64;
    for made in 0..100 {
        match stmts.get(at as usize) {
            Some(Stmt::Const { number, .. }) => {
                bound = *number;
                at += 1;
            }
            Some(Stmt::JumpLt { offset, .. }) if number < bound => {
                at = (at + 1).checked_add_signed(*offset)?;
            }
            Some(Stmt::JumpLt { .. }) => at += 1,
            Some(Stmt::Emit { from }) => return Some((*from, made)),
            _ => return None,
        }
    }
    None
}

/// Each of the 16 numbers comes to its program in eight statements. A jump over the programs after
/// it makes nine.
#[test]
fn the_choice_costs_nine_statements(rt: HostRuntime) -> Result<(), Fail> {
    let alloc = rt.alloc();
    let mut programs = Vec::new(alloc);
    for from in 0..16u8 {
        programs.push(Program::block(alloc, &[Stmt::Emit { from }])?)?;
    }
    let stmts = Program::halves(alloc, 4, VERB, NUMBER, programs)?.flatten(alloc)?;
    for from in 0..16u8 {
        assert!(rt; chosen(&stmts, from as u64) == Some((from, 8)));
    }
    Ok(())
}

/// The commands in a bucket of one slot, with a key of one byte and a value of one word, at second 0, which is before each
/// moment. The first call sets the moment, which costs three more.
#[test]
fn each_command_costs_few_statements(rt: HostRuntime) -> Result<(), Fail> {
    let made = statements(
        rt,
        1,
        0,
        &[
            b"version\r\n",
            b"set a 0 0 1\r\nx\r\n",
            b"set a 0 0 1\r\ny\r\n",
            b"get a\r\n",
            b"get b\r\n",
            b"delete b\r\n",
            b"delete a\r\n",
            b"delete a\r\n",
            b"get a\r\n",
            b"version\r\n",
        ],
    )?;
    let wanted = [31, 87, 90, 93, 50, 47, 61, 39, 42, 28];
    for (count, wanted) in made.iter().zip(wanted.iter()) {
        assert_eq!(rt; *count, Some(*wanted));
    }
    Ok(())
}

/// A call to which the time has come, as its bucket's moment is no later: it costs two more.
#[test]
fn the_time_costs_two_statements(rt: HostRuntime) -> Result<(), Fail> {
    let texts: [&[u8]; 3] = [b"version\r\n", b"set a 0 0 1\r\nx\r\n", b"get a\r\n"];
    let made = statements(rt, 1, 1_000, &texts)?;
    let wanted = [30, 89, 95];
    for (count, wanted) in made.iter().zip(wanted.iter()) {
        assert_eq!(rt; *count, Some(*wanted));
    }
    Ok(())
}

/// Five for each word in a set, and five in a get.
#[test]
fn a_word_of_a_value_costs_five_statements(rt: HostRuntime) -> Result<(), Fail> {
    let made = statements(
        rt,
        1,
        0,
        &[
            b"version\r\n",
            b"set a 0 0 0\r\n\r\n",
            b"get a\r\n",
            b"set a 0 0 8\r\n12345678\r\n",
            b"get a\r\n",
            b"set a 0 0 16\r\n1234567812345678\r\n",
            b"get a\r\n",
            b"set a 0 0 17\r\n12345678123456781\r\n",
            b"get a\r\n",
        ],
    )?;
    let wanted = [31, 82, 88, 90, 93, 95, 98, 100, 103];
    for (count, wanted) in made.iter().zip(wanted.iter()) {
        assert_eq!(rt; *count, Some(*wanted));
    }
    Ok(())
}

/// Four for an empty slot, and twelve for one whose item has another hash.
#[test]
fn a_slot_that_is_walked_costs_few_statements(rt: HostRuntime) -> Result<(), Fail> {
    let texts: [&[u8]; 6] = [
        b"version\r\n",
        b"get a\r\n",
        b"set b 0 0 0\r\n\r\n",
        b"get a\r\n",
        b"set c 0 0 0\r\n\r\n",
        b"get a\r\n",
    ];
    let two = statements(rt, 2, 0, &texts)?;
    let three = statements(rt, 3, 0, &texts)?;
    let of_two = [31, 46, 86, 54, 97, 62];
    let of_three = [31, 50, 90, 58, 101, 66];
    for (count, wanted) in two.iter().zip(of_two.iter()) {
        assert_eq!(rt; *count, Some(*wanted));
    }
    for (count, wanted) in three.iter().zip(of_three.iter()) {
        assert_eq!(rt; *count, Some(*wanted));
    }
    Ok(())
}

/// A new item with flags 0 and no expiry changes the moment, the counter, and words of its slot. In
/// the slot these are the mark of use, the hash, both lengths, the cas unique, the key and the
/// value. An item that is replaced changes the counter, the unique and the value.
#[test]
fn a_set_changes_few_words(rt: HostRuntime) -> Result<(), Fail> {
    let made = costs(
        rt,
        1,
        0,
        &[b"set a 0 0 1\r\nx\r\n", b"set a 0 0 1\r\ny\r\n"],
    )?;
    let wanted: [&[u64]; 2] = [&[0, 1, 2, 3, 4, 7, 8, 9, 41], &[1, 7, 41]];
    for (counted, wanted) in made.iter().zip(wanted.iter()) {
        assert!(rt; counted.addresses.as_slice() == *wanted);
    }
    Ok(())
}
