//! Planned faults, as words spell them.
ghost use Rattle.std.specs.Prelude.{◌≡◌};
ghost use Rattle.std.specs.Option.{option_map};
ghost use Rattle.sei_script.specs.Lines.{part};
ghost use Rattle.sei_script.specs.Plans.{phase_of, selected, select_words, select_of, mask_of, kind_words, kind_of, read_of, alone, jump_of, plan_of};

use super::words::{Numbered, behind_word, first_exact, last_exact, word_of};
use sei_fault::{Kind, Phase, Place, Planned, Select};

/// The phase that a word names.
fn phase_of(word: &[u8]) -> Option<Phase>
    ensures { result ≡ phase_of word.now }
{
    if word == b"guard".as_slice() {
        Some(Phase::Guard)
    } else if word == b"take".as_slice() {
        Some(Phase::Take)
    } else if word == b"first".as_slice() {
        Some(Phase::First)
    } else if word == b"restore".as_slice() {
        Some(Phase::Restore)
    } else if word == b"second".as_slice() {
        Some(Phase::Second)
    } else if word == b"compare".as_slice() {
        Some(Phase::Compare)
    } else if word == b"verify".as_slice() {
        Some(Phase::Verify)
    } else if word == b"enter".as_slice() {
        Some(Phase::Enter)
    } else if word == b"give".as_slice() {
        Some(Phase::Give)
    } else if word == b"send".as_slice() {
        Some(Phase::Send)
    } else if word == b"done".as_slice() {
        Some(Phase::Done)
    } else {
        None
    }
}

/// What selects the step of a planned fault, and what stands after the space after it.
#[derive(Clone, Copy)]
struct Selected<'a> {
    select: Select,
    rest: Option<&'a [u8]>,
}

/// The step is selected so, and this stands after it.
fn selecting(select: Select, rest: Option<&[u8]>) -> Option<Selected<'_>>
    ensures { option_map (λ s. selected s.select (option_map (λ x. x.now) s.rest)) result ≡ Some (selected select (option_map (λ x. x.now) rest.entry)) }
{
    Some(Selected { select, rest })
}

fn select_words<'a>(word: &[u8], rest: Option<&'a [u8]>) -> Option<Selected<'a>>
    ensures { option_map (λ s. selected s.select (option_map (λ x. x.now) s.rest)) result ≡ select_words word.now (option_map (λ x. x.now) rest.entry) }
{
    if word == b"at".as_slice() {
        let index = first_exact(rest)?;
        selecting(Select::Index(index.number), index.rest)
    } else if word == b"load".as_slice() {
        let address = first_exact(rest)?;
        selecting(Select::Load(address.number), address.rest)
    } else if word == b"store".as_slice() {
        let address = first_exact(rest)?;
        selecting(Select::Store(address.number), address.rest)
    } else if word == b"now".as_slice() {
        selecting(Select::Now, rest)
    } else if word == b"alloc".as_slice() {
        selecting(Select::Alloc, rest)
    } else if word == b"parse".as_slice() {
        selecting(Select::Parse, rest)
    } else if word == b"render".as_slice() {
        selecting(Select::Render, rest)
    } else if word == b"halt".as_slice() {
        selecting(Select::Halt, rest)
    } else {
        None
    }
}

fn select_of(text: Option<&[u8]>) -> Option<Selected<'_>>
    ensures { option_map (λ s. selected s.select (option_map (λ x. x.now) s.rest)) result ≡ select_of (option_map (λ x. x.now) text.entry) }
{
    let text = text?;
    select_words(word_of(text), behind_word(text))
}

/// The mask that a whole text spells; it is 1 at least.
fn mask_of(text: Option<&[u8]>) -> Option<u64>
    ensures { result ≡ mask_of (option_map (λ x. x.now) text.entry) }
{
    let mask = last_exact(text)?;
    if mask >= 1 { Some(mask) } else { None }
}

fn read_of(nth: Option<Numbered<'_>>) -> Option<Kind>
    ensures { result ≡ read_of (option_map (λ n. part n.number (option_map (λ x. x.now) n.rest)) nth.entry) }
{
    let nth = nth?;
    Some(Kind::Read {
        nth: nth.number,
        mask: mask_of(nth.rest)?,
    })
}

/// A kind after whose word nothing may stand.
fn alone(rest: Option<&[u8]>, kind: Kind) -> Option<Kind>
    ensures { result ≡ alone (option_map (λ x. x.now) rest.entry) kind }
{
    match rest {
        None => Some(kind),
        Some(_) => None,
    }
}

fn jump_of(text: Option<&[u8]>) -> Option<Kind>
    ensures { result ≡ jump_of (option_map (λ x. x.now) text.entry) }
{
    let text = text?;
    let phase = phase_of(word_of(text))?;
    let index = last_exact(behind_word(text))?;
    Some(Kind::Jump {
        to: Place { phase, index },
    })
}

fn kind_words(word: &[u8], rest: Option<&[u8]>) -> Option<Kind>
    ensures { result ≡ kind_words word.now (option_map (λ x. x.now) rest.entry) }
{
    if word == b"read".as_slice() {
        read_of(first_exact(rest))
    } else if word == b"write".as_slice() {
        Some(Kind::Write {
            mask: mask_of(rest)?,
        })
    } else if word == b"skip".as_slice() {
        alone(rest, Kind::Skip)
    } else if word == b"repeat".as_slice() {
        alone(rest, Kind::Repeat)
    } else if word == b"flip".as_slice() {
        alone(rest, Kind::Flip)
    } else if word == b"jump".as_slice() {
        jump_of(rest)
    } else {
        None
    }
}

fn kind_of(text: Option<&[u8]>) -> Option<Kind>
    ensures { result ≡ kind_of (option_map (λ x. x.now) text.entry) }
{
    let text = text?;
    kind_words(word_of(text), behind_word(text))
}

/// The planned fault that a text spells: its phase, what selects its step, and its kind.
pub fn plan_of(text: Option<&[u8]>) -> Option<Planned>
    ensures { result ≡ plan_of (option_map (λ x. x.now) text.entry) }
{
    let text = text?;
    let phase = phase_of(word_of(text))?;
    let step = select_of(behind_word(text))?;
    let kind = kind_of(step.rest)?;
    Some(Planned {
        phase,
        select: step.select,
        kind,
    })
}
