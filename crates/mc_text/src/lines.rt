//! One function for each form of line, which tests the refusals in their order.

ghost use Rattle.std.specs.Prelude.{◌≡◌, ◌<◌, ◌≤◌, ◌^◌, length, []};
ghost use Rattle.mc_model.specs.Views.{call_with};
ghost use Rattle.mc_text.specs.Words.{words};
ghost use Rattle.mc_model.specs.Texts.{text_count};
ghost use Rattle.mc_text.specs.Meaning.{One};
ghost use Rattle.mc_text.specs.Lines.{Ends, fixed, refused, block_for, some_words, item_call, has_zero_words, is_zero_or_noreply, asks_noreply, storage, check_and_set, retrieval, get_and_touch, touch, deletion, flush, version, verbosity, quit, words_say};
ghost use Rattle.mc_text.specs.Fits.{HasKey};
ghost use Rattle.mc_text.specs.Walk.{next_of, IsScan};
ghost use Rattle.mc_text.specs.Parsed.{line_meaning_of, IsParsedOf};

use crate::commands::{Form, command_of, is};
use crate::fields::{
    Item, LARGEST_FIELD, exptime_of, has_words, is_key, is_noreply, item_of, keys_at, word_bytes,
};
use crate::limits::LONGEST_BLOCK;
use crate::parsed::{Kind, ParsedLine, Template, blank};
use crate::scan::Scan;
use crate::words::count;
use mc_model::texts::{BAD_LINE_FORMAT, ERROR, OBJECT_TOO_LARGE, OKAY, VERSION};
use mc_model::{CallSpan, Verb, number_upto};

/// A request that is answered by a text.
fn fixed(line: &[u8], text: u8, noreply: bool, closing: bool) -> ParsedLine
    requires { text < text_count }
    ensures meaning { line_meaning_of (words line.now) result ≡ Ends (One (fixed text noreply) closing) }
    ensures parsed { IsParsedOf (words line.now) result }
{
    let call = CallSpan {
        text,
        noreply,
        ..blank(Verb::Fixed)
    };
    ParsedLine::Ends(Template {
        kind: Kind::One { closing },
        call,
        first: 0,
        count: 0,
    })
}

fn refused(line: &[u8], text: u8) -> ParsedLine
    requires { text < text_count }
    ensures meaning { line_meaning_of (words line.now) result ≡ refused text }
    ensures parsed { IsParsedOf (words line.now) result }
{
    fixed(line, text, false, false)
}

/// A request at the word after the command, with a block of `bytes` bytes.
fn block_for(line: &[u8], call: CallSpan, bytes: u64) -> ParsedLine
    requires few { bytes < 2 ^ 32 }
    requires key { 2 ≤ length (words line.now) }
    requires verb { HasKey call.verb }
    requires text { call.text < text_count }
    ensures meaning { line_meaning_of (words line.now) result ≡ block_for (call_with [] [] call) (some_words (words line.now) 1 1) bytes }
    ensures parsed { IsParsedOf (words line.now) result }
{
    if bytes > LONGEST_BLOCK {
        return fixed(line, OBJECT_TOO_LARGE, false, true);
    }
    let template = Template {
        kind: Kind::Each,
        call,
        first: 1,
        count: 1,
    };
    ParsedLine::Wants(template, bytes as usize)
}

/// A call that offers an item.
fn item_call(verb: Verb, item: &Item, noreply: bool) -> CallSpan
    ensures call { call_with [] [] result ≡ item_call verb item.now noreply }
    ensures verb { result.verb ≡ verb }
    ensures text { result.text < text_count }
{
    CallSpan {
        flags: item.flags,
        negative: item.negative,
        exptime: item.exptime,
        noreply,
        ..blank(verb)
    }
}

#[tactic(auto, unfolding(crate::specs::Lines::storage))]
fn storage(line: &[u8], mut scan: Scan, verb: Verb) -> ParsedLine
    requires place { IsScan line.now scan }
    requires next { next_of scan ≡ 1 }
    requires verb { HasKey verb }
    ensures meaning { line_meaning_of (words line.now) result ≡ storage verb (words line.now) }
    ensures parsed { IsParsedOf (words line.now) result }
{
    let key = scan.next(line);
    let flags = scan.next(line);
    let exptime = scan.next(line);
    let bytes = scan.next(line);
    let Some(noreply) = scan.ending(line, bytes) else {
        return refused(line, ERROR);
    };
    let Some(item) = item_of(key, flags, exptime, bytes) else {
        return refused(line, BAD_LINE_FORMAT);
    };
    block_for(line, item_call(verb, &item, noreply), item.bytes)
}

#[tactic(auto, unfolding(crate::specs::Lines::check_and_set))]
fn check_and_set(line: &[u8], mut scan: Scan, verb: Verb) -> ParsedLine
    requires place { IsScan line.now scan }
    requires next { next_of scan ≡ 1 }
    requires verb { HasKey verb }
    ensures meaning { line_meaning_of (words line.now) result ≡ check_and_set verb (words line.now) }
    ensures parsed { IsParsedOf (words line.now) result }
{
    let key = scan.next(line);
    let flags = scan.next(line);
    let exptime = scan.next(line);
    let bytes = scan.next(line);
    let unique = scan.next(line);
    let Some(noreply) = scan.ending(line, unique) else {
        return refused(line, ERROR);
    };
    let Some(item) = item_of(key, flags, exptime, bytes) else {
        return refused(line, BAD_LINE_FORMAT);
    };
    let Some(unique) = number_upto(u64::MAX, unique) else {
        return refused(line, BAD_LINE_FORMAT);
    };
    let call = CallSpan {
        unique,
        ..item_call(verb, &item, noreply)
    };
    block_for(line, call, item.bytes)
}

#[tactic(auto, unfolding(crate::specs::Lines::retrieval))]
fn retrieval(line: &[u8], scan: Scan, verb: Verb) -> ParsedLine
    requires place { IsScan line.now scan }
    requires next { next_of scan ≡ 1 }
    requires verb { HasKey verb }
    ensures meaning { line_meaning_of (words line.now) result ≡ retrieval verb (words line.now) }
    ensures parsed { IsParsedOf (words line.now) result }
{
    match keys_at(line, scan.place(line)) {
        None => refused(line, BAD_LINE_FORMAT),
        Some(0) => refused(line, ERROR),
        Some(count) => ParsedLine::Ends(Template {
            kind: Kind::Each,
            call: blank(verb),
            first: 1,
            count,
        }),
    }
}

#[tactic(auto, unfolding(crate::specs::Lines::get_and_touch))]
fn get_and_touch(line: &[u8], mut scan: Scan, verb: Verb) -> ParsedLine
    requires place { IsScan line.now scan }
    requires next { next_of scan ≡ 1 }
    requires verb { HasKey verb }
    ensures meaning { line_meaning_of (words line.now) result ≡ get_and_touch verb (words line.now) }
    ensures parsed { IsParsedOf (words line.now) result }
{
    let exptime = scan.next(line);
    match keys_at(line, scan.place(line)) {
        None => refused(line, BAD_LINE_FORMAT),
        Some(0) => refused(line, ERROR),
        Some(count) => {
            let Some((negative, exptime)) = exptime_of(exptime) else {
                return refused(line, BAD_LINE_FORMAT);
            };
            let call = CallSpan {
                negative,
                exptime,
                ..blank(verb)
            };
            ParsedLine::Ends(Template {
                kind: Kind::Each,
                call,
                first: 2,
                count,
            })
        }
    }
}

#[tactic(auto, unfolding(crate::specs::Lines::touch))]
fn touch(line: &[u8], mut scan: Scan, verb: Verb) -> ParsedLine
    requires place { IsScan line.now scan }
    requires next { next_of scan ≡ 1 }
    requires verb { HasKey verb }
    ensures meaning { line_meaning_of (words line.now) result ≡ touch verb (words line.now) }
    ensures parsed { IsParsedOf (words line.now) result }
{
    let key = scan.next(line);
    let exptime = scan.next(line);
    let Some(noreply) = scan.ending(line, exptime) else {
        return refused(line, ERROR);
    };
    if !is_key(key) {
        return refused(line, BAD_LINE_FORMAT);
    }
    let Some((negative, exptime)) = exptime_of(exptime) else {
        return refused(line, BAD_LINE_FORMAT);
    };
    let call = CallSpan {
        negative,
        exptime,
        noreply,
        ..blank(verb)
    };
    ParsedLine::Ends(Template {
        kind: Kind::Each,
        call,
        first: 1,
        count: 1,
    })
}

/// Whether a line has `n` words and up to two more, the second of which is `noreply`.
fn has_zero_words(line: &[u8], n: usize) -> bool
    requires { n < 16 }
    ensures { result ≡ has_zero_words (words line.now) n }
{
    let all = count(line);
    all == n || all == n + 1 || (all == n + 2 && is_noreply(word_bytes(line, n + 1)))
}

/// Whether a line has no word after `n`, or `0` first, or `noreply` alone.
fn is_zero_or_noreply(line: &[u8], n: usize) -> bool
    requires { n < 16 }
    ensures { result ≡ is_zero_or_noreply (words line.now) n }
{
    let all = count(line);
    let word = word_bytes(line, n);
    all == n || is(word, b"0") || (all == n + 1 && is_noreply(word))
}

/// Whether one of the two words after `n` is `noreply`.
fn asks_noreply(line: &[u8], n: usize) -> bool
    requires { n < 16 }
    ensures { result ≡ asks_noreply (words line.now) n }
{
    is_noreply(word_bytes(line, n)) || is_noreply(word_bytes(line, n + 1))
}

#[tactic(auto, unfolding(crate::specs::Lines::deletion))]
fn deletion(line: &[u8], verb: Verb) -> ParsedLine
    requires { HasKey verb }
    ensures meaning { line_meaning_of (words line.now) result ≡ deletion verb (words line.now) }
    ensures parsed { IsParsedOf (words line.now) result }
{
    if !has_zero_words(line, 2) {
        return refused(line, ERROR);
    }
    if !is_zero_or_noreply(line, 2) {
        return refused(line, BAD_LINE_FORMAT);
    }
    if !is_key(word_bytes(line, 1)) {
        return refused(line, BAD_LINE_FORMAT);
    }
    let call = CallSpan {
        noreply: asks_noreply(line, 2),
        ..blank(verb)
    };
    ParsedLine::Ends(Template {
        kind: Kind::Each,
        call,
        first: 1,
        count: 1,
    })
}

#[tactic(auto, unfolding(crate::specs::Lines::flush))]
fn flush(line: &[u8]) -> ParsedLine
    ensures meaning { line_meaning_of (words line.now) result ≡ flush (words line.now) }
    ensures parsed { IsParsedOf (words line.now) result }
{
    if !has_zero_words(line, 1) {
        return refused(line, ERROR);
    }
    if !is_zero_or_noreply(line, 1) {
        return refused(line, BAD_LINE_FORMAT);
    }
    let call = CallSpan {
        noreply: asks_noreply(line, 1),
        ..blank(Verb::Flush)
    };
    ParsedLine::Ends(Template {
        kind: Kind::Everywhere,
        call,
        first: 0,
        count: 0,
    })
}

#[tactic(auto, unfolding(crate::specs::Lines::version))]
fn version(line: &[u8]) -> ParsedLine
    ensures meaning { line_meaning_of (words line.now) result ≡ version (words line.now) }
    ensures parsed { IsParsedOf (words line.now) result }
{
    if count(line) == 1 {
        fixed(line, VERSION, false, false)
    } else {
        refused(line, ERROR)
    }
}

#[tactic(auto, unfolding(crate::specs::Lines::verbosity))]
fn verbosity(line: &[u8]) -> ParsedLine
    ensures meaning { line_meaning_of (words line.now) result ≡ verbosity (words line.now) }
    ensures parsed { IsParsedOf (words line.now) result }
{
    if !has_words(line, 2) {
        return refused(line, ERROR);
    }
    let Some(_) = number_upto(LARGEST_FIELD, word_bytes(line, 1)) else {
        return refused(line, BAD_LINE_FORMAT);
    };
    fixed(line, OKAY, 2 < count(line), false)
}

#[tactic(auto, unfolding(crate::specs::Lines::quit))]
fn quit(line: &[u8]) -> ParsedLine
    ensures meaning { line_meaning_of (words line.now) result ≡ quit (words line.now) }
    ensures parsed { IsParsedOf (words line.now) result }
{
    if count(line) != 1 {
        return refused(line, ERROR);
    }
    ParsedLine::Ends(Template {
        kind: Kind::Quit,
        call: blank(Verb::Fixed),
        first: 0,
        count: 0,
    })
}

/// What a line asks for. The line end, a CR too, is not part of `line`.
#[tactic(auto, unfolding(crate::specs::Lines::words_say))]
pub fn parse_line(line: &[u8]) -> ParsedLine
    ensures meaning { line_meaning_of (words line.now) result ≡ words_say (words line.now) }
    ensures parsed { IsParsedOf (words line.now) result }
{
    let mut scan = Scan::start();
    let Some(command) = command_of(scan.next(line)) else {
        return refused(line, ERROR);
    };
    match command.form {
        Form::Storage => storage(line, scan, command.verb),
        Form::CheckAndSet => check_and_set(line, scan, command.verb),
        Form::Retrieval => retrieval(line, scan, command.verb),
        Form::GetAndTouch => get_and_touch(line, scan, command.verb),
        Form::Touch => touch(line, scan, command.verb),
        Form::Deletion => deletion(line, command.verb),
        Form::Flush => flush(line),
        Form::Version => version(line),
        Form::Verbosity => verbosity(line),
        Form::Quit => quit(line),
    }
}
