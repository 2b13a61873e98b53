//! The request at the front of some bytes.

ghost use Rattle.std.specs.Prelude.{◌≡◌, ℕ, ◌<◌, ◌≤◌, List, length, take, IfSome, IfNone};
ghost use Rattle.std.specs.Option.{option_map};
ghost use Rattle.mc_text.specs.Bounds.{longest_line};
ghost use Rattle.mc_model.specs.Texts.{text_count};
ghost use Rattle.mc_text.specs.Words.{words};
ghost use Rattle.mc_text.specs.Meaning.{Meaning, One};
ghost use Rattle.mc_text.specs.Lines.{fixed};
ghost use Rattle.mc_text.specs.Spells.{Spells, lf, line_says, block_refusal};
ghost use Rattle.mc_text.specs.Front.{front, front_says};
ghost use Rattle.mc_text.specs.Reads.{Reads, IsMore};
ghost use Rattle.mc_text.specs.Parsed.{line_meaning_of, IsTemplateOf};
ghost use Rattle.mc_text.specs.Reading.{meaning_at, front_of, buckets_of, IsOf, IsReading, StandsInside, BeginsAs};
ghost use Rattle.mc_text.specs.declared.parsed.Kind.TheVariants as kinds;
ghost use Rattle.mc_text.specs.declared.parsed.ParsedLine.TheVariants as lines;

use crate::limits::{LONGEST_LINE, Limits};
use crate::lines::parse_line;
use crate::parsed::{Kind, ParsedLine, Template, blank, no_span};
use crate::request::Request;
use crate::words::line_end;
use mc_model::texts::{BAD_DATA_CHUNK, LINE_TOO_LONG, OBJECT_TOO_LARGE};
use mc_model::{CallSpan, Span, Verb};
use memchr::memchr;

/// What the front of some bytes is.
#[derive(Clone, Copy, Debug, PartialEq, Eq)]
pub enum ReadRequest {
    /// A whole request of `length` bytes.
    Whole { length: usize },
    /// Less than a whole request: more bytes are needed.
    More,
}

/// The place of the first LF.
fn line_feed(bytes: &[u8]) -> Option<usize>
    ensures place { result ≡ lf bytes.now }
    ensures within { IfSome result (λ k. k < length bytes.now) }
{
    memchr(b'\n', bytes)
}

/// A request that is answered by a text.
fn fixed(limits: &Limits, length: usize, text: u8, noreply: bool, closing: bool) -> Request
    requires text { text < text_count }
    requires buckets { 0 < limits.now.buckets }
    ensures length { result.length ≡ length }
    ensures meaning { (bytes : List ℕ) → meaning_at bytes result ≡ One (fixed text noreply) closing }
    ensures places { (bytes : List ℕ) → IsOf bytes result }
    ensures inside { StandsInside result }
    ensures buckets { buckets_of result ≡ limits.now.buckets }
{
    let call = CallSpan {
        text,
        noreply,
        ..blank(Verb::Fixed)
    };
    let template = Template {
        kind: Kind::One { closing },
        call,
        first: 0,
        count: 0,
    };
    Request {
        length,
        line: 0,
        block: no_span(),
        template,
        buckets: limits.buckets,
    }
}

/// The text that refuses a block, if it is refused.
fn block_refusal(limits: &Limits, block: &[u8], ending: &[u8]) -> Option<u8>
    ensures refusal { result ≡ block_refusal limits.now block.now ending.now }
    ensures text { IfSome result (λ n. n < text_count) }
{
    if ending == b"\r\n".as_slice() {
        if block.len() as u64 <= limits.value_bytes {
            None
        } else {
            Some(OBJECT_TOO_LARGE)
        }
    } else {
        Some(BAD_DATA_CHUNK)
    }
}

/// A request whose line, with its LF at `k`, has a block of `n` bytes.
#[tactic(auto, unfolding(crate::specs::Spells::finished))]
fn with_block(
    bytes: &[u8],
    limits: &Limits,
    k: usize,
    line: usize,
    template: Template,
    n: usize,
) -> Option<Request>
    requires buckets { 0 < limits.now.buckets }
    requires place { k < length bytes.now }
    requires line { line ≤ k }
    requires template { IsTemplateOf (words (take line bytes.now)) template }
    requires kind { template.kind ≡ kinds.Each }
    ensures request { option_map (front_of bytes.now) result ≡ front_says limits.now bytes.now k (line_meaning_of (words (take line bytes.now)) (lines.Wants template n)) }
    ensures places { IfSome result (λ r. IsOf bytes.now r) }
    ensures inside { IfSome result StandsInside }
    ensures buckets { IfSome result (λ r. buckets_of r ≡ limits.now.buckets) }
{
    let rest = bytes.len() - k - 1;
    if rest < 2 || rest - 2 < n {
        return None;
    }
    let from = k + 1;
    let to = k + 1 + n;
    let length = k + 1 + n + 2;
    match block_refusal(limits, &bytes[from..to], &bytes[to..length]) {
        None => Some(Request {
            length,
            line,
            block: Span { from, to },
            template,
            buckets: limits.buckets,
        }),
        Some(text) => Some(fixed(limits, length, text, template.call.noreply, false)),
    }
}

/// The request at the front, whose line has its LF at `k`.
#[tactic(auto, unfolding(crate::specs::Spells::line_says))]
fn at_line(bytes: &[u8], limits: &Limits, k: usize) -> Option<Request>
    requires buckets { 0 < limits.now.buckets }
    requires place { k < length bytes.now }
    ensures request { option_map (front_of bytes.now) result ≡ front_says limits.now bytes.now k (line_says (take k bytes.now)) }
    ensures places { IfSome result (λ r. IsOf bytes.now r) }
    ensures inside { IfSome result StandsInside }
    ensures buckets { IfSome result (λ r. buckets_of r ≡ limits.now.buckets) }
{
    let line = line_end(&bytes[..k]);
    match parse_line(&bytes[..line]) {
        ParsedLine::Ends(template) => Some(Request {
            length: k + 1,
            line,
            block: no_span(),
            template,
            buckets: limits.buckets,
        }),
        ParsedLine::Wants(template, n) => with_block(bytes, limits, k, line, template, n),
    }
}

/// As many bytes as a line may have.
fn head(bytes: &[u8]) -> &[u8]
    ensures head { result.now ≡ take longest_line bytes.now }
    ensures length { length result.now ≤ length bytes.now }
{
    if bytes.len() < LONGEST_LINE {
        bytes
    } else {
        &bytes[..LONGEST_LINE]
    }
}

/// The request at the front.
#[tactic(auto, unfolding(crate::specs::Front::front))]
fn first(bytes: &[u8], limits: &Limits) -> Option<Request>
    requires { 0 < limits.now.buckets }
    ensures request { option_map (front_of bytes.now) result ≡ front limits.now bytes.now }
    ensures places { IfSome result (λ r. IsOf bytes.now r) }
    ensures inside { IfSome result StandsInside }
    ensures buckets { IfSome result (λ r. buckets_of r ≡ limits.now.buckets) }
{
    match line_feed(head(bytes)) {
        None => {
            if bytes.len() < LONGEST_LINE {
                None
            } else {
                Some(fixed(limits, LONGEST_LINE, LINE_TOO_LONG, false, true))
            }
        }
        Some(k) => at_line(bytes, limits, k),
    }
}

/// The request that begins the bytes, if a whole one does. Its places are within its own bytes, and
/// bytes after it make no difference.
pub fn read_front(bytes: &[u8], limits: &Limits) -> Option<Request>
    requires { 0 < limits.now.buckets }
    ensures some { IfSome result (λ r. BeginsAs limits.now bytes.now r) }
    ensures none { IfNone result (IsMore limits.now bytes.now) }
{
    match first(bytes, limits) {
        None => None,
        Some(request) => Some(request),
    }
}

/// How long the request is that begins the bytes. Bytes after it make no difference.
pub fn read_request(bytes: &[u8], limits: &Limits) -> ReadRequest
    requires { 0 < limits.now.buckets }
    ensures { Reads limits.now bytes.now result }
{
    match first(bytes, limits) {
        None => ReadRequest::More,
        Some(request) => ReadRequest::Whole {
            length: request.length,
        },
    }
}

/// The request that all the bytes together spell, for a server of these limits.
pub fn parse(bytes: &[u8], limits: &Limits) -> Option<Request>
    requires { 0 < limits.now.buckets }
    ensures some { IfSome result (λ r. IsReading limits.now bytes.now r) }
    ensures none { IfNone result ((m : Meaning) → Spells limits.now bytes.now m → ⊥) }
{
    let request = first(bytes, limits)?;
    if request.length == bytes.len() {
        Some(request)
    } else {
        None
    }
}
