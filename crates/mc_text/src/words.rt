//! The words of a line: runs of bytes other than spaces.

ghost use Rattle.std.specs.Prelude.{◌≡◌, ◌≢◌, ◌<◌, ◌≤◌, ◌∷◌, [], length, drop, slice_index, slice_range, IfSome, IfNone};
ghost use Rattle.mc_text.specs.Words.{words, arg, line_end, IsNextWord};

use mc_model::Span;

/// Where the spaces that begin at `from` end.
#[tactic(auto, using(crate::proofs::WordLaws::word_steps))]
fn skip_spaces(line: &[u8], from: usize) -> usize
    requires { from ≤ length line.now }
    ensures words { words (drop result line.now) ≡ words (drop from line.now) }
    ensures from { from ≤ result }
    ensures within { result ≤ length line.now }
    ensures stops { result < length line.now → slice_index line.now result ≢ 32 }
{
    let mut at = from;
    while at < line.len() {
        if line[at] != b' ' {
            return at;
        }
        at += 1;
    }
    at
}

/// Where the word that begins at `from` ends. Words are short, so this looks at one byte after the other.
#[tactic(auto, using(crate::proofs::WordLaws::word_bytes))]
fn word_end(line: &[u8], from: usize) -> usize
    requires within { from < length line.now }
    requires begins { slice_index line.now from ≢ 32 }
    ensures word { words (drop from line.now) ≡ slice_range line.now from result ∷ words (drop result line.now) }
    ensures some { from < result }
    ensures within { result ≤ length line.now }
{
    let mut at = from + 1;
    while at < line.len() {
        if line[at] == b' ' {
            return at;
        }
        at += 1;
    }
    at
}

/// The first word at `at` or after it.
#[tactic(auto, using(crate::proofs::WordLaws::word_steps))]
pub fn next_word(line: &[u8], at: usize) -> Option<Span>
    requires { at ≤ length line.now }
    ensures some { IfSome result (λ s. IsNextWord line.now at s) }
    ensures none { IfNone result (words (drop at line.now) ≡ []) }
{
    let from = skip_spaces(line, at);
    if from == line.len() {
        return None;
    }
    let to = word_end(line, from);
    Some(Span { from, to })
}

/// Where the nth word ends, or the last one, if there are fewer.
#[tactic(auto, using(crate::proofs::WordLaws::word_steps))]
pub fn behind_words(line: &[u8], n: usize) -> usize
    ensures words { words (drop result line.now) ≡ drop n (words line.now) }
    ensures within { result ≤ length line.now }
{
    let mut at = 0;
    let mut seen = 0;
    while seen < n {
        let Some(word) = next_word(line, at) else {
            return at;
        };
        at = word.to;
        seen += 1;
    }
    at
}

/// The places of the nth word, from 0, or of no bytes if there is none.
#[tactic(auto, using(crate::proofs::WordLaws::word_steps))]
pub fn word(line: &[u8], nth: usize) -> Span
    ensures word { slice_range line.now result.from result.to ≡ arg (words line.now) nth }
    ensures order { result.from ≤ result.to }
    ensures within { result.to ≤ length line.now }
{
    match next_word(line, behind_words(line, nth)) {
        Some(word) => word,
        None => Span { from: 0, to: 0 },
    }
}

/// How many words there are.
#[tactic(auto, using(crate::proofs::WordLaws::word_steps))]
pub fn count(line: &[u8]) -> usize
    ensures { result ≡ length (words line.now) }
{
    let mut at = 0;
    let mut seen = 0;
    while let Some(word) = next_word(line, at) {
        at = word.to;
        seen += 1;
    }
    seen
}

/// Where a line ends without a CR at its end.
pub fn line_end(line: &[u8]) -> usize
    ensures end { result ≡ line_end line.now }
    ensures within { result ≤ length line.now }
{
    if !line.is_empty() && line[line.len() - 1] == b'\r' {
        line.len() - 1
    } else {
        line.len()
    }
}
