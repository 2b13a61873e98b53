//! An iterator over the words of a line.

ghost use Rattle.std.specs.Prelude.{◌≡◌, ℕ, ◌+◌, ◌<◌, ◌≤◌, List, length, drop, nat_lt, true, false, IfSome, IfNone};
ghost use Rattle.mc_text.specs.Words.{words, arg};
ghost use Rattle.mc_text.specs.Fields.{has_words};
ghost use Rattle.mc_text.specs.Walk.{next_of, IsScan, IsLast};

use crate::fields::is_noreply;
use crate::words::next_word;

/// An iterator over the words of a line.
#[derive(Clone, Copy)]
pub struct Scan {
    /// Where in the line the search for the next word begins.
    at: usize,
    /// The number of the next word.
    nth: usize,
}

impl Scan {
    /// An iterator before the first word.
    pub fn start() -> Scan
        ensures place { (line : List ℕ) → IsScan line result }
        ensures first { next_of result ≡ 0 }
    {
        Scan { at: 0, nth: 0 }
    }

    /// The next word, of no bytes if there is none.
    #[tactic(auto, using(crate::proofs::WordLaws::word_steps))]
    pub fn next<'a>(&mut self, line: &'a [u8]) -> &'a [u8]
        requires place { IsScan line.now self.old }
        requires few { next_of self.old < 15 }
        ensures word { result.now ≡ arg (words line.now) (next_of self.old) }
        ensures last { IsLast (words line.now) (next_of self.new) result.now }
        ensures place { IsScan line.now self.new }
        ensures next { next_of self.new ≡ next_of self.old + 1 }
    {
        self.nth += 1;
        match next_word(line, self.at) {
            Some(word) => {
                self.at = word.to;
                &line[word.from..word.to]
            }
            None => &line[..0],
        }
    }

    /// Where the words that are left begin.
    pub fn place(&self, line: &[u8]) -> usize
        requires { IsScan line.now self.now }
        ensures words { words (drop result line.now) ≡ drop (next_of self.now) (words line.now) }
        ensures within { result ≤ length line.now }
    {
        self.at
    }

    /// Whether `noreply` is the one word left, or false if no word is left. None if other words are
    /// left, or if a word was missing. `last` is the last word that was read.
    pub fn ending(mut self, line: &[u8], last: &[u8]) -> Option<bool>
        requires place { IsScan line.now self }
        requires few { next_of self < 13 }
        requires last { IsLast (words line.now) (next_of self) last.now }
        ensures some { IfSome result (λ noreply. has_words (words line.now) (next_of self) ≡ true) }
        ensures noreply { IfSome result (λ noreply. noreply ≡ nat_lt (next_of self) (length (words line.now))) }
        ensures none { IfNone result (has_words (words line.now) (next_of self) ≡ false) }
    {
        if last.is_empty() {
            return None;
        }
        let more = self.next(line);
        if more.is_empty() {
            return Some(false);
        }
        if is_noreply(more) && self.next(line).is_empty() {
            Some(true)
        } else {
            None
        }
    }
}
