//! The words of one bucket.
ghost use Rattle.std.specs.Prelude.{◌≡◌, ◌<◌, ◌≤◌, ◌^◌, All, IfOk, IfSome, IfNone, length, slice_get, slice_set, nat_lt};
ghost use Rattle.std.specs.Bool.{OnTrue, OnFalse};
ghost use Rattle.mc_model.specs.Bucket.{empty_bucket};
ghost use Rattle.mc_model.specs.Server.{IsValid};
ghost use Rattle.sei_words.specs.Layout.{word_count, field, value_offset};
ghost use Rattle.sei_words.specs.Words.{fresh_words, with_word, IsLaidOut};
ghost use Rattle.sei_words.specs.Free.{is_free, IsFirstFree, IsFull};
ghost use Rattle.sei_words.specs.Stands.{StandsFor};

use crate::layout::{EXPIRY, USED, slot_at};
use mc_model::Geometry;
use sei_code::Memory;
use std::alloc::Global;
use std::marker::Model;

/// The word at this offset in the slot.
fn field(g: &Geometry, words: &[u64], slot: u64, offset: u64) -> u64
    requires valid { IsValid g.now }
    requires long { length words.now ≡ word_count g.now }
    requires slot { slot < g.now.slots }
    requires offset { offset < value_offset }
    ensures { result ≡ field g.now words.now slot offset }
{
    let begin = slot_at(g, slot);
    words[(begin + offset) as usize]
}

/// The words of one bucket: its moment, its counter, and its slots. Their number never changes.
#[derive(Drop)]
pub struct Words {
    words: Vec<u64>,
    bucket: u64,
    geometry: Geometry,
}

impl Model for Words {
    ghost use Rattle.sei_words.specs.Words.{BucketWords, IsLaidOut};

    ghost Value = { BucketWords };

    ghost view = { λ w. record { words = w.words.items; bucket = w.bucket; geometry = w.geometry } };

    ghost invariant = { λ w. IsLaidOut (record { words = w.words.items; bucket = w.bucket; geometry = w.geometry }) };
}

impl Words {
    /// The words of an empty bucket: all are 0.
    #[tactic(auto, using(crate::proofs::FreshLaws::fresh_stands))]
    pub fn new(alloc: Global, g: &Geometry, bucket: u64) -> Result<Words, Memory>
        requires valid { IsValid g.now }
        requires bucket { bucket < g.now.buckets }
        ensures fresh { IfOk result (λ words. words ≡ fresh_words g.now bucket) }
        ensures empty { IfOk result (λ words. StandsFor words.geometry words.words empty_bucket) }
    {
        let len = slot_at(g, g.slots);
        Ok(Words {
            words: vec![in alloc; 0u64; len as usize]?,
            bucket,
            geometry: *g,
        })
    }

    /// The number of the bucket, from 0.
    pub fn bucket(&self) -> u64
        ensures { result ≡ self.now.bucket }
    {
        self.bucket
    }

    /// How many words there are.
    pub fn len(&self) -> u64
        ensures value { result ≡ length self.now.words }
        ensures laid_out { IsLaidOut self.now }
        ensures small { All (λ w. w < 2 ^ 64) self.now.words }
    {
        let words = self.words.as_slice();
        words.len() as u64
    }

    /// The word at this address, if there is one.
    pub fn get(&self, a: u64) -> Option<u64>
        ensures { result ≡ slice_get self.now.words a }
    {
        if a < self.len() {
            Some(self.words[a as usize])
        } else {
            None
        }
    }

    /// Writes the word at this address. False if there is no such address; then nothing has
    /// changed.
    pub fn set(&mut self, a: u64, w: u64) -> bool
        ensures there { result ≡ nat_lt a (length self.old.words) }
        ensures done { OnTrue result (self.new ≡ with_word self.old a w) }
        ensures not_there { OnFalse result (self.new ≡ self.old) }
    {
        if a < self.len() {
            self.words[a as usize] = w;
            true
        } else {
            false
        }
    }

    /// Whether the slot can be taken at this moment: it is not used, or its item has expired.
    pub fn is_free(&self, slot: u64, moment: u64) -> bool
        requires { slot < self.now.geometry.slots }
        ensures { result ≡ is_free self.now.geometry self.now.words moment slot }
    {
        let words = self.words.as_slice();
        let expiry = field(&self.geometry, words, slot, EXPIRY);
        field(&self.geometry, words, slot, USED) == 0 || (expiry != 0 && expiry <= moment)
    }

    /// The lowest slot that is free at this moment, or none exactly if no slot is free.
    pub fn first_free(&self, moment: u64) -> Option<u64>
        ensures lowest { IfSome result (λ slot. IsFirstFree self.now.geometry self.now.words moment slot) }
        ensures none { IfNone result (IsFull self.now.geometry self.now.words moment) }
    {
        for slot in 0..self.geometry.slots {
            if self.is_free(slot, moment) {
                return Some(slot);
            }
        }
        None
    }
}
