//! A request, and its calls.

ghost use Rattle.std.specs.Prelude.{◌≡◌, ℕ, ◌+◌, ◌<◌, ◌≤◌, List, [], ◌∷◌, length, take, slice_range, slice_get, Some, IfSome};
ghost use Rattle.std.specs.Option.{option_map};
ghost use Rattle.mc_model.specs.declared.call.Verb.TheVariants.{Flush, Fixed};
ghost use Rattle.mc_model.specs.Call.{IsPlaced};
ghost use Rattle.mc_model.specs.Views.{IsSpanOf, placed_of};
ghost use Rattle.mc_text.specs.Words.{words, arg};
ghost use Rattle.mc_text.specs.Meaning.{ends_connection, is_closing};
ghost use Rattle.mc_text.specs.Fits.{HasKey, HasOwnHash};
ghost use Rattle.mc_text.specs.Reading.{meaning_at, length_of, buckets_of, calls_at, key_calls_at, bucket_calls_at, shared_call, IsOf};

use crate::parsed::{Kind, Template, no_span};
use crate::words::word;
use mc_model::{CallSpan, Span};
use sei_code::fnv64;

/// A request that was read from the front of some bytes. It holds places in these bytes, which its
/// calls need again.
#[derive(Clone, Copy)]
pub struct Request {
    /// The bytes of the whole request.
    pub(crate) length: usize,
    /// Where its line ends, without its line end.
    pub(crate) line: usize,
    pub(crate) block: Span,
    pub(crate) template: Template,
    /// How many buckets its calls are placed in.
    pub(crate) buckets: u64,
}

impl Request {
    /// How many bytes it has.
    pub fn length(&self) -> usize
        ensures { result ≡ length_of self.now }
    {
        self.length
    }

    /// How many calls it has.
    #[tactic(auto, unfolding(crate::specs::Meaning::calls_of))]
    pub fn calls(&self) -> u64
        ensures { (bytes : List ℕ) → IsOf bytes self.now → result ≡ length (calls_at bytes self.now) }
    {
        match self.template.kind {
            Kind::Quit => 0,
            Kind::One { .. } => 1,
            Kind::Each => self.template.count as u64,
            Kind::Everywhere => self.buckets,
        }
    }

    /// Whether it is a refusal after which the connection is closed.
    pub fn is_closing(&self) -> bool
        ensures { (bytes : List ℕ) → IsOf bytes self.now → result ≡ is_closing (meaning_at bytes self.now) }
    {
        match self.template.kind {
            Kind::One { closing } => closing,
            Kind::Quit | Kind::Each | Kind::Everywhere => false,
        }
    }

    /// Whether no request after it is read: it is `quit`, or a refusal that closes the connection.
    pub fn ends_connection(&self) -> bool
        ensures { (bytes : List ℕ) → IsOf bytes self.now → result ≡ ends_connection (meaning_at bytes self.now) }
    {
        match self.template.kind {
            Kind::Quit => true,
            Kind::One { closing } => closing,
            Kind::Each | Kind::Everywhere => false,
        }
    }

    /// Its nth call, from 0. The call's key and block are places in the bytes that the request was
    /// read from.
    #[tactic(auto, unfolding(crate::specs::Meaning::calls_of))]
    pub fn call(&self, bytes: &[u8], nth: u64) -> Option<CallSpan>
        requires { IsOf bytes.now self.now }
        ensures value { option_map (placed_of bytes.now) result ≡ slice_get (calls_at bytes.now self.now) nth }
        ensures places { IfSome result (λ c. IsSpanOf bytes.now c) }
        ensures placed { IfSome result (λ c. IsPlaced (buckets_of self.now) (placed_of bytes.now c)) }
        ensures bucket { IfSome result (λ c. c.bucket < buckets_of self.now) }
        ensures hash { IfSome result (λ c. HasOwnHash bytes.now c) }
    {
        match self.template.kind {
            Kind::Quit => None,
            Kind::One { .. } => self.only_call(nth),
            Kind::Each => self.key_call(bytes, nth),
            Kind::Everywhere => self.bucket_call(nth),
        }
    }

    /// The call of a request without a key.
    pub(crate) fn only_call(&self, nth: u64) -> Option<CallSpan>
        requires buckets { 0 < buckets_of self.now }
        requires verb { self.now.template.call.verb ≡ Fixed }
        ensures value { (bytes : List ℕ) → option_map (placed_of bytes) result ≡ slice_get (record { bucket = 0; call = shared_call bytes self.now } ∷ []) nth }
        ensures places { (bytes : List ℕ) → IsOf bytes self.now → IfSome result (λ c. IsSpanOf bytes c) }
        ensures placed { (bytes : List ℕ) → IfSome result (λ c. IsPlaced (buckets_of self.now) (placed_of bytes c)) }
        ensures bucket { IfSome result (λ c. c.bucket < buckets_of self.now) }
        ensures hash { (bytes : List ℕ) → IfSome result (λ c. HasOwnHash bytes c) }
        ensures first { IfSome result (λ c. nth ≡ 0) }
    {
        if nth != 0 {
            return None;
        }
        Some(CallSpan {
            key: no_span(),
            hash: 0,
            bucket: 0,
            block: self.block,
            ..self.template.call
        })
    }

    /// The call at the nth bucket.
    pub(crate) fn bucket_call(&self, nth: u64) -> Option<CallSpan>
        requires verb { self.now.template.call.verb ≡ Flush }
        ensures value { (bytes : List ℕ) → option_map (placed_of bytes) result ≡ slice_get (bucket_calls_at bytes self.now) nth }
        ensures places { (bytes : List ℕ) → IsOf bytes self.now → IfSome result (λ c. IsSpanOf bytes c) }
        ensures placed { (bytes : List ℕ) → IfSome result (λ c. IsPlaced (buckets_of self.now) (placed_of bytes c)) }
        ensures bucket { IfSome result (λ c. c.bucket < buckets_of self.now) }
        ensures hash { (bytes : List ℕ) → IfSome result (λ c. HasOwnHash bytes c) }
        ensures below { IfSome result (λ c. nth < buckets_of self.now) }
    {
        if nth >= self.buckets {
            return None;
        }
        Some(CallSpan {
            key: no_span(),
            hash: 0,
            bucket: nth,
            block: self.block,
            last: nth + 1 == self.buckets,
            ..self.template.call
        })
    }

    /// The call at the nth key, which is looked for from the front of the line.
    fn key_call(&self, bytes: &[u8], nth: u64) -> Option<CallSpan>
        requires of { IsOf bytes.now self.now }
        requires verb { HasKey self.now.template.call.verb }
        ensures value { option_map (placed_of bytes.now) result ≡ slice_get (key_calls_at bytes.now self.now) nth }
        ensures places { IfSome result (λ c. IsSpanOf bytes.now c) }
        ensures placed { IfSome result (λ c. IsPlaced (buckets_of self.now) (placed_of bytes.now c)) }
        ensures bucket { IfSome result (λ c. c.bucket < buckets_of self.now) }
        ensures hash { IfSome result (λ c. HasOwnHash bytes.now c) }
    {
        if nth >= self.template.count as u64 {
            return None;
        }
        let key = word(&bytes[..self.line], self.template.first + nth as usize);
        Some(self.call_at(bytes, key, nth))
    }

    /// The call at the nth key, whose places are these.
    pub(crate) fn call_at(&self, bytes: &[u8], key: Span, nth: u64) -> CallSpan
        requires of { IsOf bytes.now self.now }
        requires verb { HasKey self.now.template.call.verb }
        requires nth { nth < self.now.template.count }
        requires order { key.from ≤ key.to }
        requires within { key.to ≤ self.now.line }
        requires key { slice_range (take self.now.line bytes.now) key.from key.to ≡ arg (words (take self.now.line bytes.now)) (self.now.template.first + nth) }
        ensures value { Some (placed_of bytes.now result) ≡ slice_get (key_calls_at bytes.now self.now) nth }
        ensures places { IsSpanOf bytes.now result }
        ensures placed { IsPlaced (buckets_of self.now) (placed_of bytes.now result) }
        ensures bucket { result.bucket < buckets_of self.now }
        ensures hash { HasOwnHash bytes.now result }
    {
        let count = self.template.count as u64;
        let hash = fnv64(&bytes[key.from..key.to]);
        CallSpan {
            key,
            hash,
            bucket: hash % self.buckets,
            block: self.block,
            last: nth + 1 == count,
            ..self.template.call
        }
    }
}
