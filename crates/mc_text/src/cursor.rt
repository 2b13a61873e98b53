//! An iterator over the calls of a request.

ghost use Rattle.std.specs.Prelude.{◌≡◌, ◌+◌, ◌<◌, slice_get, Some, IfSome, IfNone};
ghost use Rattle.std.specs.Option.{option_map};
ghost use Rattle.mc_model.specs.Call.{IsPlaced};
ghost use Rattle.mc_model.specs.Views.{IsSpanOf, placed_of};
ghost use Rattle.mc_text.specs.Fits.{HasKey, HasOwnHash};
ghost use Rattle.mc_text.specs.Reading.{buckets_of, calls_at, key_calls_at, IsOf};
ghost use Rattle.mc_text.specs.Walk.{place_of, IsAt};
ghost use Rattle.mc_text.specs.declared.parsed.Kind.TheVariants as kinds;

use crate::parsed::Kind;
use crate::request::Request;
use crate::words::{behind_words, next_word};
use mc_model::CallSpan;

/// An iterator over the calls of a request, in their order. It keeps its position in the line.
#[derive(Clone, Copy)]
pub struct Cursor {
    /// Where in the line the next key is looked for.
    at: usize,
    /// The number of the next call.
    nth: u64,
}

impl Request {
    /// An iterator before the first call.
    pub fn cursor(&self, bytes: &[u8]) -> Cursor
        requires { IsOf bytes.now self.now }
        ensures at { IsAt bytes.now self.now result }
        ensures first { place_of result ≡ 0 }
    {
        Cursor {
            at: behind_words(&bytes[..self.line], self.template.first),
            nth: 0,
        }
    }
}

impl Cursor {
    /// The next call, as `call` gives it, or none after the last one.
    #[tactic(auto, unfolding(crate::specs::Meaning::calls_of))]
    pub fn next(&mut self, request: &Request, bytes: &[u8]) -> Option<CallSpan>
        requires of { IsOf bytes.now request.now }
        requires at { IsAt bytes.now request.now self.old }
        ensures value { option_map (placed_of bytes.now) result ≡ slice_get (calls_at bytes.now request.now) (place_of self.old) }
        ensures places { IfSome result (λ c. IsSpanOf bytes.now c) }
        ensures placed { IfSome result (λ c. IsPlaced (buckets_of request.now) (placed_of bytes.now c)) }
        ensures bucket { IfSome result (λ c. c.bucket < buckets_of request.now) }
        ensures hash { IfSome result (λ c. HasOwnHash bytes.now c) }
        ensures at { IsAt bytes.now request.now self.new }
        ensures next { IfSome result (λ c. place_of self.new ≡ place_of self.old + 1) }
        ensures end { IfNone result (self.new ≡ self.old) }
    {
        match request.template.kind {
            Kind::Quit => None,
            Kind::One { .. } => {
                let call = request.only_call(self.nth)?;
                self.nth += 1;
                Some(call)
            }
            Kind::Each => self.next_key(request, bytes),
            Kind::Everywhere => {
                let call = request.bucket_call(self.nth)?;
                self.nth += 1;
                Some(call)
            }
        }
    }

    fn next_key(&mut self, request: &Request, bytes: &[u8]) -> Option<CallSpan>
        requires of { IsOf bytes.now request.now }
        requires at { IsAt bytes.now request.now self.old }
        requires kind { request.now.template.kind ≡ kinds.Each }
        requires verb { HasKey request.now.template.call.verb }
        ensures value { option_map (placed_of bytes.now) result ≡ slice_get (key_calls_at bytes.now request.now) self.old.nth }
        ensures places { IfSome result (λ c. IsSpanOf bytes.now c) }
        ensures placed { IfSome result (λ c. IsPlaced (buckets_of request.now) (placed_of bytes.now c)) }
        ensures bucket { IfSome result (λ c. c.bucket < buckets_of request.now) }
        ensures hash { IfSome result (λ c. HasOwnHash bytes.now c) }
        ensures at { IsAt bytes.now request.now self.new }
        ensures next { IfSome result (λ c. self.new.nth ≡ self.old.nth + 1) }
        ensures end { IfNone result (self.new ≡ self.old) }
    {
        if self.nth >= request.template.count as u64 {
            return None;
        }
        let key = next_word(&bytes[..request.line], self.at)?;
        let call = request.call_at(bytes, key, self.nth);
        self.at = key.to;
        self.nth += 1;
        Some(call)
    }
}
