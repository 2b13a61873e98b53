//! The handler of the service, for one geometry.
ghost use Rattle.std.specs.Prelude.{◌≡◌, ◌↔◌, ◌*◌, ◌<◌, ◌^◌, IfOk, IfSome, IsErrOf};
ghost use Rattle.std.specs.Option.{option_map};
ghost use Rattle.mc_model.specs.Server.{IsValid};
ghost use Rattle.mc_model.specs.Views.{placed_of, IsSpanOf};
ghost use Rattle.mc_render.specs.Rendering.{rendered};
ghost use Rattle.mc_text.specs.Fits.{HasOwnHash};
ghost use Rattle.sei_hand.specs.HandsBehavior.{hands_behavior};
ghost use Rattle.sei_hand.specs.Commands.{hands_table};
ghost use Rattle.sei_hand.specs.Requests.{limits_of, call_in, count_of_calls, parsed_call};
ghost use Rattle.sei_hand.specs.ReadCall.{IsReadCall};
ghost use Rattle.sei_hand.specs.declared.hands.HandsError.TheVariants as causes;

use crate::fill::fill;
use crate::table::table_of;
use mc_model::{CallSpan, Geometry};
use mc_text::{Limits, parse};
use sei_code::{Buffer, Memory, Rendered, WordList};
use sei_stmt::{Handler, Modeled, Table};
use std::alloc::Global;
use std::marker::Model;
use thiserror::Error;

/// Why there is no handler.
#[derive(Clone, Copy, Debug, PartialEq, Eq, Error)]
pub enum HandsError {
    #[error("out of memory")]
    Memory,
    /// The geometry is not one of 1 to 64 buckets, 1 to 1,024 slots and 3 to 1,024 value words.
    #[error("the geometry is out of its limits")]
    BadGeometry,
}

impl From<Memory> for HandsError {
    ghost from_gives = { λ _ e. e ≡ causes.Memory };

    fn from(_: Memory) -> HandsError {
        HandsError::Memory
    }
}

/// The handler of a memcached of one geometry. An input is a request of the text protocol, and a
/// call of it is one command on one key.
#[derive(Drop)]
pub struct Hands {
    geometry: Geometry,
    table: Table,
}

impl Model for Hands {
    ghost use Rattle.mc_model.specs.declared.geometry.Geometry.{Geometry};
    ghost use Rattle.sei_hand.specs.Made.{IsMade};

    ghost Value = { Geometry };

    ghost view = { λ h. h.geometry };

    ghost invariant = { λ h. IsMade h.geometry h.table };
}

impl Hands {
    /// The handler for this geometry. The errors are a geometry out of its limits, and out of
    /// memory.
    pub fn new(alloc: Global, geometry: Geometry) -> Result<Hands, HandsError>
        ensures made { IfOk result (λ hands. hands ≡ geometry) }
        ensures valid { IfOk result (λ hands. IsValid geometry) }
        ensures bad { IsErrOf result HandsError.BadGeometry ↔ (¬ IsValid geometry) }
    {
        if !geometry.is_valid() {
            return Err(HandsError::BadGeometry);
        }
        let table = table_of(alloc, &geometry)?;
        Ok(Hands { geometry, table })
    }

    fn limits(&self) -> Limits
        ensures limits { result ≡ limits_of self.now }
        ensures buckets { 0 < result.buckets }
    {
        Limits {
            buckets: self.geometry.buckets,
            value_bytes: 8 * self.geometry.value_words,
        }
    }

    /// Call number `nth` of the input, if it is a request that has one.
    fn call(&self, input: &[u8], nth: u64) -> Option<CallSpan>
        ensures value { option_map (placed_of input.now) result ≡ call_in (limits_of self.now) input.now nth }
        ensures places { IfSome result (λ c. IsSpanOf input.now c) }
        ensures hash { IfSome result (λ c. HasOwnHash input.now c) }
        ensures read { IfSome result (λ c. IsReadCall self.now (placed_of input.now c)) }
    {
        let request = parse(input, &self.limits())?;
        request.call(input, nth)
    }
}

impl Handler for Hands {
    ghost behavior = { hands_behavior };

    fn calls(&self, input: &[u8]) -> Option<u64> {
        let request = parse(input, &self.limits())?;
        Some(request.calls())
    }

    fn bucket(&self, input: &[u8], nth: u64) -> Option<u64> {
        let call = self.call(input, nth)?;
        Some(call.bucket)
    }

    fn parse(&self, input: &[u8], nth: u64, into: &mut WordList) -> Option<u64> {
        match self.call(input, nth) {
            None => {
                into.clear();
                None
            }
            Some(call) => {
                fill(&call, input, self.geometry.value_words, into);
                Some(call.bucket)
            }
        }
    }

    fn table(&self) -> &Table {
        &self.table
    }

    fn render(&self, words: &[u64], into: &mut Buffer) -> Rendered {
        mc_render::render(words, 8 * self.geometry.value_words, into)
    }
}

/// The model: the words of a bucket stand for a bucket of the plain server, and a run starts on
/// such words.
impl Modeled for Hands {
    ghost use Rattle.mc_model.specs.Bucket.{Bucket};
    ghost use Rattle.sei_hand.specs.Served.{Stands, answer_of, space_for};

    ghost State = { Bucket };

    ghost begins = { Stands };

    ghost stands = { Stands };

    ghost space = { space_for };

    ghost answer = { answer_of };
}
