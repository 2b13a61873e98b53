//! The plain server, which keeps its items in lists.

ghost use Rattle.std.specs.Prelude.{◌≡◌, ◌<◌, IfOk, OnErr, length};
ghost use Rattle.mc_model.specs.Views.{placed_of, IsSpanOf};
ghost use Rattle.mc_model.specs.Server.{IsValid, empty_server, server_answer};

use crate::bucket::{StoredBucket, empty_buckets};
use crate::call::{CallSpan, KeyedCall, Room};
use crate::geometry::Geometry;
use sei_code::Memory;
use std::alloc::Global;
use std::marker::Model;

/// A memcached of one thread. It keeps its items in lists, and answers a call as the protocol says.
#[derive(Drop)]
pub struct PlainServer {
    alloc: Global,
    room: Room,
    buckets: Vec<StoredBucket>,
}

impl Model for PlainServer {
    ghost use Rattle.mc_model.specs.Server.{Server};

    ghost Value = { Server };

    ghost view = { λ s. record { room = s.room; buckets = s.buckets.items } };
}

impl PlainServer {
    /// A server whose buckets are empty.
    pub fn new(alloc: Global, geometry: Geometry) -> Result<PlainServer, Memory>
        requires { IsValid geometry }
        ensures { IfOk result (λ server. server ≡ empty_server geometry) }
    {
        Ok(PlainServer {
            alloc,
            room: geometry.room(),
            buckets: empty_buckets(alloc, geometry.buckets)?,
        })
    }

    /// Answers a call at its bucket. The call's key and block are spans of `input`, and `now` is in
    /// seconds since the start of 1970. If it is out of memory, nothing has changed.
    pub fn answer(&mut self, now: u64, input: &[u8], call: &CallSpan) -> Result<Vec<u8>, Memory>
        requires span { IsSpanOf input.now call.now }
        requires bucket { call.now.bucket < length self.old.buckets }
        ensures ok { IfOk result (λ reply. (self.new, reply.items) ≡ server_answer self.old now (placed_of input.now call.now)) }
        ensures err { OnErr result (self.new ≡ self.old) }
    {
        let keyed = KeyedCall {
            fields: call,
            key: &input[call.key.from..call.key.to],
            block: &input[call.block.from..call.block.to],
        };
        self.buckets[call.bucket as usize].answer(self.alloc, self.room, now, &keyed)
    }
}
