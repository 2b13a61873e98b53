//! A bucket of the plain server, and its answer to a call.

ghost use Rattle.std.specs.Prelude.{◌≡◌, ◌<◌, IfOk, OnErr, replicate};
ghost use Rattle.mc_model.specs.Bucket.{empty_bucket, purged};
ghost use Rattle.mc_model.specs.Answer.{answer, counter_after, outcome_in};
ghost use Rattle.mc_model.specs.Texts.{text_count};

use crate::call::{KeyedCall, Room};
use crate::commands::{outcome_with_item, outcome_without_item};
use crate::entries::{apply, count_live, find_live, purge};
use crate::item::StoredEntry;
use crate::outcome::{Change, Outcome, Seen};
use sei_code::Memory;
use std::alloc::Global;
use std::marker::Model;

/// A bucket of the plain server.
#[derive(Drop)]
pub struct StoredBucket {
    entries: Vec<StoredEntry>,
    /// The latest second since the start of 1970 that the bucket saw.
    moment: u64,
    /// The cas unique that was drawn last.
    counter: u64,
}

impl Model for StoredBucket {
    ghost use Rattle.mc_model.specs.Bucket.{Bucket};

    ghost Value = { Bucket };

    ghost view = { λ b. record { items = b.entries.items; moment = b.moment; counter = b.counter } };
}

fn counter_after(change: &Change, counter: u64) -> u64
    ensures { result ≡ counter_after change.now counter }
{
    match change {
        Change::Draw(item) | Change::Make(item) => item.unique,
        _ => counter,
    }
}

impl StoredBucket {
    pub fn new(alloc: Global) -> StoredBucket
        ensures { result ≡ empty_bucket }
    {
        StoredBucket {
            entries: Vec::new(alloc),
            moment: 0,
            counter: 0,
        }
    }

    /// What the call does once the moment is this one.
    fn outcome_at(
        &self,
        alloc: Global,
        room: Room,
        moment: u64,
        call: &KeyedCall,
    ) -> Result<Outcome, Memory>
        requires { call.now.text < text_count }
        ensures { IfOk result (λ outcome. outcome ≡ outcome_in room (purged (record self.now { moment = moment })) call.now) }
    {
        let seen = Seen {
            room,
            moment,
            counter: self.counter,
            count: count_live(self.entries.as_slice(), moment) as u64,
        };
        match find_live(self.entries.as_slice(), moment, call.key) {
            Some(item) => outcome_with_item(alloc, &seen, call, item),
            None => outcome_without_item(alloc, &seen, call),
        }
    }

    /// Answers a call. `now` is in seconds since the start of 1970.
    #[tactic(auto, unfolding(crate::specs::Answer::answer))]
    pub fn answer(
        &mut self,
        alloc: Global,
        room: Room,
        now: u64,
        call: &KeyedCall,
    ) -> Result<Vec<u8>, Memory>
        requires { call.now.text < text_count }
        ensures ok { IfOk result (λ reply. (self.new, reply.items) ≡ answer room self.old now call.now) }
        ensures err { OnErr result (self.new ≡ self.old) }
    {
        let moment = self.moment.max(now).max(1);
        let outcome = self.outcome_at(alloc, room, moment, call)?;
        let key = call.key.to_vec(alloc)?;
        self.entries.reserve(1)?;
        self.moment = moment;
        self.counter = counter_after(&outcome.change, self.counter);
        purge(&mut self.entries, moment);
        apply(&mut self.entries, key, outcome.change);
        purge(&mut self.entries, moment);
        if call.fields.noreply {
            Ok(Vec::new(alloc))
        } else {
            Ok(outcome.reply)
        }
    }
}

/// `count` empty buckets.
pub fn empty_buckets(alloc: Global, count: u64) -> Result<Vec<StoredBucket>, Memory>
    ensures { IfOk result (λ buckets. buckets.items ≡ replicate count empty_bucket) }
{
    let mut buckets = Vec::new(alloc);
    for _ in 0..count {
        buckets.push(StoredBucket::new(alloc))?;
    }
    Ok(buckets)
}
