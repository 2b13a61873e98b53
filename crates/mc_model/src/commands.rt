//! What each command does at its key, and what it answers.

ghost use Rattle.std.specs.Prelude.{◌≡◌, ◌<◌, ◌++◌, IfOk, Some, None, codes};
ghost use Rattle.mc_model.specs.Numbers.{counter_value};
ghost use Rattle.mc_model.specs.Replies.{end_text, value_text};
ghost use Rattle.mc_model.specs.Texts.{text_count};
ghost use Rattle.mc_model.specs.Outcome.{reply_only, storing, adding, comparing, joining, counting, reading, reading_and_touching, touching, removing, clearing, outcome_of};

use crate::call::{KeyedCall, Verb};
use crate::item::{StoredItem, item_of_call, item_with_expiry, item_with_value};
use crate::number::number_upto;
use crate::outcome::{Change, Outcome, Seen};
use crate::replies::{push_decimal, push_end, value_text};
use crate::texts::text;
use sei_code::Memory;
use std::alloc::Global;

fn reply_only(alloc: Global, reply: &[u8]) -> Result<Outcome, Memory>
    ensures { IfOk result (λ outcome. outcome ≡ reply_only reply.now) }
{
    Ok(Outcome {
        change: Change::Keep,
        reply: reply.to_vec(alloc)?,
    })
}

fn storing(alloc: Global, seen: &Seen, call: &KeyedCall) -> Result<Outcome, Memory>
    ensures { IfOk result (λ outcome. outcome ≡ storing seen.now call.now) }
{
    Ok(Outcome {
        change: Change::Draw(item_of_call(alloc, seen, call)?),
        reply: b"STORED\r\n".to_vec(alloc)?,
    })
}

fn adding(alloc: Global, seen: &Seen, call: &KeyedCall) -> Result<Outcome, Memory>
    ensures { IfOk result (λ outcome. outcome ≡ adding seen.now call.now) }
{
    if seen.count < seen.room.slots {
        Ok(Outcome {
            change: Change::Make(item_of_call(alloc, seen, call)?),
            reply: b"STORED\r\n".to_vec(alloc)?,
        })
    } else {
        reply_only(alloc, b"SERVER_ERROR out of memory storing object\r\n")
    }
}

fn comparing(
    alloc: Global,
    seen: &Seen,
    call: &KeyedCall,
    item: &StoredItem,
) -> Result<Outcome, Memory>
    ensures { IfOk result (λ outcome. outcome ≡ comparing seen.now call.now item.now) }
{
    if item.unique == call.fields.unique {
        storing(alloc, seen, call)
    } else {
        reply_only(alloc, b"EXISTS\r\n")
    }
}

/// The item with these two parts as its value.
fn joining(
    alloc: Global,
    seen: &Seen,
    item: &StoredItem,
    front: &[u8],
    back: &[u8],
) -> Result<Outcome, Memory>
    ensures { IfOk result (λ outcome. outcome ≡ joining seen.now item.now (front.now ++ back.now)) }
{
    let mut value = front.to_vec(alloc)?;
    value.extend_from_slice(back)?;
    if value.len() as u64 <= seen.room.value_bytes {
        let reply = b"STORED\r\n".to_vec(alloc)?;
        Ok(Outcome {
            change: Change::Draw(item_with_value(seen, item, value)),
            reply,
        })
    } else {
        reply_only(alloc, b"SERVER_ERROR object too large for cache\r\n")
    }
}

/// The number that the item's value spells, if `incr` and `decr` may count it.
fn counter_value(item: &StoredItem) -> Option<u64>
    ensures { result ≡ counter_value item.now.value }
{
    if item.value.len() <= 20 {
        number_upto(u64::MAX, item.value.as_slice())
    } else {
        None
    }
}

/// The item with this number as its value, if there is one.
fn counting(
    alloc: Global,
    seen: &Seen,
    item: &StoredItem,
    number: Option<u64>,
) -> Result<Outcome, Memory>
    ensures { IfOk result (λ outcome. outcome ≡ counting seen.now item.now number) }
{
    match number {
        None => reply_only(
            alloc,
            b"CLIENT_ERROR cannot increment or decrement non-numeric value\r\n",
        ),
        Some(number) => {
            let mut value = Vec::new(alloc);
            push_decimal(alloc, &mut value, number)?;
            let mut reply = value.as_slice().to_vec(alloc)?;
            reply.extend_from_slice(b"\r\n")?;
            Ok(Outcome {
                change: Change::Draw(item_with_value(seen, item, value)),
                reply,
            })
        }
    }
}

/// The reply that shows the item.
fn item_reply(
    alloc: Global,
    with_unique: bool,
    call: &KeyedCall,
    item: &StoredItem,
) -> Result<Vec<u8>, Memory>
    ensures { IfOk result (λ reply. reply.items ≡ value_text with_unique call.now.key item.now ++ end_text call.now.last) }
{
    let mut reply = value_text(alloc, with_unique, call.key, item)?;
    push_end(&mut reply, call.fields.last)?;
    Ok(reply)
}

fn reading(
    alloc: Global,
    with_unique: bool,
    call: &KeyedCall,
    item: &StoredItem,
) -> Result<Outcome, Memory>
    ensures { IfOk result (λ outcome. outcome ≡ reading with_unique call.now item.now) }
{
    let reply = item_reply(alloc, with_unique, call, item)?;
    Ok(Outcome {
        change: Change::Keep,
        reply,
    })
}

fn reading_and_touching(
    alloc: Global,
    with_unique: bool,
    seen: &Seen,
    call: &KeyedCall,
    item: &StoredItem,
) -> Result<Outcome, Memory>
    ensures { IfOk result (λ outcome. outcome ≡ reading_and_touching with_unique seen.now call.now item.now) }
{
    let reply = item_reply(alloc, with_unique, call, item)?;
    Ok(Outcome {
        change: Change::Put(item_with_expiry(alloc, seen, call, item)?),
        reply,
    })
}

/// The reply of a reading command if the key has no item.
fn missing(alloc: Global, last: bool) -> Result<Outcome, Memory>
    ensures { IfOk result (λ outcome. outcome ≡ reply_only (end_text last)) }
{
    let mut reply = Vec::new(alloc);
    push_end(&mut reply, last)?;
    Ok(Outcome {
        change: Change::Keep,
        reply,
    })
}

fn touching(
    alloc: Global,
    seen: &Seen,
    call: &KeyedCall,
    item: &StoredItem,
) -> Result<Outcome, Memory>
    ensures { IfOk result (λ outcome. outcome ≡ touching seen.now call.now item.now) }
{
    Ok(Outcome {
        change: Change::Put(item_with_expiry(alloc, seen, call, item)?),
        reply: b"TOUCHED\r\n".to_vec(alloc)?,
    })
}

fn removing(alloc: Global) -> Result<Outcome, Memory>
    ensures { IfOk result (λ outcome. outcome ≡ removing) }
{
    Ok(Outcome {
        change: Change::Remove,
        reply: b"DELETED\r\n".to_vec(alloc)?,
    })
}

fn clearing(alloc: Global, call: &KeyedCall) -> Result<Outcome, Memory>
    ensures { IfOk result (λ outcome. outcome ≡ clearing call.now) }
{
    let reply = if call.fields.last {
        b"OK\r\n".to_vec(alloc)?
    } else {
        Vec::new(alloc)
    };
    Ok(Outcome {
        change: Change::Clear,
        reply,
    })
}

/// What a call does if its key has no item.
pub fn outcome_without_item(alloc: Global, seen: &Seen, call: &KeyedCall) -> Result<Outcome, Memory>
    requires { call.now.text < text_count }
    ensures { IfOk result (λ outcome. outcome ≡ outcome_of seen.now call.now call.now.verb None) }
{
    match call.fields.verb {
        Verb::Set | Verb::Add => adding(alloc, seen, call),
        Verb::Replace | Verb::Append | Verb::Prepend => reply_only(alloc, b"NOT_STORED\r\n"),
        Verb::Get | Verb::Gets | Verb::Gat | Verb::Gats => missing(alloc, call.fields.last),
        Verb::Cas | Verb::Touch | Verb::Delete | Verb::Incr | Verb::Decr => {
            reply_only(alloc, b"NOT_FOUND\r\n")
        }
        Verb::Flush => clearing(alloc, call),
        Verb::Fixed => reply_only(alloc, text(call.fields.text)),
    }
}

/// What a call does if its key has an item.
pub fn outcome_with_item(
    alloc: Global,
    seen: &Seen,
    call: &KeyedCall,
    item: &StoredItem,
) -> Result<Outcome, Memory>
    requires { call.now.text < text_count }
    ensures { IfOk result (λ outcome. outcome ≡ outcome_of seen.now call.now call.now.verb (Some item.now)) }
{
    let by = call.fields.value;
    match call.fields.verb {
        Verb::Set | Verb::Replace => storing(alloc, seen, call),
        Verb::Add => reply_only(alloc, b"NOT_STORED\r\n"),
        Verb::Append => joining(alloc, seen, item, item.value.as_slice(), call.block),
        Verb::Prepend => joining(alloc, seen, item, call.block, item.value.as_slice()),
        Verb::Cas => comparing(alloc, seen, call, item),
        Verb::Get => reading(alloc, false, call, item),
        Verb::Gets => reading(alloc, true, call, item),
        Verb::Gat => reading_and_touching(alloc, false, seen, call, item),
        Verb::Gats => reading_and_touching(alloc, true, seen, call, item),
        Verb::Touch => touching(alloc, seen, call, item),
        Verb::Delete => removing(alloc),
        Verb::Incr => {
            let number = counter_value(item).map(|number| number.wrapping_add(by));
            counting(alloc, seen, item, number)
        }
        Verb::Decr => {
            let number = counter_value(item).map(|number| number.saturating_sub(by));
            counting(alloc, seen, item, number)
        }
        Verb::Flush => clearing(alloc, call),
        Verb::Fixed => reply_only(alloc, text(call.fields.text)),
    }
}
