//! Replies that are not fixed texts.

ghost use Rattle.std.specs.Prelude.{◌≡◌, ◌++◌, IfOk, OnOk};
ghost use Rattle.std.specs.Fmt.{decimal};
ghost use Rattle.mc_model.specs.Replies.{end_text, unique_text, value_text};

use crate::item::StoredItem;
use sei_code::Memory;
use std::alloc::Global;

pub fn push_decimal(alloc: Global, out: &mut Vec<u8>, number: u64) -> Result<(), Memory>
    ensures { OnOk result (out.new.items ≡ out.old.items ++ decimal number) }
{
    let digits = format!(in alloc; "{number}")?;
    out.extend_from_slice(digits.as_str().as_bytes())?;
    Ok(())
}

/// Appends what follows the reply to a request's last key.
pub fn push_end(out: &mut Vec<u8>, last: bool) -> Result<(), Memory>
    ensures { OnOk result (out.new.items ≡ out.old.items ++ end_text last) }
{
    if last {
        out.extend_from_slice(b"END\r\n")?;
    }
    Ok(())
}

fn push_unique(
    alloc: Global,
    out: &mut Vec<u8>,
    with_unique: bool,
    unique: u64,
) -> Result<(), Memory>
    ensures { OnOk result (out.new.items ≡ out.old.items ++ unique_text with_unique unique) }
{
    if with_unique {
        out.extend_from_slice(b" ")?;
        push_decimal(alloc, out, unique)?;
    }
    Ok(())
}

/// The text that shows an item.
pub fn value_text(
    alloc: Global,
    with_unique: bool,
    key: &[u8],
    item: &StoredItem,
) -> Result<Vec<u8>, Memory>
    ensures { IfOk result (λ text. text.items ≡ value_text with_unique key.now item.now) }
{
    let mut out = Vec::new(alloc);
    out.extend_from_slice(b"VALUE ")?;
    out.extend_from_slice(key)?;
    out.extend_from_slice(b" ")?;
    push_decimal(alloc, &mut out, item.flags as u64)?;
    out.extend_from_slice(b" ")?;
    push_decimal(alloc, &mut out, item.value.len() as u64)?;
    push_unique(alloc, &mut out, with_unique, item.unique)?;
    out.extend_from_slice(b"\r\n")?;
    out.extend_from_slice(item.value.as_slice())?;
    out.extend_from_slice(b"\r\n")?;
    Ok(out)
}
