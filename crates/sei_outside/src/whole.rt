//! Reads all that a source has left, up to a limit.
ghost use Rattle.std.specs.Prelude.{◌≡◌, ◌+◌, ◌<◌, ◌≤◌, IfOk, IfSome, length, vec_len};
ghost use Rattle.std.specs.Io.KnownBytes.{IsAtEnd};
ghost use Rattle.sei_outside.specs.Faults.{Rose};
ghost use Rattle.sei_outside.specs.Reads.{TookAtMost};

use super::{Read, Source};
use std::alloc::Global;

/// Why a source was not read to its end.
#[derive(Clone, Copy, Debug, PartialEq, Eq)]
pub enum Unread {
    /// More bytes were left than the limit.
    TooBig,
    /// A read failed.
    Failed,
    /// Out of memory for the bytes.
    Memory,
}

/// How many bytes one read asks for at most.
const PIECE: usize = 4096;

/// All bytes that the source has left, at most `limit` of them. After an error the bytes that were
/// read so far are gone from the source: one more than the limit at most.
pub fn read_all<S: Source>(alloc: Global, source: &mut S, limit: usize) -> Result<Vec<u8>, Unread>
    ensures whole { IfOk result (λ bytes. IfSome (S.left source.old) (λ all. bytes.items ≡ all)) }
    ensures within { IfOk result (λ bytes. vec_len bytes ≤ limit) }
    ensures end { IfOk result (λ bytes. IsAtEnd (S.left source.new)) }
    ensures too_big { result ≡ Err Unread.TooBig
        → IfSome (S.left source.old) (λ all. limit < length all) }
    ensures taken { TookAtMost (limit + 1) (S.left source.old) (S.left source.new) }
    ensures failed { result ≡ Err Unread.Failed → Rose (S.faults source.old) (S.faults source.new) }
    ensures told { S.faults source.old < S.faults source.new → result ≡ Err Unread.Failed }
    ensures later { S.faults source.old ≤ S.faults source.new }
{
    let mut bytes = Vec::new(alloc);
    let mut piece = [0u8; PIECE];
    while bytes.len() <= limit {
        let room = (limit - bytes.len()).min(PIECE - 1) + 1;
        match source.read(&mut piece[..room]) {
            Read::Took(count) => {
                if bytes.extend_from_slice(&piece[..count]).is_err() {
                    return Err(Unread::Memory);
                }
            }
            Read::End => return Ok(bytes),
            Read::Failed => return Err(Unread::Failed),
        }
    }
    Err(Unread::TooBig)
}
