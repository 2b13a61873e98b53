//! The codes of whole byte lists.
ghost use Rattle.std.specs.Prelude.{◌≡◌, ◌≢◌};
ghost use Rattle.sei_code.specs.Codes.{fnv64, message_code, DifferAt};

use super::Fold;
use byteorder::{BigEndian, ByteOrder};

/// FNV-1a with 64 bits.
#[tactic(auto, unfolding(crate::specs::Codes::fnv64))]
pub fn fnv64(bytes: &[u8]) -> u64
    ensures { result ≡ fnv64 bytes.now }
{
    let mut fold = Fold::new();
    fold.bytes(bytes);
    fold.finish()
}

/// The code of message `n`. It covers a header of 16 bytes and then the bytes. The header is `n`
/// and the number of bytes, each as eight bytes with the most significant first.
#[tactic(auto, unfolding(crate::specs::Codes::fnv64, crate::specs::Codes::message_code), using(crate::proofs::Apart::fnv_from_append))]
pub fn message_code(n: u64, bytes: &[u8]) -> u64
    ensures { result ≡ message_code n bytes.now }
{
    let mut header = [0u8; 16];
    BigEndian::write_u64(&mut header, n);
    BigEndian::write_u64(&mut header[8..], bytes.len() as u64);
    let mut fold = Fold::new();
    fold.bytes(&header);
    fold.bytes(bytes);
    fold.finish()
}

/// The message codes of two byte lists that differ in the byte at `at` alone. One altered byte
/// always changes the message code, and the plain code too.
pub fn codes_apart(n: u64, one: &[u8], two: &[u8], at: usize) -> (u64, u64)
    requires { DifferAt one.now two.now at }
    ensures first { result.0 ≡ message_code n one.now }
    ensures second { result.1 ≡ message_code n two.now }
    ensures apart { result.0 ≢ result.1 }
    ensures plain { fnv64 one.now ≢ fnv64 two.now }
{
    (message_code(n, one), message_code(n, two))
}
