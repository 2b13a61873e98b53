//! Output words and the bytes that protocol.txt has for them.
use super::*;
use sei_code::{Buffer, Rendered};
use std::test::Fail;

/// The key `k`.
const K: u64 = 0x6b00_0000_0000_0000;

/// The eight bytes `memcache`.
const MEMCACHE: u64 = 0x6d65_6d63_6163_6865;

/// The byte `d`, and what fills the word.
const D: u64 = 0x6412_3456_789a_bcde;

#[test]
fn words_and_their_bytes(rt: HostRuntime) -> Result<(), Fail> {
    let cases: [(&[u64], usize, Rendered, &[u8]); 17] = [
        (&[], 0, Rendered::Done, b""),
        (&[0, 0], 8, Rendered::Done, b"STORED\r\n"),
        (&[0, 0], 7, Rendered::Full, b""),
        (
            &[1, 0, 1, 5, 9, 77, K, MEMCACHE, D],
            64,
            Rendered::Done,
            b"VALUE k 5 9\r\nmemcached\r\n",
        ),
        (
            &[1, 1, 1, 5, 9, 77, K, MEMCACHE, D, 0, 7],
            64,
            Rendered::Done,
            b"VALUE k 5 9 77\r\nmemcached\r\nEND\r\n",
        ),
        (
            &[1, 0, 1, 5, 9, 77, K, MEMCACHE, D],
            23,
            Rendered::Full,
            b"",
        ),
        (
            &[2, u64::MAX],
            22,
            Rendered::Done,
            b"18446744073709551615\r\n",
        ),
        (&[2, 0, 2, 10], 7, Rendered::Done, b"0\r\n10\r\n"),
        (&[2, 0, 2, 10], 6, Rendered::Full, b""),
        (&[0, 17], 64, Rendered::Bad, b""),
        (&[3, 0], 64, Rendered::Bad, b""),
        (&[0], 64, Rendered::Bad, b""),
        (&[1, 2, 1, 5, 0, 77, K], 64, Rendered::Bad, b""),
        (&[1, 0, 0, 5, 0, 77], 64, Rendered::Bad, b""),
        (&[1, 0, 1, 5, 25, 77, K, 0, 0, 0, 0], 64, Rendered::Bad, b""),
        (&[1, 0, 1, 5, 9, 77, K, MEMCACHE], 64, Rendered::Bad, b""),
        (&[0, 0, 2], 3, Rendered::Bad, b""),
    ];
    for (words, room, answer, bytes) in cases {
        let mut into = Buffer::new(rt.alloc(), room)?;
        into.push(b'x');
        assert_eq!(rt; render(words, 24, &mut into), answer);
        assert_eq!(rt; into.bytes(), bytes);
    }
    Ok(())
}
