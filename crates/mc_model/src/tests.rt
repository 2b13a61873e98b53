//! No clause says that calls succeed if there is memory. The bytes of one `get`, `set`, `get`.

use super::*;
use sei_code::WordList;
use std::test::Fail;

/// A call with nothing but its command, on the first bucket.
const BLANK: CallSpan = CallSpan {
    verb: Verb::Fixed,
    key: Span { from: 0, to: 0 },
    hash: 0,
    bucket: 0,
    flags: 0,
    negative: false,
    exptime: 0,
    unique: 0,
    value: 0,
    block: Span { from: 0, to: 0 },
    last: true,
    noreply: false,
    text: 0,
};

const SMALLEST: Geometry = Geometry {
    buckets: 1,
    slots: 1,
    value_words: 3,
};

#[test]
fn a_geometry_has_limits(rt: HostRuntime) {
    for (buckets, slots, value_words, valid) in [
        (1, 1, 3, true),
        (64, 1024, 1024, true),
        (0, 1, 3, false),
        (65, 1, 3, false),
        (1, 0, 3, false),
        (1, 1025, 3, false),
        (1, 1, 2, false),
        (1, 1, 1025, false),
    ] {
        let geometry = Geometry {
            buckets,
            slots,
            value_words,
        };
        assert_eq!(rt; geometry.is_valid(), valid, "{geometry:?}");
    }
    assert_eq!(rt; SMALLEST.room().value_bytes, 24);
}

#[test]
fn a_number_has_a_limit(rt: HostRuntime) {
    assert_eq!(rt; number_upto(255, b"255"), Some(255));
    assert_eq!(rt; number_upto(255, b"256"), None);
    assert_eq!(rt; number_upto(255, b""), None);
    assert_eq!(rt; number_upto(255, b"-1"), None);
}

#[test]
fn nine_bytes_are_two_words(rt: HostRuntime) -> Result<(), Fail> {
    let packed = [5, 0x3132_3334_3536_3738, 0x3900_0000_0000_0000];
    let mut words = WordList::new(rt.alloc(), 3)?;
    assert!(rt; words.push(5));
    assert!(rt; pack(b"123456789", &mut words));
    assert_eq!(rt; words.words(), packed.as_slice());
    assert!(rt; !pack(b"1", &mut words));
    assert_eq!(rt; words.words(), packed.as_slice());
    assert!(rt; pack(b"", &mut words));
    assert_eq!(rt; words.len(), 3);
    Ok(())
}

/// What memcached answers to `get a`, `set a 5 0 3` with `abc`, and `get a`.
#[test]
fn a_set_value_is_read_back(rt: HostRuntime) -> Result<(), Fail> {
    let mut server = PlainServer::new(rt.alloc(), SMALLEST)?;
    let get = CallSpan {
        verb: Verb::Get,
        key: Span { from: 4, to: 5 },
        ..BLANK
    };
    let set = CallSpan {
        verb: Verb::Set,
        key: Span { from: 4, to: 5 },
        flags: 5,
        block: Span { from: 13, to: 16 },
        ..BLANK
    };
    let missing = server.answer(1000, b"get a\r\n", &get)?;
    assert_eq!(rt; missing.as_slice(), b"END\r\n".as_slice());
    let stored = server.answer(1000, b"set a 5 0 3\r\nabc\r\n", &set)?;
    assert_eq!(rt; stored.as_slice(), b"STORED\r\n".as_slice());
    let found = server.answer(1000, b"get a\r\n", &get)?;
    assert_eq!(rt;
        found.as_slice(),
        b"VALUE a 5 3\r\nabc\r\nEND\r\n".as_slice()
    );
    Ok(())
}

#[test]
fn laws_can_be_called() {
    buckets_stay_within_their_room();
    get_shows_what_was_stored();
    cas_compares_the_unique();
    noreply_changes_the_reply_alone();
    calls_leave_the_rest();
}
