//! Requests as protocol.txt has them, and lines at the edge of each limit.

ghost use Rattle.std.specs.Prelude.{◌<◌, length};

use super::*;
use mc_model::texts::{
    BAD_DATA_CHUNK, BAD_LINE_FORMAT, ERROR, LINE_TOO_LONG, OBJECT_TOO_LARGE, OKAY, VERSION,
};
use mc_model::{CallSpan, Span, Verb};
use std::test::Fail;

const LIMITS: Limits = Limits {
    buckets: 3,
    value_bytes: 24,
};

/// What the request at the front of some bytes comes to.
#[derive(Clone, Copy, Debug, PartialEq, Eq)]
enum Outcome {
    More,
    /// This many bytes, answered by a text.
    Text(usize, u8),
    /// The same, without an answer.
    Silent(usize, u8),
    /// The same, and the connection is closed.
    Closing(usize, u8),
    /// This many bytes, and calls at keys.
    Calls(usize, u64),
}

fn front_of(bytes: &[u8]) -> Option<Outcome> {
    let ReadRequest::Whole { length } = read_request(bytes, &LIMITS) else {
        return Some(Outcome::More);
    };
    let text = bytes.get(..length)?;
    let request = parse(text, &LIMITS)?;
    let calls = request.calls();
    let outcome = match request.call(text, 0) {
        Some(
            CallSpan {
                verb: Verb::Fixed,
                text,
                noreply,
                ..
            },
        ) => {
            if request.is_closing() {
                Outcome::Closing(length, text)
            } else if noreply {
                Outcome::Silent(length, text)
            } else {
                Outcome::Text(length, text)
            }
        }
        _ => Outcome::Calls(length, calls),
    };
    Some(outcome)
}

fn first_call(text: &[u8]) -> Option<CallSpan> {
    parse(text, &LIMITS)?.call(text, 0)
}

/// The calls of a request that has three, by an iterator.
fn three_calls(text: &[u8]) -> Option<[CallSpan; 3]> {
    let request = parse(text, &LIMITS)?;
    let mut cursor = request.cursor(text);
    let one = cursor.next(&request, text)?;
    let two = cursor.next(&request, text)?;
    let three = cursor.next(&request, text)?;
    if cursor.next(&request, text).is_some() {
        return None;
    }
    Some([one, two, three])
}

#[test]
fn gives_the_call_of_a_set(rt: HostRuntime) {
    let call = first_call(b"set key 5 -60 5\r\nvalue\r\n").expect(&rt, "a call");
    assert_eq!(rt;
        (call.verb, call.hash, call.bucket),
        (Verb::Set, 0x3dc9_4a19_365b_10ec, 2)
    );
    assert_eq!(rt;
        (call.key, call.block),
        (Span { from: 4, to: 7 }, Span { from: 17, to: 22 })
    );
    assert_eq!(rt; (call.flags, call.negative, call.exptime), (5, true, 60));
    assert_eq!(rt; (call.last, call.noreply), (true, false));
}

#[test]
fn gives_the_call_of_a_delete(rt: HostRuntime) {
    let call = first_call(b"delete key 0 noreply\r\n").expect(&rt, "a call");
    assert_eq!(rt;
        (call.verb, call.key, call.bucket),
        (Verb::Delete, Span { from: 7, to: 10 }, 2)
    );
    assert_eq!(rt; (call.last, call.noreply), (true, true));
    let call = first_call(b"delete key 0\r\n").expect(&rt, "a call");
    assert_eq!(rt; (call.last, call.noreply), (true, false));
}

#[test]
fn gives_the_call_of_a_cas(rt: HostRuntime) {
    let call = first_call(b"cas key 5 -60 5 7\r\nvalue\r\n").expect(&rt, "a call");
    assert_eq!(rt;
        (call.verb, call.key, call.block),
        (
            Verb::Cas,
            Span { from: 4, to: 7 },
            Span { from: 19, to: 24 }
        )
    );
    assert_eq!(rt; (call.flags, call.negative, call.exptime), (5, true, 60));
    assert_eq!(rt; (call.unique, call.last, call.noreply), (7, true, false));
}

#[test]
fn walks_over_the_buckets(rt: HostRuntime) {
    let [one, two, three] = three_calls(b"flush_all noreply\r\n").expect(&rt, "each call");
    assert_eq!(rt; (one.verb, one.bucket, one.last), (Verb::Flush, 0, false));
    assert_eq!(rt; (two.bucket, two.last, two.noreply), (1, false, true));
    assert_eq!(rt; (three.bucket, three.last, three.noreply), (2, true, true));
}

#[test]
fn walks_over_the_keys(rt: HostRuntime) {
    let [one, two, three] = three_calls(b"get a  bb ccc\n").expect(&rt, "each call");
    assert_eq!(rt;
        (one.key, one.bucket, one.last),
        (Span { from: 4, to: 5 }, 1, false)
    );
    assert_eq!(rt;
        (two.key, two.bucket, two.last),
        (Span { from: 7, to: 9 }, 2, false)
    );
    assert_eq!(rt;
        (three.key, three.bucket, three.last),
        (Span { from: 10, to: 13 }, 1, true)
    );
}

const SHORT: [(&str, Outcome); 49] = [
    ("get", Outcome::More),
    (
        "set key 5 -60 5\r\nvalue\r\nget key\r\n",
        Outcome::Calls(24, 1),
    ),
    ("set key 5 -60 5\r\nvalue\r", Outcome::More),
    ("get\r\n", Outcome::Text(5, ERROR)),
    ("\r\n", Outcome::Text(2, ERROR)),
    ("   \n", Outcome::Text(4, ERROR)),
    ("GET a\r\n", Outcome::Text(7, ERROR)),
    ("  get   a  \r\n", Outcome::Calls(13, 1)),
    ("get a b\nget c\n", Outcome::Calls(8, 2)),
    ("delete\r\n", Outcome::Text(8, ERROR)),
    ("delete a\r\n", Outcome::Calls(10, 1)),
    ("delete a 0\r\n", Outcome::Calls(12, 1)),
    ("delete a noreply\r\n", Outcome::Calls(18, 1)),
    ("delete a 0 noreply\r\n", Outcome::Calls(20, 1)),
    ("delete noreply\r\n", Outcome::Calls(16, 1)),
    ("delete a 00\r\n", Outcome::Text(13, BAD_LINE_FORMAT)),
    ("delete a 1 noreply\r\n", Outcome::Text(20, BAD_LINE_FORMAT)),
    (
        "delete a noreply noreply\r\n",
        Outcome::Text(26, BAD_LINE_FORMAT),
    ),
    ("delete a 0 0\r\n", Outcome::Text(14, ERROR)),
    ("delete a 1 2\r\n", Outcome::Text(14, ERROR)),
    ("delete a 0 noreply b\r\n", Outcome::Text(22, ERROR)),
    ("version\n", Outcome::Text(8, VERSION)),
    ("version 1\n", Outcome::Text(10, ERROR)),
    (
        "verbosity 4294967295 noreply\r\n",
        Outcome::Silent(30, OKAY),
    ),
    (
        "verbosity 4294967296\r\n",
        Outcome::Text(22, BAD_LINE_FORMAT),
    ),
    ("quit\n", Outcome::Calls(5, 0)),
    ("quit now\n", Outcome::Text(9, ERROR)),
    ("set a 4294967295 -0 1\r\nx\r\n", Outcome::Calls(26, 1)),
    (
        "set a 4294967296 0 1\r\n",
        Outcome::Text(22, BAD_LINE_FORMAT),
    ),
    (
        "set a 0 9223372036854775808 1\r\n",
        Outcome::Text(31, BAD_LINE_FORMAT),
    ),
    ("set a 0 0 1048576\r\n", Outcome::More),
    (
        "set a 0 0 1048577 noreply\r\n",
        Outcome::Closing(27, OBJECT_TOO_LARGE),
    ),
    (
        "set a 0 0 4294967296\r\n",
        Outcome::Text(22, BAD_LINE_FORMAT),
    ),
    (
        "set a 0 0 3 noreply\r\nabcde",
        Outcome::Silent(26, BAD_DATA_CHUNK),
    ),
    (
        "set a 0 0 24\n0123456789abcdefghijklmn\r\n",
        Outcome::Calls(39, 1),
    ),
    (
        "set a 0 0 25\n0123456789abcdefghijklmno\r\n",
        Outcome::Text(40, OBJECT_TOO_LARGE),
    ),
    (
        "set a 0 0 25\n0123456789abcdefghijklmno\n\n",
        Outcome::Text(40, BAD_DATA_CHUNK),
    ),
    ("add a 0 0 1\r\nx\r\n", Outcome::Calls(16, 1)),
    (
        "cas a 0 0 1 18446744073709551615\r\nx\r\n",
        Outcome::Calls(37, 1),
    ),
    (
        "cas a 0 0 1048577 18446744073709551616 noreply\r\n",
        Outcome::Text(48, BAD_LINE_FORMAT),
    ),
    (
        "cas a 0 0 1 noreply\r\n",
        Outcome::Text(21, BAD_LINE_FORMAT),
    ),
    ("gets a b\r\n", Outcome::Calls(10, 2)),
    ("gat -1 a b\r\n", Outcome::Calls(12, 2)),
    ("gats x\r\n", Outcome::Text(8, ERROR)),
    ("touch a 60 noreply\r\n", Outcome::Calls(20, 1)),
    ("touch a noreply\r\n", Outcome::Text(17, BAD_LINE_FORMAT)),
    ("flush_all\r\n", Outcome::Calls(11, 3)),
    ("flush_all 0 noreply\r\n", Outcome::Calls(21, 3)),
    ("flush_all 60\r\n", Outcome::Text(14, BAD_LINE_FORMAT)),
];

/// The first row whose text comes to something else.
fn first_wrong(rows: &[(&str, Outcome)]) -> Option<usize> {
    for (i, (text, want)) in rows.iter().enumerate() {
        if front_of(text.as_bytes()) != Some(*want) {
            return Some(i);
        }
    }
    None
}

#[test]
fn edges_of_short_lines(rt: HostRuntime) {
    assert_eq!(rt; first_wrong(&SHORT), None);
}

#[test]
fn edges_of_long_lines(rt: HostRuntime) -> Result<(), Fail> {
    let alloc = rt.alloc();
    for (size, want) in [
        (250, Outcome::Calls(255, 1)),
        (251, Outcome::Text(256, BAD_LINE_FORMAT)),
    ] {
        let mut line = b"get ".to_vec(alloc)?;
        line.extend_from_slice(&vec![in alloc; b'k'; size]?)?;
        line.push(b'\n')?;
        assert_eq!(rt; front_of(&line), Some(want), "at {size}");
    }
    let mut line = vec![in alloc; b'a'; 65_535]?;
    assert_eq!(rt; front_of(&line), Some(Outcome::More));
    line.push(b'a')?;
    assert_eq!(rt;
        front_of(&line),
        Some(Outcome::Closing(65_536, LINE_TOO_LONG))
    );
    Ok(())
}
