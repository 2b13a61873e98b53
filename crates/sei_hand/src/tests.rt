//! The words of a call and the bytes of a reply, by the tables of the formats.
mod counts;

use super::*;
use mc_model::Geometry;
use sei_code::{Buffer, Rendered, WordList};
use sei_stmt::{Handler, Modeled};
use std::alloc::Global;
use std::test::Fail;

const SMALLEST: Geometry = Geometry {
    buckets: 1,
    slots: 1,
    value_words: 3,
};

/// The hash of `a`, as the authors of FNV-1a publish it.
const HASH_OF_A: u64 = 0xaf63_dc4c_8601_ec8c;

#[test]
fn a_geometry_has_limits(rt: HostRuntime) -> Result<(), Fail> {
    let alloc = rt.alloc();
    let none = Geometry {
        buckets: 0,
        ..SMALLEST
    };
    assert_eq!(rt;
        Hands::new(alloc, none).err(),
        Some(HandsError::BadGeometry)
    );
    assert!(rt; Hands::new(alloc, SMALLEST).is_ok());
    let text = format!(in alloc; "{}", HandsError::BadGeometry)?;
    assert_eq!(rt; text.as_str(), "the geometry is out of its limits");
    Ok(())
}

/// The input words of call `nth`.
#[tactic(auto, using(crate::proofs::ReadLaws::words_fit))]
fn words_of(alloc: Global, input: &[u8], nth: u64) -> Result<Option<WordList>, HandsError> {
    let hands = Hands::new(alloc, SMALLEST)?;
    let mut words = WordList::new(alloc, 49)?;
    match hands.parse(input, nth, &mut words) {
        Some(0) => Ok(Some(words)),
        _ => Ok(None),
    }
}

/// The first index at which the word is not the expected one. Words 0 to 14 are these, word 46 is
/// the block, and the others are 0.
fn first_wrong(words: &WordList, front: &[u64; 15], block: u64) -> Option<usize> {
    for (i, word) in words.words().iter().enumerate() {
        let wanted = if i < 15 {
            front[i]
        } else if i == 46 {
            block
        } else {
            0
        };
        if *word != wanted {
            return Some(i);
        }
    }
    None
}

#[test]
fn a_set_has_its_words(rt: HostRuntime) -> Result<(), Fail> {
    let words = words_of(rt.alloc(), b"set a 5 0 2\r\nhi\r\n", 0)?.expect(&rt, "a call");
    let front = [
        0,
        1,
        HASH_OF_A,
        5,
        0,
        0,
        0,
        0,
        2,
        1,
        0,
        0,
        1,
        1,
        0x6100_0000_0000_0000,
    ];
    assert_eq!(rt; first_wrong(&words, &front, 0x6869_0000_0000_0000), None);
    assert_eq!(rt; words.len(), 49);
    Ok(())
}

#[test]
fn a_set_without_a_block_has_its_words(rt: HostRuntime) -> Result<(), Fail> {
    let words = words_of(rt.alloc(), b"set a 7 -60 0 noreply\r\n\r\n", 0)?.expect(&rt, "a call");
    let front = [
        0,
        1,
        HASH_OF_A,
        7,
        1,
        60,
        0,
        0,
        0,
        1,
        1,
        0,
        1,
        0,
        0x6100_0000_0000_0000,
    ];
    assert_eq!(rt; first_wrong(&words, &front, 0), None);
    Ok(())
}

#[test]
fn the_second_call_of_a_get_is_its_last(rt: HostRuntime) -> Result<(), Fail> {
    let words = words_of(rt.alloc(), b"get bb a\r\n", 1)?.expect(&rt, "a call");
    let front = [
        6,
        1,
        HASH_OF_A,
        0,
        0,
        0,
        0,
        0,
        0,
        1,
        0,
        0,
        1,
        0,
        0x6100_0000_0000_0000,
    ];
    assert_eq!(rt; first_wrong(&words, &front, 0), None);
    let words = words_of(rt.alloc(), b"get bb a\r\n", 0)?.expect(&rt, "a call");
    assert_eq!(rt; words.get(9), Some(0));
    Ok(())
}

#[test]
fn a_text_has_its_number(rt: HostRuntime) -> Result<(), Fail> {
    let words = words_of(rt.alloc(), b"version\r\n", 0)?.expect(&rt, "a call");
    let front = [15, 0, 0, 0, 0, 0, 0, 0, 0, 1, 0, 9, 0, 0, 0];
    assert_eq!(rt; first_wrong(&words, &front, 0), None);
    assert!(rt; words_of(rt.alloc(), b"get a", 0)?.is_none());
    Ok(())
}

fn calls_of<H: Modeled>(hands: &H, input: &[u8]) -> (Option<u64>, Option<u64>) {
    (hands.calls(input), hands.bucket(input, 1))
}

#[test]
fn a_request_has_its_calls(rt: HostRuntime) -> Result<(), Fail> {
    let hands = Hands::new(rt.alloc(), SMALLEST)?;
    assert_eq!(rt; calls_of(&hands, b"get bb a\r\n"), (Some(2), Some(0)));
    assert_eq!(rt; calls_of(&hands, b"get bb a"), (None, None));
    assert_eq!(rt; calls_of(&hands, b"quit\r\n"), (Some(0), None));
    Ok(())
}

#[test]
fn a_text_is_rendered(rt: HostRuntime) -> Result<(), Fail> {
    let alloc = rt.alloc();
    let hands = Hands::new(alloc, SMALLEST)?;
    let mut bytes = Buffer::new(alloc, 8)?;
    assert_eq!(rt; hands.render(&[0, 0], &mut bytes), Rendered::Done);
    assert_eq!(rt; bytes.bytes(), b"STORED\r\n".as_slice());
    assert_eq!(rt; hands.render(&[0, 17], &mut bytes), Rendered::Bad);
    assert!(rt; hands.table().get(0).is_some());
    Ok(())
}

#[test]
fn laws_can_be_called() {
    requests_are_spelled();
    calls_are_read();
    hands_are_a_sound_handler();
}
