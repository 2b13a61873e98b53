//! Published values of FNV-1a, message codes from another program, and lists and words at limits.
use super::*;
use std::test::Fail;

#[test]
fn published_codes(rt: HostRuntime) {
    assert_eq!(rt; fnv64(b""), 0xcbf2_9ce4_8422_2325);
    assert_eq!(rt; fnv64(b"a"), 0xaf63_dc4c_8601_ec8c);
    assert_eq!(rt; fnv64(b"foobar"), 0x8594_4171_f739_67e8);
}

#[test]
fn message_codes(rt: HostRuntime) {
    assert_eq!(rt; message_code(7, b"hello"), 0x4110_dda4_876a_6da5);
    assert_eq!(rt; message_code(7, b"hallo"), 0x9d4e_fdc2_f751_aec1);
    let (one, two) = codes_apart(7, b"hello", b"hallo", 1);
    assert_eq!(rt; one, 0x4110_dda4_876a_6da5);
    assert_eq!(rt; two, 0x9d4e_fdc2_f751_aec1);
}

#[test]
fn folds_a_word(rt: HostRuntime) {
    let mut fold = Fold::default();
    fold.word(0x0102_0304_0506_0708);
    assert_eq!(rt; fold.finish(), 0x7eb5_108b_368a_78ed);
}

#[test]
fn a_buffer_without_room_takes_nothing(rt: HostRuntime) -> Result<(), Fail> {
    let mut buffer = Buffer::new(rt.alloc(), 0)?;
    assert!(rt; !buffer.has_room());
    assert!(rt; !buffer.push(7));
    assert_eq!(rt; buffer.bytes(), [].as_slice());
    buffer.clear();
    assert!(rt; !buffer.push(7));
    Ok(())
}

#[test]
fn a_buffer_with_room_for_two_takes_two(rt: HostRuntime) -> Result<(), Fail> {
    let mut buffer = Buffer::new(rt.alloc(), 2)?;
    assert!(rt; buffer.push(7));
    assert!(rt; buffer.push(255));
    assert!(rt; !buffer.has_room());
    assert!(rt; !buffer.push(9));
    assert_eq!(rt; buffer.bytes(), [7, 255].as_slice());
    assert_eq!(rt; buffer.len(), 2);
    assert_eq!(rt; buffer.get(1), Some(255));
    assert_eq!(rt; buffer.get(2), None);
    buffer.clear();
    assert_eq!(rt; buffer.bytes(), [].as_slice());
    assert_eq!(rt; buffer.get(0), None);
    assert!(rt; buffer.push(9));
    assert!(rt; buffer.set(0, 8));
    assert!(rt; !buffer.set(1, 8));
    assert_eq!(rt; buffer.bytes(), [8].as_slice());
    Ok(())
}

#[test]
fn a_list_of_words_with_room_for_two_takes_two(rt: HostRuntime) -> Result<(), Fail> {
    let mut words = WordList::new(rt.alloc(), 2)?;
    assert!(rt; words.push(u64::MAX));
    assert!(rt; words.push(8));
    assert!(rt; !words.push(9));
    assert_eq!(rt; words.words(), [u64::MAX, 8].as_slice());
    assert_eq!(rt; words.len(), 2);
    assert!(rt; words.set(1, 9));
    assert!(rt; !words.set(2, 9));
    assert_eq!(rt; words.get(1), Some(9));
    assert_eq!(rt; words.get(2), None);
    words.clear();
    assert_eq!(rt; words.words(), [].as_slice());
    assert!(rt; words.has_room());
    Ok(())
}

#[test]
fn a_list_takes_all_that_is_given_or_nothing(rt: HostRuntime) -> Result<(), Fail> {
    let mut buffer = Buffer::new(rt.alloc(), 3)?;
    assert!(rt; buffer.extend_from_slice(&[1, 2]));
    assert_eq!(rt; buffer.spare(), 1);
    assert!(rt; !buffer.extend_from_slice(&[3, 4]));
    assert!(rt; buffer.extend_from_slice(&[3]));
    assert_eq!(rt; buffer.bytes(), [1, 2, 3].as_slice());
    let mut words = WordList::new(rt.alloc(), 3)?;
    assert!(rt; words.push(1));
    assert!(rt; !words.extend_from_slice(&[2, 3, 4]));
    assert_eq!(rt; words.spare(), 2);
    assert!(rt; words.extend_from_slice(&[2, 3]));
    assert_eq!(rt; words.words(), [1, 2, 3].as_slice());
    Ok(())
}

#[test]
fn an_altered_value_does_not_read(rt: HostRuntime) {
    let sealed = Coded::seal(5);
    assert_eq!(rt; sealed.check, 0xffff_ffff_ffff_fffa);
    assert_eq!(rt; sealed.read(), Some(5));
    let altered = Coded { value: 4, ..sealed };
    assert_eq!(rt; altered.read(), None);
    let other_check = Coded { check: 5, ..sealed };
    assert_eq!(rt; other_check.read(), None);
}
