//! Each comparison, once of equal values, and of values that differ in one part or are missing.
use super::*;
use mc_model::Geometry;
use sei_code::{Mode, message_code};
use sei_fault::{AbortCause, PlainCore};
use sei_log::{Change, WriteLog};
use sei_words::Words;
use std::test::Fail;

const SMALLEST: Geometry = Geometry {
    buckets: 1,
    slots: 1,
    value_words: 3,
};

const FIRST: Change = Change {
    address: 41,
    was: 4,
    becomes: 9,
};

const SECOND: Change = Change {
    address: 44,
    was: 0,
    becomes: 1,
};

#[test]
fn entries_are_equal_in_three_fields_or_missing(rt: HostRuntime) -> Result<(), Fail> {
    let mut one = WriteLog::new(rt.alloc(), 2)?;
    let mut two = WriteLog::new(rt.alloc(), 1)?;
    let mut core = PlainCore::new();
    one.push(FIRST);
    one.push(SECOND);
    two.push(FIRST);
    assert!(rt; entry(&one, &two, 0, &mut core));
    assert!(rt; !entry(&one, &two, 1, &mut core));
    assert!(rt; !entry(&two, &two, 1, &mut core));
    two.clear();
    two.push(Change {
        address: 41,
        was: 5,
        becomes: 9,
    });
    assert!(rt; !entry(&one, &two, 0, &mut core));
    Ok(())
}

#[test]
fn a_word_is_the_new_one_or_out_of_range(rt: HostRuntime) -> Result<(), Fail> {
    let mut words = Words::new(rt.alloc(), &SMALLEST, 0)?;
    let mut log = WriteLog::new(rt.alloc(), 2)?;
    let mut core = PlainCore::new();
    log.push(FIRST);
    log.push(SECOND);
    assert!(rt; log.len() == 2);
    words.set(41, 4);
    assert_eq!(rt; word(&log, 0, Some(&words), &mut core), Ok(false));
    words.set(41, 9);
    assert_eq!(rt; word(&log, 0, Some(&words), &mut core), Ok(true));
    assert_eq!(rt;
        word(&log, 1, Some(&words), &mut core),
        Err(AbortCause::Range { address: 44 })
    );
    assert_eq!(rt;
        word(&log, 0, None, &mut core),
        Err(AbortCause::Range { address: 41 })
    );
    Ok(())
}

#[test]
fn replies_are_equal_in_code_and_bytes(rt: HostRuntime) {
    let mut core = PlainCore::new();
    assert!(rt; codes(Some(7), b"END", Some(7), b"END", &mut core));
    assert!(rt; !codes(Some(7), b"END", Some(8), b"END", &mut core));
    assert!(rt; !codes(Some(7), b"END", Some(7), b"ENDS", &mut core));
    assert!(rt; !codes(None, b"END", None, b"END", &mut core));
}

#[test]
fn the_copy_is_the_message_of_its_number(rt: HostRuntime) {
    let mut core = PlainCore::new();
    let code = Some(message_code(3, b"END"));
    assert!(rt; wire(b"END", Mode::Plain, 3, code, b"END", &mut core));
    assert!(rt; !wire(b"END", Mode::Plain, 4, code, b"END", &mut core));
    assert!(rt; !wire(b"ENDS", Mode::Plain, 3, code, b"END", &mut core));
    assert!(rt; !wire(b"END", Mode::Plain, 3, None, b"END", &mut core));
}
