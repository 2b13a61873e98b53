//! Changes of one word that are undone, and the two ways to be out of range.
use super::*;
use mc_model::Geometry;
use sei_fault::{AbortCause, PlainCore};
use sei_log::{Change, WriteLog};
use sei_words::Words;
use std::test::Fail;

const SMALLEST: Geometry = Geometry {
    buckets: 1,
    slots: 1,
    value_words: 3,
};

#[test]
fn a_word_that_changed_twice_comes_back(rt: HostRuntime) -> Result<(), Fail> {
    let mut words = Words::new(rt.alloc(), &SMALLEST, 0)?;
    let mut log = WriteLog::new(rt.alloc(), 2)?;
    let mut core = PlainCore::new();
    log.push(Change {
        address: 41,
        was: 4,
        becomes: 5,
    });
    log.push(Change {
        address: 41,
        was: 5,
        becomes: 9,
    });
    words.set(41, 9);
    assert!(rt; log.len() == 2);
    assert_eq!(rt; undo(&log, 0, Some(&mut words), &mut core), Ok(()));
    assert_eq!(rt; words.get(41), Some(5));
    assert_eq!(rt; undo(&log, 1, Some(&mut words), &mut core), Ok(()));
    assert_eq!(rt; words.get(41), Some(4));
    logs_are_undone();
    Ok(())
}

#[test]
fn an_address_outside_is_range(rt: HostRuntime) -> Result<(), Fail> {
    let mut words = Words::new(rt.alloc(), &SMALLEST, 0)?;
    let mut log = WriteLog::new(rt.alloc(), 1)?;
    let mut core = PlainCore::new();
    log.push(Change {
        address: 44,
        was: 0,
        becomes: 1,
    });
    assert!(rt; log.len() == 1);
    assert_eq!(rt;
        undo(&log, 0, Some(&mut words), &mut core),
        Err(AbortCause::Range { address: 44 })
    );
    assert_eq!(rt;
        undo(&log, 0, None, &mut core),
        Err(AbortCause::Range { address: 44 })
    );
    Ok(())
}
