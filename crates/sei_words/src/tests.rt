//! Words of buckets with one slot and with two.
use super::*;
use mc_model::Geometry;
use std::test::Fail;

const ONE_SLOT: Geometry = Geometry {
    buckets: 1,
    slots: 1,
    value_words: 3,
};

const TWO_SLOTS: Geometry = Geometry {
    buckets: 4,
    slots: 2,
    value_words: 5,
};

#[test]
fn slots_follow_each_other(rt: HostRuntime) {
    assert_eq!(rt; layout::width(&TWO_SLOTS), 44);
    assert_eq!(rt; layout::slot_at(&TWO_SLOTS, 0), 2);
    assert_eq!(rt; layout::slot_at(&TWO_SLOTS, 1), 46);
    assert_eq!(rt; layout::slot_at(&TWO_SLOTS, 2), 90);
}

#[test]
fn fresh_words_are_zero(rt: HostRuntime) -> Result<(), Fail> {
    let words = Words::new(rt.alloc(), &ONE_SLOT, 0)?;
    assert_eq!(rt; words.len(), 44);
    assert_eq!(rt; words.get(0), Some(0));
    assert_eq!(rt; words.get(43), Some(0));
    assert_eq!(rt; words.get(44), None);
    Ok(())
}

#[test]
fn a_word_is_set_alone(rt: HostRuntime) -> Result<(), Fail> {
    let mut words = Words::new(rt.alloc(), &TWO_SLOTS, 3)?;
    assert_eq!(rt; words.bucket(), 3);
    assert_eq!(rt; words.len(), 90);
    assert!(rt; words.set(7, u64::MAX));
    assert_eq!(rt; words.get(6), Some(0));
    assert_eq!(rt; words.get(7), Some(u64::MAX));
    assert_eq!(rt; words.get(8), Some(0));
    assert!(rt; !words.set(90, 1));
    Ok(())
}

/// Slot 0 begins at word 2 and slot 1 at word 46.
#[test]
fn the_first_free_slot_moves_on(rt: HostRuntime) -> Result<(), Fail> {
    let mut words = Words::new(rt.alloc(), &TWO_SLOTS, 0)?;
    assert_eq!(rt; words.first_free(1000), Some(0));
    words.set(2, 1);
    assert_eq!(rt; words.first_free(1000), Some(1));
    words.set(46, 1);
    assert_eq!(rt; words.first_free(1000), None);
    Ok(())
}

/// The expiry of slot 0 is word 6.
#[test]
fn an_expired_slot_is_free(rt: HostRuntime) -> Result<(), Fail> {
    let mut words = Words::new(rt.alloc(), &ONE_SLOT, 0)?;
    words.set(2, 1);
    words.set(6, 1000);
    assert!(rt; !words.is_free(0, 999));
    assert!(rt; words.is_free(0, 1000));
    assert_eq!(rt; words.first_free(1000), Some(0));
    Ok(())
}
