//! Callers that come one after the other, and side by side.

use crate::Journaled;
use crate::callers::{Call, gathering, procession};
use crate::diary::{Diary, Entry};
use std::test::Fail;

/// Whether the caller's entries have the numbers 0, 1, .. in this order.
fn is_in_order(diary: &Diary, caller: u64) -> bool {
    let mut next = 0u64;
    for entry in diary.entries() {
        if entry.caller == caller {
            if entry.number != next {
                return false;
            }
            next = next.wrapping_add(1);
        }
    }
    true
}

/// How many entries the caller has.
fn count_of(diary: &Diary, caller: u64) -> usize {
    diary
        .entries()
        .iter()
        .filter(|entry| entry.caller == caller)
        .count()
}

#[test]
fn place_past_the_room_adds_nothing(rt: HostRuntime) -> Result<(), Fail> {
    let (calls, diary) = procession(&rt, rt.alloc(), 2, 1).expect(&rt, "memory");
    assert_eq!(rt;
        calls.as_slice(),
        [Call { place: 0, drawn: 1 }, Call { place: 1, drawn: 1 }].as_slice()
    );
    assert_eq!(rt;
        diary.entries(),
        [Entry {
            caller: 0,
            number: 0
        }]
        .as_slice()
    );
    assert_eq!(rt; diary.length(), 1);
    assert_eq!(rt; diary.room(), 1);
    Ok(())
}

#[test]
fn two_come_a_thousand_times_side_by_side(rt: HostRuntime) -> Result<(), Fail> {
    let diary = gathering(&rt, rt.alloc(), 2, 2000, 1000).expect(&rt, "memory");
    assert_eq!(rt; diary.entries().len(), 2000);
    for caller in 0..2u64 {
        assert_eq!(rt; count_of(&diary, caller), 1000);
        assert!(rt; is_in_order(&diary, caller));
    }
    Ok(())
}

#[test]
fn one_to_sixteen_callers_fill_what_room_there_is(rt: HostRuntime) -> Result<(), Fail> {
    for count in 1..17u64 {
        // Each comes three times: no room, room for one, one too few, and for all.
        for room in [0, 1, 3 * count - 1, 3 * count] {
            let diary = gathering(&rt, rt.alloc(), count, room, 3).expect(&rt, "memory");
            assert_eq!(rt; diary.entries().len() as u64, room);
            for caller in 0..count {
                assert!(rt; is_in_order(&diary, caller));
            }
        }
    }
    Ok(())
}

#[test]
fn sixteen_callers_in_turn_have_their_places(rt: HostRuntime) -> Result<(), Fail> {
    let (calls, diary) = procession(&rt, rt.alloc(), 16, 16).expect(&rt, "memory");
    for (index, call) in calls.iter().enumerate() {
        assert_eq!(rt; call.place, index as u64);
    }
    for (index, entry) in diary.entries().iter().enumerate() {
        assert_eq!(rt; entry.caller, index as u64);
    }
    Ok(())
}
