//! Days of many kinds, and a thousand of version 2.
use crate::generated::{filled_days, has_fills};
use std::alloc::AllocGlobal;
use std::sync::Wait;
use std::test::Fail;

/// Days of one kind: how many, the seed of the first, how many banks and pairs, and how many parts of how many commands.
type Days = (u64, u64, (u8, u8), (u32, u32));

const KINDS: [Days; 11] = [
    (80, 1, (2, 1), (2, 30)),
    (80, 1001, (2, 3), (2, 30)),
    (80, 2001, (3, 1), (2, 30)),
    (80, 3001, (3, 2), (2, 30)),
    (50, 4001, (4, 4), (2, 30)),
    (50, 5001, (5, 2), (2, 30)),
    (30, 6001, (7, 3), (2, 30)),
    (30, 7001, (9, 1), (2, 30)),
    (5, 8001, (12, 5), (2, 30)),
    (3, 9001, (16, 8), (2, 30)),
    // The local books are looked at behind each command.
    (30, 10_001, (3, 1), (40, 1)),
];

/// On how many days of a kind there were fills.
fn days_with_fills<R: AllocGlobal + Wait>(rt: &R, kind: Days) -> Result<u64, Fail> {
    let (count, first, size, parts) = kind;
    let mut found = 0u64;
    for day in 0..count {
        if has_fills(rt, (first.wrapping_add(day), size, parts))? {
            found = found.saturating_add(1);
        }
    }
    Ok(found)
}

#[test]
fn generated_days_are_told_alike_by_each_host(rt: HostRuntime) -> Result<(), Fail> {
    for kind in KINDS {
        assert!(rt; days_with_fills(&rt, kind)? > kind.0 / 2, "{kind:?}");
    }
    Ok(())
}

#[test]
fn a_thousand_days_of_version_two_are_told_alike_by_each_host(rt: HostRuntime) -> Result<(), Fail> {
    let filled = filled_days(&rt, 0, 1000);
    assert!(rt; matches!(filled, Ok(251..)), "{filled:?}");
    Ok(())
}
