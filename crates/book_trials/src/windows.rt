//! A window of levels that grows to either side and a ladder with levels far from its window, walked from the best rank on, and the least
//! of the words of best orders.
ghost use Rattle.std.specs.Prelude.{◌<◌, ◌^◌};

use access_index::{Head, HeadWords};
use fx_amounts::{BankId, Memory};
use price_levels::{Ladder, Window};
use std::test::Fail;
use trial_days::{bank, lots};

/// An order of ten lots comes to rest at a rank, in front of which the order at the answered place rests there. With a thousand lots there
/// no more come.
fn rest(window: &mut Window, rank: u32, place: u32) -> Result<Option<u32>, Memory>
    requires rank { rank < 2 ^ 31 }
{
    window.reserve(rank)?;
    if window.level(rank).lots > 1_000 {
        return Ok(None);
    }
    Ok(window.insert(rank, place, lots(10)))
}

/// Six orders come to rest at five ranks, the last two on either side of the window so far.
fn filled(window: &mut Window) -> Result<Option<u32>, Memory> {
    rest(window, 100_000, 0)?;
    rest(window, 100_063, 1)?;
    rest(window, 100_064, 2)?;
    let before = rest(window, 100_063, 3)?;
    rest(window, 130_000, 4)?;
    rest(window, 60, 5)?;
    Ok(before)
}

#[test]
fn ranks_are_walked_from_the_best_one(rt: HostRuntime) -> Result<(), Fail> {
    let mut window = Window::new(rt.alloc());
    let before = filled(&mut window)?;
    assert!(rt; before == Some(1));
    let mut from = 0u32;
    for (rank, sum) in [
        (60, 10),
        (100_000, 10),
        (100_063, 20),
        (100_064, 10),
        (130_000, 10),
    ] {
        assert!(rt; window.next(from) == Some(rank) && window.level(rank).lots == sum);
        from = rank.saturating_add(1);
    }
    assert!(rt; window.next(from).is_none() && window.next(0) == Some(60));
    Ok(())
}

/// An order of ten lots comes to rest at a rank of a ladder. With a thousand lots there no more come.
fn rest_on(ladder: &mut Ladder, rank: u32, place: u32) -> Result<Option<u32>, Memory>
    requires rank { rank < 2 ^ 31 }
{
    ladder.reserve(rank)?;
    if ladder.level(rank).lots > 1_000 {
        return Ok(None);
    }
    Ok(ladder.insert(rank, place, lots(10)))
}

/// Orders come to rest at two ranks behind 361 others and at one in front of them, all four too far for the window; once the others
/// are there, it is wide enough for the nearest two.
fn filled_ladder(ladder: &mut Ladder) -> Result<Option<u32>, Memory> {
    for (place, rank) in [100_000, 104_500, 900_000_000, 60].iter().enumerate() {
        rest_on(ladder, *rank, place as u32)?;
    }
    for place in 4..364 {
        rest_on(ladder, 100_000 + place, place)?;
    }
    rest_on(ladder, 104_501, 364)?;
    rest_on(ladder, 104_500, 365)
}

/// How many ranks have orders, with the sum of their lots and the last rank, as they are walked from the best one on.
fn walked(ladder: &Ladder) -> (u64, u64, u32) {
    let mut from = 0u32;
    let mut count = 0u64;
    let mut sum = 0u64;
    for _ in 0..1_000 {
        let Some(rank) = ladder.next(from) else {
            break;
        };
        count = count.saturating_add(1);
        sum = sum.saturating_add(ladder.level(rank).lots);
        from = rank.saturating_add(1);
    }
    (count, sum, from)
}

#[test]
fn far_levels_come_into_the_window(rt: HostRuntime) -> Result<(), Fail> {
    let mut ladder = Ladder::new(rt.alloc());
    let before = filled_ladder(&mut ladder)?;
    assert!(rt; before == Some(1) && ladder.next(0) == Some(60));
    let (count, sum, behind) = walked(&ladder);
    assert!(rt; count == 365 && sum == 3_660 && behind == 900_000_001);
    assert!(rt; ladder.next(100_364) == Some(104_500) && ladder.next(104_502) == Some(900_000_000));
    Ok(())
}

#[test]
fn the_best_order_has_the_least_word(rt: HostRuntime) -> Result<(), Fail> {
    let mut words = HeadWords::new();
    assert!(rt; words.best_within(1_000).is_none());
    for (owner, rank, place) in [(0, 7, 3), (9, 7, 2), (2, 5, 9)] {
        words.set(bank(owner), Some(Head { rank, place }));
    }
    assert!(rt; words.best_within(4).is_none());
    let first = words.best_within(5);
    assert!(rt; first.map(BankId::index) == Some(2));
    words.set(bank(2), None);
    let next = words.best_within(7);
    assert!(rt; next.map(BankId::index) == Some(9));
    Ok(())
}
