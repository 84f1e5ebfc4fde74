use crate::telling::{equal, holds};
use hg_bits::kernels::{count_ge, max_into, narrow, weigh_ge};
use hg_bits::{
    BitRow, StakeTable, join_masks, mask_has, meet_masks, stake_over, sum_stakes, with_member,
};
use hg_model::Memory;
use std::alloc::Global;

// For so many lanes, in how many of them 0, 1, 2, 0, .. is at least 1.
const LANES: [(usize, u16); 6] = [(0, 0), (1, 0), (7, 4), (8, 5), (9, 6), (128, 85)];

#[test]
fn each_narrow_lane_counts(rt: HostRuntime) {
    let ones = [1; 128];
    for (len, count) in &LANES {
        let mut row = [0; 128];
        for i in 0..128 {
            row[i] = (i % 3) as u16;
        }
        let found = narrow::count_ge(&row[..*len], &ones[..*len]);
        equal(&rt, *len, found, *count);
        narrow::max_into(&mut row[..*len], &ones[..*len]);
        let all = narrow::count_ge(&row[..*len], &ones[..*len]);
        equal(&rt, *len, all as usize, *len);
        holds(&rt, *len, row[2] == 2 && row[127] == 1);
    }
}

#[test]
fn each_wide_lane_counts(rt: HostRuntime) {
    let ones = [1; 128];
    for (len, count) in &LANES {
        let mut row = [0; 128];
        for i in 0..128 {
            row[i] = (i % 3) as u32;
        }
        let found = count_ge(&row[..*len], &ones[..*len]);
        equal(&rt, *len, found, u32::from(*count));
        max_into(&mut row[..*len], &ones[..*len]);
        let all = count_ge(&row[..*len], &ones[..*len]);
        equal(&rt, *len, all as usize, *len);
        holds(&rt, *len, row[2] == 2 && row[127] == 1);
    }
}

/// What 128 members of the greatest stake weigh together.
const MOST: u64 = 549_755_813_760;

#[test]
fn each_lane_weighs(rt: HostRuntime) {
    let weights = [1, 10, 100, u32::MAX];
    let wide = weigh_ge(&[5, 0, 7, 7], &[5, 1, 7, 8], &weights);
    equal(&rt, 0, wide, 101);
    let narrow = narrow::weigh_ge(&[5, 0, 7, 7], &[5, 1, 7, 8], &weights);
    equal(&rt, 1, narrow, 101);
    let all = [u32::MAX; 128];
    equal(&rt, 2, weigh_ge(&all, &all, &all), MOST);
    equal(&rt, 3, sum_stakes(&all), MOST);
}

#[test]
fn masks_are_sets_of_members(rt: HostRuntime) {
    let two = with_member(with_member(0, 127), 0);
    let told = [
        mask_has(two, 127) && mask_has(two, 0) && !mask_has(two, 1),
        join_masks(two, 2) == with_member(two, 1) && meet_masks(two, 3) == 1,
        !stake_over(two, &[1; 3]) && !stake_over(two, &[1; 4]),
    ];
    equal(&rt, 0, told, [true; 3]);
}

// Stakes, a set of members, what it weighs, and whether that is more than two thirds of all.
const WEIGHED: [(&[u32], u128, u64, bool); 8] = [
    (&[1, 1, 1, 1], 7, 3, true),
    (&[1, 1, 1, 1], 3, 2, false),
    (&[1, 1, 1], 6, 2, false),
    (&[3, 1, 1], 1, 3, false),
    (&[3, 1, 1], 3, 4, true),
    (&[3, 1, 1], 6, 2, false),
    (&[u32::MAX; 128], u128::MAX, MOST, true),
    (&[u32::MAX; 128], u128::MAX >> 43, 365_072_220_075, false),
];

#[test]
fn members_weigh_their_stakes(rt: HostRuntime) -> Result<(), Memory> {
    for (case, (stakes, mask, weight, over)) in WEIGHED.iter().enumerate() {
        assert!(rt; stakes.len() <= 128);
        let table = StakeTable::new(rt.alloc(), *stakes)?;
        equal(&rt, case, table.weigh(*mask), *weight);
        equal(&rt, case, table.over(*mask), *over);
        equal(&rt, case, stake_over(*mask, *stakes), *over);
        equal(&rt, case, table.total(), sum_stakes(*stakes));
    }
    Ok(())
}

// A row of 130 bits, in three words, with these places.
fn row_of(alloc: Global, places: &[usize]) -> Result<BitRow, Memory> {
    let mut row = BitRow::new(alloc, 130)?;
    for place in places {
        if *place < row.len() {
            row.set(*place);
        }
    }
    Ok(row)
}

#[test]
fn keeps_places_at_the_ends_of_words(rt: HostRuntime) -> Result<(), Memory> {
    let row = row_of(rt.alloc(), &[0, 63, 64, 129])?;
    equal(&rt, 0, row.len(), 130);
    for place in 0..130 {
        let is_there = place == 0 || place == 63 || place == 64 || place == 129;
        let found = place < row.len() && row.has(place);
        equal(&rt, place, found, is_there);
    }
    Ok(())
}

#[test]
fn joins_and_compares_rows(rt: HostRuntime) -> Result<(), Memory> {
    let alloc = rt.alloc();
    let mut all = row_of(alloc, &[3, 128])?;
    let few = row_of(alloc, &[3, 65])?.copy(alloc)?;
    holds(
        &rt,
        0,
        !few.subset(&all) && few.first_over(&all, 0) == Some(65),
    );
    equal(&rt, 1, few.first_over(&all, 66), None);
    if few.len() <= all.len() {
        all.union(&few);
    }
    holds(&rt, 2, few.subset(&all) && !all.subset(&few));
    equal(&rt, 3, all.first_over(&few, 0), Some(128));
    Ok(())
}
