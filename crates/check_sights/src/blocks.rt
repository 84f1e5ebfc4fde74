ghost use Rattle.std.specs.Prelude.{◌≡◌, length, IfOk};

use crate::telling::equal;
use hg_blocks::{Blocks, RowBlocks};
use hg_model::Memory;
use std::alloc::Global;
use std::process::Abort;

/// How many items there are, how many blocks of them are sealed, and how many are in the tail.
const SPLITS: [(usize, usize, usize); 6] = [
    (0, 0, 0),
    (1, 0, 1),
    (64, 0, 64),
    (65, 1, 1),
    (128, 1, 64),
    (130, 2, 2),
];

/// These are so many numbers in order, from 0, and so many of their blocks are sealed.
fn counts(rt: &impl Abort, blocks: &Blocks<usize>, split: (usize, usize, usize)) {
    equal(
        rt,
        split.0,
        (blocks.len(), blocks.sealed(), blocks.tail_len()),
        split,
    );
    for x in 0..blocks.len() {
        equal(rt, split.0, blocks[x], x);
    }
}

#[test]
fn seals_each_full_tail(rt: HostRuntime) -> Result<(), Memory> {
    let mut blocks = Blocks::new(rt.alloc());
    for x in 0..130 {
        for split in &SPLITS {
            if split.0 == x {
                counts(&rt, &blocks, *split);
            }
        }
        blocks.reserve()?;
        blocks.push(x);
    }
    counts(&rt, &blocks, SPLITS[5]);
    Ok(())
}

/// A prefix is split as a list of as many items, and a later item does not come into it.
#[test]
fn shares_sealed_blocks(rt: HostRuntime) -> Result<(), Memory> {
    let mut blocks = Blocks::new(rt.alloc());
    for x in 0..130 {
        blocks.reserve()?;
        blocks.push(x);
    }
    for split in &SPLITS {
        assert!(rt; split.0 <= blocks.len());
        let first = blocks.prefix(split.0)?;
        let cloned = blocks.cloned_prefix(split.0)?;
        blocks.reserve()?;
        blocks.push(blocks.len());
        counts(&rt, &first, *split);
        counts(&rt, &cloned, *split);
        let whole = first.len();
        let (sealed_blocks, rest) = first.into_parts();
        let same = Blocks::of(sealed_blocks, rest, whole);
        counts(&rt, &same, *split);
    }
    Ok(())
}

/// 130 rows, of which row x is x and 1,000 more.
fn pairs(alloc: Global) -> Result<RowBlocks<u16>, Memory>
    ensures width { IfOk result (λ rows. rows.width ≡ 2) }
    ensures long { IfOk result (λ rows. length rows.numbers ≡ 260) }
{
    let mut rows = RowBlocks::new(alloc, 2);
    for x in 0..130 {
        rows.reserve()?;
        rows.push(&[x, x + 1000]);
    }
    Ok(rows)
}

#[test]
fn keeps_rows_of_numbers(rt: HostRuntime) -> Result<(), Memory> {
    let mut rows = pairs(rt.alloc())?;
    for (len, last) in [(1, 0), (64, 63), (65, 64), (128, 127), (130, 129)] {
        let first = rows.prefix(len)?;
        let row = first.row(len - 1);
        equal(&rt, len, row, [last, last + 1000].as_slice());
    }
    rows.reserve()?;
    for x in 0..130 {
        let row = rows.row(x);
        equal(&rt, x, row, [x as u16, x as u16 + 1000].as_slice());
    }
    Ok(())
}
