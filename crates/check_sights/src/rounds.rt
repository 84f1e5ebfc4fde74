ghost use Rattle.std.specs.Prelude.{◌≡◌, length, IfOk};

use crate::telling::{equal, holds};
use hg_model::{Memory, Rounds};
use hg_rounds::RoundTable;
use std::alloc::Global;
use std::process::Abort;

/// Three members who sync in a ring: of each row the round, and whether it is a witness.
const ROWS: [(u32, bool); 15] = [
    (1, true),
    (1, true),
    (1, true),
    (1, false),
    (1, false),
    (1, false),
    (2, true),
    (2, true),
    (2, true),
    (2, false),
    (3, true),
    (3, true),
    (3, true),
    (3, false),
    (4, true),
];

fn ring(rt: &impl Abort, alloc: Global) -> Result<RoundTable, Memory>
    ensures { IfOk result (λ table. length table.standings ≡ 15) }
{
    let mut table = RoundTable::new(alloc)?;
    equal(rt, 0, table.greatest(), 0);
    for x in 0..15 {
        let (round, witness) = ROWS[x];
        table.reserve()?;
        assert!(rt; round > 0 && round - 1 <= table.greatest());
        assert!(rt; table.weight(round) < 100);
        table.add(round, witness, x as u32 + 1);
        equal(rt, x, table.greatest(), round);
    }
    Ok(table)
}

#[test]
fn lists_the_witnesses_of_each_round(rt: HostRuntime) -> Result<(), Memory> {
    let table = ring(&rt, rt.alloc())?;
    for (round, places, weight) in [
        (0, [].as_slice(), 0),
        (1, [0, 1, 2].as_slice(), 1 + 2 + 3),
        (2, [6, 7, 8].as_slice(), 7 + 8 + 9),
        (3, [10, 11, 12].as_slice(), 11 + 12 + 13),
        (4, [14].as_slice(), 15),
        (5, [].as_slice(), 0),
    ] {
        equal(&rt, round as usize, table.witnesses(round), places);
        equal(&rt, round as usize, table.weight(round), weight);
    }
    for x in 0..15 {
        equal(&rt, x, (table.round(x), table.is_witness(x)), ROWS[x]);
    }
    Ok(())
}

#[test]
fn tells_of_the_first_rows_as_they_came(rt: HostRuntime) -> Result<(), Memory> {
    let table = ring(&rt, rt.alloc())?;
    let first = table.prefix(8)?;
    equal(&rt, 8, first.greatest(), 2);
    equal(&rt, 1, first.witnesses(1), [0, 1, 2].as_slice());
    equal(&rt, 2, first.witnesses(2), [6, 7].as_slice());
    equal(&rt, 3, first.witnesses(3), [].as_slice());
    let none = table.prefix(0)?;
    holds(&rt, 0, none.greatest() == 0 && none.witnesses(1).is_empty());
    Ok(())
}
