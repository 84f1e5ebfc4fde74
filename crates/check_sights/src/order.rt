use crate::telling::equal;
use hg_model::{Name, Sig};
use hg_order::white_cmp;
use std::cmp::Ordering;

fn sig_of(first: u8) -> Sig {
    let mut sig = [0; 64];
    sig[0] = first;
    sig
}

fn name_of(last: u8) -> Name {
    let mut name = [0; 48];
    name[47] = last;
    name
}

// Two signatures with their names, the whitening, and how they compare: 1 ^ 3 is 2, and 2 ^ 3 is 1.
const PAIRS: [((u8, u8), (u8, u8), u8, Ordering); 5] = [
    ((1, 0), (2, 0), 3, Ordering::Greater),
    ((2, 0), (1, 0), 3, Ordering::Less),
    ((1, 0), (2, 0), 0, Ordering::Less),
    ((1, 4), (1, 5), 3, Ordering::Less),
    ((1, 5), (1, 5), 3, Ordering::Equal),
];

#[test]
fn compares_whitened_signatures_and_then_names(rt: HostRuntime) {
    for (case, (a, b, white, wanted)) in PAIRS.iter().enumerate() {
        let found = white_cmp(
            &sig_of(a.0),
            &name_of(a.1),
            &sig_of(b.0),
            &name_of(b.1),
            &sig_of(*white),
        );
        equal(&rt, case, found, *wanted);
    }
}
