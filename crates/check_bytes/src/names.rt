use crate::telling::equal;
use hg_name::{cmp_names, name_hex, name_of};
use std::cmp::Ordering;

// The example of SHA-384 that goes with FIPS 180-4.
#[test]
fn names_abc(rt: HostRuntime) {
    let text = name_hex(&name_of(b"abc"));
    assert_eq!(rt;
        text.as_slice(),
        b"cb00753f45a35e8bb5a03d699ac65007272c32ab0eded1631a8b605a43ff5bed8086072ba1e7cc2358baeca134c825a7".as_slice()
    );
}

#[test]
fn compares_from_the_first_byte(rt: HostRuntime) {
    let zeros = [0; 48];
    let mut first = [0; 48];
    first[0] = 1;
    let mut last = [0; 48];
    last[47] = 2;
    equal(&rt, 0, cmp_names(&zeros, &zeros), Ordering::Equal);
    equal(&rt, 1, cmp_names(&zeros, &last), Ordering::Less);
    equal(&rt, 2, cmp_names(&first, &last), Ordering::Greater);
}
