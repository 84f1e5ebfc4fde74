use crate::members::two_members;
use crate::telling::equal;
use hg_sign::{MacTable, SharedTable, Signer, Verifier};
use std::test::Fail;

// RFC 4231, section 4.2.
const FIRST_MAC: [u8; 64] = [
    0x87, 0xaa, 0x7c, 0xde, 0xa5, 0xef, 0x61, 0x9d, 0x4f, 0xf0, 0xb4, 0x24, 0x1a, 0x1d, 0x6c, 0xb0,
    0x23, 0x79, 0xf4, 0xe2, 0xce, 0x4e, 0xc2, 0x78, 0x7a, 0xd0, 0xb3, 0x05, 0x45, 0xe1, 0x7c, 0xde,
    0xda, 0xa8, 0x33, 0xb7, 0xd6, 0xb8, 0xa7, 0x02, 0x03, 0x8b, 0x27, 0x4e, 0xae, 0xa3, 0xf4, 0xe4,
    0xbe, 0x9d, 0x91, 0x4e, 0xeb, 0x61, 0xf1, 0x70, 0x2e, 0x69, 0x6c, 0x20, 0x3a, 0x12, 0x68, 0x54,
];

#[test]
fn signs_for_members(rt: HostRuntime) -> Result<(), Fail> {
    let table = MacTable::new(rt.alloc(), &two_members(&rt, rt.alloc())?)?;
    let sig = table.sign(0, b"Hi There");
    assert_eq!(rt; sig.as_slice(), FIRST_MAC.as_slice());
    assert!(rt; table.check(0, b"Hi There", &sig));
    assert!(rt; !table.check(1, b"Hi There", &sig));
    assert!(rt; !table.check(0, b"Hi there", &sig));
    assert!(rt; !table.check(2, b"Hi There", &sig));
    Ok(())
}

#[test]
fn signs_alike_from_each_handle(rt: HostRuntime) -> Result<(), Fail> {
    let table = SharedTable::new(rt.alloc(), &two_members(&rt, rt.alloc())?)?;
    let other = table.shared()?;
    let sig = other.sign(0, b"Hi There");
    equal(&rt, 0, sig.as_slice(), FIRST_MAC.as_slice());
    let is_right = table.check(0, b"Hi There", &sig);
    drop(table);
    let told = [
        is_right,
        other.check(0, b"Hi There", &sig),
        !other.check(1, b"Hi There", &sig),
    ];
    equal(&rt, 1, told, [true; 3]);
    Ok(())
}
