//! Certificates: that of the report of two members, each cut of it, and each changed byte.

use crate::exchanging::{MEMBERS, SCRIPT, ample};
use hg_certify::{prove_order, read_certificate, why_pieces, write_shown};
use hg_io::SinkMem;
use hg_life::Members;
use hg_members::read_members;
use hg_model::Member;
use hg_reading::read_script;
use hg_report::print_pieces;
use std::alloc::Global;
use std::test::Fail;

/// What is told of the certificate of B's order, and of A's, which has none.
const SHOWN_BY_B: &str =
    "yes rows 8 ordered 4\n1 433ea625c706b3623c0624e37c933c8741229785e21dec535b8a31165c73eed9a3ff6ae35f43dd762c27b3d01a5c8f0f round 2 time 1\n2 34b55303a5ee1bf3ef4c86aeac9b5e8f051052620c9f71db64a64e32f9556614228fe716b813cfe6735cdff79859631f round 2 time 2\n3 e770aec0061280e1e7653c9723f3414dc11082805e66ce8e0e50fbb286d41ace06d70f723bccc1c92b5060f79e32d48a round 2 time 3\n4 2f5b8a7fcb53a990e4436505b8520a500d3ad5cc098de813faf4a96958ae6acda2a8f226523716c3ce964de7f8f6c44c round 2 time 4\n";

const SHOWN_BY_A: &str = "yes rows 0 ordered 0\n";

/// Up to which number of first bytes, if there are no more, which reason is the first.
const CUT: [(usize, &str); 15] = [
    (4, "form 0"),
    (8, "form 4"),
    (89, "form 8"),
    (170, "form 89"),
    (347, "form 170"),
    (524, "form 347"),
    (701, "form 524"),
    (878, "form 701"),
    (1055, "form 878"),
    (1232, "form 1055"),
    (1236, "form 1232"),
    (1252, "form 1236"),
    (1268, "form 1252"),
    (1284, "form 1268"),
    (1300, "form 1284"),
];

/// Up to which byte, if it alone is XORed with 1, which reason is the first.
const CHANGED: [(usize, &str); 72] = [
    (4, "form 0"),
    (5, "form 4"),
    (8, "form 1232"),
    (12, "form 8"),
    (13, "row 0 member 257"),
    (14, "row 0 signature"),
    (15, "form 8"),
    (23, "row 0 signature"),
    (24, "form 345"),
    (25, "form 90"),
    (89, "row 0 signature"),
    (93, "form 89"),
    (94, "row 1 member 256"),
    (95, "row 1 signature"),
    (96, "form 89"),
    (104, "row 1 signature"),
    (105, "form 426"),
    (106, "form 171"),
    (170, "row 1 signature"),
    (174, "form 170"),
    (175, "row 2 member 256"),
    (176, "row 2 signature"),
    (177, "form 170"),
    (281, "row 2 signature"),
    (282, "form 603"),
    (283, "form 348"),
    (347, "row 2 signature"),
    (351, "form 347"),
    (352, "row 3 member 257"),
    (353, "row 3 signature"),
    (354, "form 347"),
    (458, "row 3 signature"),
    (459, "form 780"),
    (460, "form 525"),
    (524, "row 3 signature"),
    (528, "form 524"),
    (529, "row 4 member 256"),
    (530, "row 4 signature"),
    (531, "form 524"),
    (635, "row 4 signature"),
    (636, "form 957"),
    (637, "form 702"),
    (701, "row 4 signature"),
    (705, "form 701"),
    (706, "row 5 member 257"),
    (707, "row 5 signature"),
    (708, "form 701"),
    (812, "row 5 signature"),
    (813, "form 1134"),
    (814, "form 879"),
    (878, "row 5 signature"),
    (882, "form 878"),
    (883, "row 6 member 256"),
    (884, "row 6 signature"),
    (885, "form 878"),
    (989, "row 6 signature"),
    (990, "form 878"),
    (991, "form 1056"),
    (1055, "row 6 signature"),
    (1059, "form 1055"),
    (1060, "row 7 member 257"),
    (1061, "row 7 signature"),
    (1062, "form 1055"),
    (1166, "row 7 signature"),
    (1167, "form 1055"),
    (1168, "form 1285"),
    (1232, "row 7 signature"),
    (1236, "form 1300"),
    (1252, "order 0"),
    (1268, "order 1"),
    (1284, "order 2"),
    (1300, "order 3"),
];

/// The members, and the certificate of the order of one's node at the end of the script.
fn proved(alloc: Global, own: Member) -> Result<(Members, Vec<u8>), Fail> {
    let members = read_members(alloc, MEMBERS.as_bytes())?;
    let members = members.ok().ok_or("the members are refused")?;
    let lines = read_script(alloc, SCRIPT.as_bytes(), &members, 0)?;
    let lines = lines.ok().ok_or("the script is refused")?;
    if u32::from(own) >= members.count() {
        return Err(Fail::from("no member"));
    }
    let bytes = prove_order(alloc, &members, lines.as_slice(), own)?;
    Ok((members, bytes))
}

/// What is told of these bytes.
fn told(alloc: Global, members: &Members, bytes: &[u8]) -> Result<SinkMem, Fail> {
    let mut out = ample(alloc)?;
    match read_certificate(alloc, members, bytes)? {
        Ok(shown) => write_shown(&shown, &mut out)?,
        Err(why) => print_pieces(&mut out, &why_pieces(&why))?,
    }
    Ok(out)
}

/// The reason of the first row of the table that ends behind this place.
fn reason_at(table: &[(usize, &'static str)], at: usize) -> &'static str {
    for (end, reason) in table {
        if at < *end {
            return reason;
        }
    }
    ""
}

#[test]
fn what_is_proved_is_shown(rt: HostRuntime) -> Result<(), Fail> {
    let (members, by_b) = proved(rt.alloc(), 1)?;
    assert!(rt; by_b.len() == 1300);
    let shown = told(rt.alloc(), &members, by_b.as_slice())?;
    assert!(rt; shown.bytes() == SHOWN_BY_B.as_bytes());
    let (_, by_a) = proved(rt.alloc(), 0)?;
    assert!(rt; by_a.as_slice() == b"HGP1\0\0\0\0\0\0\0\0".as_slice());
    let shown = told(rt.alloc(), &members, by_a.as_slice())?;
    assert!(rt; shown.bytes() == SHOWN_BY_A.as_bytes());
    Ok(())
}

#[test]
fn of_each_cut_the_first_reason_is_told(rt: HostRuntime) -> Result<(), Fail> {
    let (members, bytes) = proved(rt.alloc(), 1)?;
    for len in 0..bytes.len() {
        let told = told(rt.alloc(), &members, &bytes.as_slice()[..len])?;
        assert!(rt; told.bytes() == reason_at(&CUT, len).as_bytes());
    }
    Ok(())
}

#[test]
fn of_each_changed_byte_the_first_reason_is_told(rt: HostRuntime) -> Result<(), Fail> {
    let (members, mut bytes) = proved(rt.alloc(), 1)?;
    for at in 0..bytes.len() {
        bytes[at] ^= 1;
        let told = told(rt.alloc(), &members, bytes.as_slice())?;
        assert!(rt; told.bytes() == reason_at(&CHANGED, at).as_bytes());
        bytes[at] ^= 1;
    }
    Ok(())
}
