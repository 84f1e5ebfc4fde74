use crate::telling::equal;
use hg_model::{Ballot, Sig};
use hg_votes::{coin_bit, weigh};

fn sig_with(byte: u8) -> Sig {
    let mut sig = [0; 64];
    sig[32] = byte;
    sig
}

// A stake of four in all, and of five, and a coin round each third one above the candidate.
#[test]
fn weighs_votes_by_stake(rt: HostRuntime) {
    for (total, d, yes, no, byte, wanted) in [
        (4, 2, 3, 0, 0, (true, true)),
        (4, 2, 2, 2, 0, (true, false)),
        (4, 3, 1, 2, 0x80, (true, false)),
        (4, 3, 1, 2, 0x7f, (false, false)),
        (4, 3, 0, 3, 0x80, (false, false)),
        (4, 4, 0, 3, 0x80, (false, true)),
        (5, 2, 4, 1, 0, (true, true)),
        (5, 2, 3, 2, 0, (true, false)),
        (5, 2, 2, 3, 0, (false, false)),
    ] {
        let Ballot { vote, decides } = weigh(d, 3, yes, no, total, &sig_with(byte));
        equal(&rt, d as usize, (vote, decides), wanted);
    }
}

#[test]
fn throws_the_highest_bit_of_byte_32(rt: HostRuntime) {
    for (byte, coin) in [(0x80, true), (0xff, true), (0x7f, false), (0, false)] {
        equal(&rt, byte as usize, coin_bit(&sig_with(byte)), coin);
    }
}
