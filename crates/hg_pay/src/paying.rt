ghost use Rattle.std.specs.Prelude.{◌≡◌, ◌<◌, ◌^◌, bit_or, cond, get_or, slice_set};
ghost use Rattle.std.specs.List.{sum};
ghost use Rattle.hg_life.specs.Pay.{can_pay, moved, paid};
ghost use Rattle.hg_pay.specs.Applied.{done_bits};

use crate::pay::Pay;
use hg_life::Transfer;
use hg_model::Member;

/// What the member holds, or 0 of a number that is no member's.
pub fn balance_of(balances: &[u64], member: Member) -> u64
    ensures { result ≡ get_or balances.now member 0 }
{
    match balances.get(member as usize) {
        Some(balance) => *balance,
        None => 0,
    }
}

fn set_balance(balances: &mut [u64], member: Member, balance: u64)
    ensures { balances.new ≡ slice_set balances.old member balance }
{
    if (member as usize) < balances.len() {
        balances[member as usize] = balance;
    }
}

fn can_pay(balances: &[u64], payer: Member, transfer: &Transfer) -> bool
    ensures { result ≡ can_pay balances.now payer transfer.now }
{
    (transfer.receiver as usize) < balances.len() && transfer.amount <= balance_of(balances, payer)
}

/// Does the transfer, or skips it whole. Answers whether it was done.
fn pay_one(balances: &mut [u64], payer: Member, transfer: &Transfer) -> bool
    requires { sum balances.old < 2 ^ 63 }
    ensures done { result ≡ can_pay balances.old payer transfer.now }
    ensures moved { balances.new ≡ cond result (moved balances.old payer transfer.now) balances.old }
    ensures kept { sum balances.new ≡ sum balances.old }
{
    let is_done = can_pay(balances, payer, transfer);
    if is_done {
        let less = balance_of(balances, payer) - transfer.amount;
        set_balance(balances, payer, less);
        let more = balance_of(balances, transfer.receiver) + transfer.amount;
        set_balance(balances, transfer.receiver, more);
    }
    is_done
}

/// These bits, and bit `i` where it is to be set.
fn with_bit(bits: u64, i: usize, is_set: bool) -> u64
    requires { i < 64 }
    ensures { result ≡ cond is_set (bit_or bits (2 ^ i)) bits }
{
    if is_set { bits | 1 << i } else { bits }
}

/// Does the transfers one after the other. Bit `i` of the answer tells whether transfer `i` was done.
pub fn pay_all(balances: &mut [u64], payer: Member, pay: &Pay<'_>) -> u64
    requires { sum balances.old < 2 ^ 63 }
    ensures done { result ≡ done_bits (paid balances.old payer pay.now).done }
    ensures moved { balances.new ≡ (paid balances.old payer pay.now).balances }
    ensures kept { sum balances.new ≡ sum balances.old }
{
    let mut done = 0;
    for i in 0..pay.len() {
        let is_done = pay_one(balances, payer, &pay.get(i));
        done = with_bit(done, i, is_done);
    }
    done
}
