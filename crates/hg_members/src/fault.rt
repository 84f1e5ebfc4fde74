ghost use Rattle.std.specs.Prelude.{◌≡◌};

use hg_model::Stop;

/// What is wrong with a member file: the first of these that holds. Those that name a member, by its
/// number from 0, are looked for in the first member, then in the second, and so on; the sum comes last.
#[derive(Clone, Copy, Debug, PartialEq, Eq)]
pub enum MemberFault {
    /// The bytes are no TOML document.
    NotToml,
    /// `coin` is not from 3 to 100: its value, or 0 where it is no whole number.
    BadCoin(i64),
    /// `member` has so many entries, and not 2 to 128. What is no array has none.
    Count(usize),
    /// The entry is no table, or its `name` is not 1 to 16 ASCII letters, digits and `_`, the first a letter.
    BadName(usize),
    /// An earlier member has the name.
    DoubleName(usize),
    /// `secret` is no text of 2 to 256 hexadecimal digits, an even number.
    BadSecret(usize),
    /// `balance` is no whole number from 0 on.
    BadBalance(usize),
    /// `node` is neither true nor false.
    BadNode(usize),
    /// `stake` is no whole number from 1 to 2^32 - 1.
    BadStake(usize),
    /// The balances add up to 2^63 or more.
    SumTooLarge,
}

impl From<MemberFault> for Stop<MemberFault> {
    ghost use Rattle.hg_model.specs.declared.stop.Stop.TheVariants.{Fault};

    ghost from_gives = { λ fault stop. stop ≡ Fault fault };

    fn from(fault: MemberFault) -> Stop<MemberFault> {
        Stop::Fault(fault)
    }
}
