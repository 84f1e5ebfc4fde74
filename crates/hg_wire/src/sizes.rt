ghost use Rattle.std.specs.Prelude.{◌≡◌, ◌<◌, ◌≤◌, ◌^◌, drop};
ghost use Rattle.hg_wire.specs.Sizes.{behind, last_told, least_behind, least_of, least_told, parents_size, payload_told};

use crate::progress::Stage;

/// How many bytes the shortest event has.
const EVENT: usize = 81;

/// How many bytes a name has.
const NAME: usize = 48;

/// How many bytes the names of the parents of an event of this kind have.
fn parents_size(kind: u8) -> usize
    ensures value { result ≡ parents_size kind }
    ensures small { result ≤ 12288 }
{
    if kind == 0 {
        0
    } else {
        NAME * (kind as usize + 1)
    }
}

/// The bytes behind so many.
#[tactic(auto, using(std::proofs::lemmas::List::drop_all))]
fn skip(bytes: &[u8], len: usize) -> &[u8]
    ensures { result.now ≡ drop len bytes.now }
{
    match bytes.split_at_checked(len) {
        Some((_, rest)) => rest,
        None => &[],
    }
}

/// How many bytes the payload has at least, of whose length these are the first bytes.
fn payload_told(bytes: &[u8]) -> usize
    ensures value { result ≡ payload_told bytes.now }
    ensures small { result < 2 ^ 16 }
{
    match bytes {
        [high, low, ..] => u16::from_be_bytes([*high, *low]) as usize,
        _ => 0,
    }
}

/// How many bytes an event has at least, of which these are the first bytes from the kind on.
fn least_behind(bytes: &[u8]) -> usize
    ensures value { result ≡ least_behind bytes.now }
    ensures small { result < 2 ^ 40 }
{
    match bytes {
        [] => EVENT,
        [kind, rest @ ..] => {
            let names = parents_size(*kind);
            EVENT + names + payload_told(skip(rest, names + 8))
        }
    }
}

/// How many bytes an event has at least, of which these are the first bytes.
fn least_told(bytes: &[u8]) -> usize
    ensures value { result ≡ least_told bytes.now }
    ensures small { result < 2 ^ 40 }
{
    least_behind(skip(bytes, 6))
}

/// How many bytes the flag and the name behind it have at least, of which these are the first bytes.
fn last_told(bytes: &[u8]) -> usize
    ensures value { result ≡ last_told bytes.now }
    ensures small { result < 2 ^ 40 }
{
    match bytes {
        [] => 1,
        [0, ..] => 1,
        [_, ..] => 1 + NAME,
    }
}

/// How many bytes the field at this place has at least, of which these are the first bytes.
pub(crate) fn least_of(stage: Stage, bytes: &[u8]) -> usize
    ensures value { result ≡ least_of stage bytes.now }
    ensures small { result < 2 ^ 40 }
{
    match stage {
        Stage::AtHead => 9,
        Stage::AtName(_) => NAME,
        Stage::AtRow(_) => least_told(bytes),
        Stage::AtLast => last_told(bytes),
        Stage::Shut(_) => 0,
        Stage::Over => 0,
    }
}

/// How many bytes stand at least behind the field at this place.
pub(crate) fn behind(stage: Stage) -> usize
    ensures value { result ≡ behind stage }
    ensures small { result < 2 ^ 40 }
{
    match stage {
        Stage::AtName(more) => NAME * more as usize,
        Stage::AtRow(more) => EVENT * more as usize + 1,
        Stage::AtHead => 0,
        Stage::AtLast => 0,
        Stage::Shut(_) => 0,
        Stage::Over => 0,
    }
}
