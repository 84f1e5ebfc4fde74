ghost use Rattle.std.specs.Prelude.{◌≡◌, ◌≤◌, ◌++◌, ◌∷◌, [], length, take, drop};
ghost use Rattle.std.specs.Bool.{Decides};
ghost use Rattle.hg_journal.specs.Writing.{AnewCases, IsBegun};

/// The first gate is closed.
pub(crate) fn is_begun(bytes: &[u8]) -> bool
    ensures { Decides result (IsBegun bytes.now) }
{
    match bytes {
        [first, ..] => *first == 0,
        _ => false,
    }
}

// The head stands behind the first gate.
fn has_head(head: &[u8; 8], bytes: &[u8]) -> bool
    ensures { Decides result (take 8 (drop 1 bytes.now) ≡ head.now) }
{
    if bytes.len() < 9 {
        return false;
    }
    &bytes[1..9] == head.as_slice()
}

// The head and a closed gate stand behind the first gate, and nothing else.
fn is_whole(head: &[u8; 8], bytes: &[u8]) -> bool
    ensures { Decides result (drop 1 bytes.now ≡ head.now ++ 0 ∷ []) }
{
    if bytes.len() != 10 || bytes[9] != 0 {
        return false;
    }
    has_head(head, bytes)
}

/// A file with these bytes is to be made anew.
pub(crate) fn is_anew(head: &[u8; 8], bytes: &[u8]) -> bool
    ensures { Decides result (AnewCases head.now bytes.now) }
{
    if bytes.len() <= 1 {
        return true;
    }
    match bytes[0] {
        0 => bytes.len() <= 10,
        1 => false,
        _ => is_whole(head, bytes),
    }
}

/// The first gate is open, and the head stands behind it.
pub(crate) fn is_ours(head: &[u8; 8], bytes: &[u8]) -> bool
    ensures { Decides result (take 9 bytes.now ≡ 1 ∷ head.now) }
{
    if bytes.is_empty() || bytes[0] != 1 {
        return false;
    }
    has_head(head, bytes)
}
