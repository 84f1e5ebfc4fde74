ghost use Rattle.std.specs.Prelude.{◌≡◌};
ghost use Rattle.std.specs.List.{list_all};
ghost use Rattle.hg_life.specs.Members as form;

fn is_letter(byte: u8) -> bool
    ensures { result ≡ form.is_letter byte }
{
    matches!(byte, b'A'..=b'Z' | b'a'..=b'z')
}

fn is_name_byte(byte: u8) -> bool
    ensures { result ≡ form.is_name_byte byte }
{
    is_letter(byte) || matches!(byte, b'0'..=b'9') || byte == b'_'
}

fn starts_with_letter(text: &[u8]) -> bool
    ensures { result ≡ form.starts_with_letter text.now }
{
    match text {
        [] => false,
        [first, ..] => is_letter(*first),
    }
}

fn has_name_bytes(text: &[u8]) -> bool
    ensures { result ≡ list_all form.is_name_byte text.now }
{
    text.iter().all(|byte| is_name_byte(*byte))
}

/// Whether a member may have this name: 1 to 16 ASCII letters, digits and `_`, the first a letter.
pub fn is_member_name(text: &[u8]) -> bool
    ensures { result ≡ form.is_member_name text.now }
{
    starts_with_letter(text) && text.len() <= 16 && has_name_bytes(text)
}
