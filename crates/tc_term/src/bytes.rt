//! Classes of bytes, and names that have the form of a name token.
ghost use Rattle.std.specs.Prelude.{◌≡◌};
ghost use Rattle.std.specs.List.{list_all};
ghost use Rattle.tc_term.specs.Bytes.{is_variable_start, is_word};
ghost use Rattle.tc_term.specs.Text.{is_name};

/// Whether the bytes have the form of a name token.
pub fn is_name(bytes: &[u8]) -> bool
    ensures { result ≡ is_name bytes.now }
{
    match bytes {
        [first, rest @ ..] => first.is_ascii_lowercase() && are_word(rest),
        [] => false,
    }
}

/// Whether a variable may begin with the byte.
pub fn is_variable_start(byte: u8) -> bool
    ensures { result ≡ is_variable_start byte }
{
    byte.is_ascii_uppercase() || byte == b'_'
}

/// Whether a byte may stand in a name token or a variable, behind its first.
pub fn is_word(byte: u8) -> bool
    ensures { result ≡ is_word byte }
{
    byte.is_ascii_alphanumeric() || byte == b'_'
}

fn are_word(bytes: &[u8]) -> bool
    ensures { result ≡ list_all is_word bytes.now }
{
    bytes.iter().all(|b| is_word(*b))
}
