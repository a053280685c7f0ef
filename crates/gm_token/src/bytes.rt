//! The classes of bytes.

ghost use Rattle.std.specs.Prelude.{◌≡◌};
ghost use Rattle.gm_token.specs.Bytes.{is_blank as is_blank_lem, is_digit as is_digit_lem, begins_name as begins_name_lem, goes_on_name as goes_on_name_lem};

/// Space, tab, CR and LF.
pub fn is_blank(byte: u8) -> bool
    ensures { result ≡ is_blank_lem byte }
{
    byte == b' ' || byte == b'\t' || byte == b'\r' || byte == b'\n'
}

/// `0` to `9`.
pub fn is_digit(byte: u8) -> bool
    ensures { result ≡ is_digit_lem byte }
{
    byte >= b'0' && byte <= b'9'
}

/// A letter or `_`.
pub fn begins_name(byte: u8) -> bool
    ensures { result ≡ begins_name_lem byte }
{
    (byte >= b'A' && byte <= b'Z') || (byte >= b'a' && byte <= b'z') || byte == b'_'
}

/// A letter, a digit or `_`.
pub fn goes_on_name(byte: u8) -> bool
    ensures { result ≡ goes_on_name_lem byte }
{
    begins_name(byte) || is_digit(byte)
}
