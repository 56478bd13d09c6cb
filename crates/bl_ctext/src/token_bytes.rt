//! The bytes of a C text that tokens hold.

ghost use Rattle.std.specs.Prelude.{◌≡◌};
ghost use Rattle.bl_ctext.specs.Token.{is_word_byte as word_byte, is_double_sign as double_sign};

/// Whether the byte may stand in a word.
pub fn is_word_byte(byte: u8) -> bool
    ensures { result ≡ word_byte byte }
{
    byte.is_ascii_alphanumeric() || byte == b'_'
}

/// Whether the two bytes are a sign together.
pub fn is_double_sign(a: u8, b: u8) -> bool
    ensures { result ≡ double_sign a b }
{
    match b {
        b'=' => a == b'=' || a == b'!' || a == b'<' || a == b'>',
        b'&' | b'|' => a == b,
        _ => false,
    }
}
