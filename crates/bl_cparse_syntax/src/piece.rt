//! The pieces of a text behind its prelude.

ghost use Rattle.std.specs.Prelude.{◌≡◌, ◌+◌, ◌<◌, ◌≤◌, ◌∷◌, ◌&&◌, true, false, nat_lt, length, drop, slice_index, slice_range};
ghost use Rattle.bl_ctext.specs.Token.{is_blank as blank, is_word_byte as word_byte, is_double_sign as double_sign};
ghost use Rattle.bl_cparse_syntax.specs.Pieces.{pieces, left_of};

use bl_ctext::token_bytes::{is_double_sign, is_word_byte};

/// Where a piece stands: both numbers are the text's length where none is left.
#[derive(Clone, Copy, PartialEq, Eq, Debug)]
pub struct Piece {
    pub start: usize,
    pub end: usize,
}

/// The first piece at a place or behind it.
pub fn next_piece(text: &[u8], at: usize) -> Piece
    requires { at ≤ length text.now }
    ensures in_order { result.start ≤ result.end }
    ensures inside { result.end ≤ length text.now }
    ensures at_end { result.start ≡ result.end → result.end ≡ length text.now }
    ensures left { left_of text.now result.start result.end ≡ pieces (drop at text.now) }
    ensures starts { pieces (drop result.start text.now) ≡ pieces (drop at text.now) }
    ensures no_blank { result.start < length text.now → blank (slice_index text.now result.start) ≡ false }
{
    let start = blanks_end(text, at);
    let end = if start < text.len() {
        piece_end(text, start)
    } else {
        start
    };
    Piece { start, end }
}

/// Where the white space ends that begins at a place.
fn blanks_end(text: &[u8], at: usize) -> usize
    requires { at ≤ length text.now }
    ensures inside { result ≤ length text.now }
    ensures same { pieces (drop result text.now) ≡ pieces (drop at text.now) }
    ensures stops { result < length text.now → blank (slice_index text.now result) ≡ false }
{
    let mut end = at;
    while end < text.len() && is_blank(text[end]) {
        end += 1;
    }
    end
}

/// Where the piece ends that begins at a place.
fn piece_end(text: &[u8], start: usize) -> usize
    requires inside { start < length text.now }
    requires no_blank { blank (slice_index text.now start) ≡ false }
    ensures beyond { start < result }
    ensures inside { result ≤ length text.now }
    ensures cut { pieces (drop start text.now) ≡ slice_range text.now start result ∷ pieces (drop result text.now) }
{
    if is_word_byte(text[start]) {
        word_end(text, start)
    } else if is_pair(text, start) {
        start + 2
    } else {
        start + 1
    }
}

/// Whether a sign of two bytes stands at a place.
fn is_pair(text: &[u8], start: usize) -> bool
    requires { start < length text.now }
    ensures { result ≡ nat_lt (start + 1) (length text.now) && double_sign (slice_index text.now start) (slice_index text.now (start + 1)) }
{
    start + 1 < text.len() && is_double_sign(text[start], text[start + 1])
}

/// Where the word ends whose first byte stands at a place.
fn word_end(text: &[u8], start: usize) -> usize
    requires inside { start < length text.now }
    requires letter { word_byte (slice_index text.now start) ≡ true }
    ensures beyond { start < result }
    ensures inside { result ≤ length text.now }
    ensures cut { pieces (drop start text.now) ≡ slice_range text.now start result ∷ pieces (drop result text.now) }
{
    let mut end = start + 1;
    while end < text.len() && is_word_byte(text[end]) {
        end += 1;
    }
    end
}

fn is_blank(byte: u8) -> bool
    ensures { result ≡ blank byte }
{
    byte == b' ' || byte == b'\n'
}
