//! What stands at a place of the text: a blank, a comment or a token.

ghost use Rattle.std.specs.Prelude.{◌≡◌, ◌≢◌, ℕ, ◌+◌, ◌<◌, ◌≤◌, true, false, ◌↔◌, List, []};
ghost use Rattle.std.specs.Prelude.{◌∷◌, length, slice_get, slice_index, Some, IsTrue};
ghost use Rattle.std.specs.Prelude.{MatchOption, MatchResult};
ghost use Rattle.bl_tree.specs.declared.place.Place.{Place};
ghost use Rattle.bl_lex.specs.Spelling.{signs, is_blank, is_word_byte, begins_with_digit};
ghost use Rattle.bl_lex.specs.Pieces.{slash, star, line_feed, OpensComment, ClosesComment, FractionAt, IsLineComment, IsBlockComment, IsWord, WordIs, IsSign};
ghost use Rattle.bl_lex.specs.Rules.{IsStrayByte, IsUnclosedComment, IsMalformedNumber, IsFault};
ghost use Rattle.bl_lex.specs.inner.Steps.{IsNumeral, IsWordPiece, IsLongestSign, IsLongestAt};

use crate::number::{Numeral, numeral_of};
use crate::reserved::{Meaning, meaning_of};
use crate::sign;
use bl_tree::Place;
use bl_tree::token::TokenKind;

/// What a piece of the text is.
#[derive(Clone, Copy, PartialEq, Eq, Debug)]
pub enum Form {
    /// A byte of white space.
    Blank,
    Comment,
    Token(TokenKind),
    /// A word that the profile leaves out, and so of no kind.
    Outside,
}

/// A form, and where the piece ends that has it.
#[derive(Clone, Copy, PartialEq, Eq, Debug)]
pub struct Piece {
    pub end: usize,
    pub form: Form,
}

fn is_blank(byte: u8) -> bool
    ensures { result ≡ is_blank byte }
{
    byte == b' ' || byte == b'\t' || byte == b'\r' || byte == b'\n'
}

/// Whether a byte may stand in a word.
fn is_word_byte(byte: u8) -> bool
    ensures { result ≡ is_word_byte byte }
{
    byte.is_ascii_alphanumeric() || byte == b'_'
}

/// The place of the bytes from one offset up to another.
pub fn place_between(start: usize, end: usize) -> Place
    requires start_fits { start < 4294967296 }
    requires end_fits { end < 4294967296 }
    ensures { result ≡ record { start = start; end = end } }
{
    Place {
        start: start as u32,
        end: end as u32,
    }
}

/// The longest piece that begins at a place. An error has the place of what begins none.
pub fn piece_at(text: &[u8], at: usize) -> Result<Piece, Place>
    requires inside { at < length text.now }
    requires short { length text.now ≤ 1048576 }
    ensures { MatchResult result (IsLongestAt text.now at) (λ place. (place.start ≡ at) × IsFault text.now place) }
{
    let byte = text[at];
    if is_blank(byte) {
        Ok(Piece {
            end: at + 1,
            form: Form::Blank,
        })
    } else if is_word_byte(byte) {
        word_at(text, at)
    } else if byte == b'/' {
        slash_at(text, at)
    } else {
        other_at(text, at)
    }
}

/// Where the word ends whose first byte stands at a place.
fn word_end(text: &[u8], at: usize) -> usize
    requires inside { at < length text.now }
    requires letter { is_word_byte (slice_index text.now at) ≡ true }
    ensures { IsWord text.now at result }
{
    let mut end = at + 1;
    while end < text.len() && is_word_byte(text[end]) {
        end += 1;
    }
    end
}

fn word_at(text: &[u8], at: usize) -> Result<Piece, Place>
    requires inside { at < length text.now }
    requires short { length text.now ≤ 1048576 }
    requires letter { is_word_byte (slice_index text.now at) ≡ true }
    ensures piece { MatchResult result (IsWordPiece text.now at) (λ place. (place.start ≡ at) × IsMalformedNumber text.now place) }
{
    let end = word_end(text, at);
    let word = &text[at..end];
    if !word[0].is_ascii_digit() {
        return Ok(Piece {
            end,
            form: word_form(word),
        });
    }
    match numeral_of(word) {
        Some(numeral) => Ok(Piece {
            end,
            form: number_form(numeral, is_fraction(text, end)),
        }),
        None => Err(place_between(at, end)),
    }
}

/// Whether a `.` and a digit stand at a place.
fn is_fraction(text: &[u8], at: usize) -> bool
    requires { at ≤ length text.now }
    ensures { IsTrue result ↔ FractionAt text.now at }
{
    has_byte(text, at, b'.') && at + 1 < text.len() && text[at + 1].is_ascii_digit()
}

fn number_form(numeral: Numeral, before_fraction: bool) -> Form
    ensures { (text word : List ℕ) (end : ℕ) → IsNumeral word numeral → (IsTrue before_fraction ↔ FractionAt text end) →
        WordIs text end word result }
{
    match numeral {
        Numeral::Decimal(value) => {
            if before_fraction {
                Form::Outside
            } else {
                Form::Token(TokenKind::Number(value))
            }
        }
        Numeral::Prefixed(value) => Form::Token(TokenKind::Number(value)),
        Numeral::Octal => Form::Outside,
    }
}

fn word_form(word: &[u8]) -> Form
    requires { begins_with_digit word.now ≡ false }
    ensures { (text : List ℕ) (end : ℕ) → WordIs text end word.now result }
{
    match meaning_of(word) {
        Some(Meaning::Keyword(keyword)) => Form::Token(TokenKind::Word(keyword)),
        Some(Meaning::Outside) => Form::Outside,
        None => Form::Token(TokenKind::Name),
    }
}

/// What begins with a slash: a comment or the sign. An error where the comment isn't closed.
fn slash_at(text: &[u8], at: usize) -> Result<Piece, Place>
    requires inside { at < length text.now }
    requires short { length text.now ≤ 1048576 }
    requires first { slice_index text.now at ≡ slash }
    ensures { MatchResult result (IsLongestAt text.now at) (λ place. (place.start ≡ at) × IsUnclosedComment text.now place) }
{
    if has_byte(text, at + 1, b'/') {
        Ok(Piece {
            end: line_end(text, at),
            form: Form::Comment,
        })
    } else if has_byte(text, at + 1, b'*') {
        block_comment_at(text, at)
    } else {
        Ok(Piece {
            end: at + 1,
            form: Form::Token(TokenKind::Sign(sign::SLASH)),
        })
    }
}

/// Whether this byte stands at a place. No byte stands at the text's end.
fn has_byte(text: &[u8], at: usize, byte: u8) -> bool
    requires { 0 < byte }
    ensures { IsTrue result ↔ (slice_index text.now at ≡ byte) }
{
    at < text.len() && text[at] == byte
}

/// A comment that `/*` begins. An error where it isn't closed.
fn block_comment_at(text: &[u8], at: usize) -> Result<Piece, Place>
    requires short { length text.now ≤ 1048576 }
    requires opens { OpensComment text.now at }
    ensures { MatchResult result (IsLongestAt text.now at) (λ place. (place.start ≡ at) × IsUnclosedComment text.now place) }
{
    match comment_end(text, at) {
        Some(end) => Ok(Piece {
            end,
            form: Form::Comment,
        }),
        None => Err(place_between(at, at + 2)),
    }
}

/// Where the comment ends whose two slashes stand at a place: at the next line feed, or the text's end.
fn line_end(text: &[u8], at: usize) -> usize
    requires first { slice_index text.now at ≡ slash }
    requires second { slice_index text.now (at + 1) ≡ slash }
    ensures { IsLineComment text.now at result }
{
    let mut end = at + 2;
    while end < text.len() && text[end] != b'\n' {
        end += 1;
    }
    end
}

/// Where the comment ends whose `/*` stands at a place: after the next `*/`.
fn comment_end(text: &[u8], at: usize) -> Option<usize>
    requires { OpensComment text.now at }
    ensures { MatchOption result ((i : ℕ) → at + 2 ≤ i → ¬ ClosesComment text.now i) (IsBlockComment text.now at) }
{
    let mut star = at + 2;
    while star + 1 < text.len() {
        if text[star] == b'*' && text[star + 1] == b'/' {
            return Some(star + 2);
        }
        star += 1;
    }
    None
}

/// A sign that doesn't begin with a slash. An error where the byte begins no sign.
fn other_at(text: &[u8], at: usize) -> Result<Piece, Place>
    requires inside { at < length text.now }
    requires short { length text.now ≤ 1048576 }
    requires not_blank { is_blank (slice_index text.now at) ≡ false }
    requires no_word { is_word_byte (slice_index text.now at) ≡ false }
    requires no_slash { slice_index text.now at ≢ slash }
    ensures { MatchResult result (IsLongestAt text.now at) (λ place. (place.start ≡ at) × IsStrayByte text.now place) }
{
    match sign_at(text, at) {
        Some(piece) => Ok(piece),
        None => Err(place_between(at, at + 1)),
    }
}

/// The longest sign at a place.
fn sign_at(text: &[u8], at: usize) -> Option<Piece>
    requires inside { at < length text.now }
    requires no_slash { slice_index text.now at ≢ slash }
    ensures { MatchOption result ((end k : ℕ) → ¬ IsSign text.now at end k) (IsLongestSign text.now at) }
{
    let (end, sign) = match long_sign_at(text, at) {
        Some(sign) => (at + 2, sign),
        None => (at + 1, short_sign_at(text, at)?),
    };
    Some(Piece {
        end,
        form: Form::Token(TokenKind::Sign(sign)),
    })
}

/// The sign of two bytes at a place.
fn long_sign_at(text: &[u8], at: usize) -> Option<u8>
    requires inside { at < length text.now }
    requires no_slash { slice_index text.now at ≢ slash }
    ensures { MatchOption result ((k : ℕ) → ¬ IsSign text.now at (at + 2) k) (IsSign text.now at (at + 2)) }
{
    if at + 1 < text.len() {
        long_sign(text[at], text[at + 1])
    } else {
        None
    }
}

/// The sign of one byte at a place.
fn short_sign_at(text: &[u8], at: usize) -> Option<u8>
    requires inside { at < length text.now }
    requires no_slash { slice_index text.now at ≢ slash }
    ensures { MatchOption result ((k : ℕ) → ¬ IsSign text.now at (at + 1) k) (IsSign text.now at (at + 1)) }
{
    short_sign(text[at])
}

/// The sign of two bytes.
#[tactic(auto, unfolding(crate::specs::Spelling::signs))]
fn long_sign(first: u8, second: u8) -> Option<u8>
    ensures { MatchOption result ((k : ℕ) → slice_get signs k ≢ Some (first ∷ second ∷ []))
        (λ k. slice_get signs k ≡ Some (first ∷ second ∷ [])) }
{
    match (first, second) {
        (b'=', b'=') => Some(sign::EQUAL),
        (b'!', b'=') => Some(sign::NOT_EQUAL),
        (b'<', b'=') => Some(sign::LESS_OR_EQUAL),
        (b'>', b'=') => Some(sign::GREATER_OR_EQUAL),
        (b'<', b'<') => Some(sign::SHIFT_LEFT),
        (b'>', b'>') => Some(sign::SHIFT_RIGHT),
        _ => None,
    }
}

/// The sign of one byte.
#[tactic(auto, unfolding(crate::specs::Spelling::signs))]
fn short_sign(byte: u8) -> Option<u8>
    ensures { MatchOption result ((k : ℕ) → slice_get signs k ≢ Some (byte ∷ [])) (λ k. slice_get signs k ≡ Some (byte ∷ [])) }
{
    match byte {
        b'(' => Some(sign::OPEN_PAREN),
        b')' => Some(sign::CLOSE_PAREN),
        b'[' => Some(sign::OPEN_BRACKET),
        b']' => Some(sign::CLOSE_BRACKET),
        b',' => Some(sign::COMMA),
        b'.' => Some(sign::DOT),
        b':' => Some(sign::COLON),
        b'=' => Some(sign::ASSIGN),
        b'<' => Some(sign::LESS),
        b'>' => Some(sign::GREATER),
        b'+' => Some(sign::PLUS),
        b'-' => Some(sign::MINUS),
        b'*' => Some(sign::STAR),
        b'/' => Some(sign::SLASH),
        b'%' => Some(sign::PERCENT),
        b'&' => Some(sign::AMPERSAND),
        b'|' => Some(sign::BAR),
        b'^' => Some(sign::CARET),
        b'~' => Some(sign::TILDE),
        b'@' => Some(sign::AT),
        b'{' => Some(sign::OPEN_BRACE),
        b'}' => Some(sign::CLOSE_BRACE),
        _ => None,
    }
}
