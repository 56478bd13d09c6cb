//! Positions, and the bytes that stand there.

ghost use Rattle.std.specs.Prelude.{◌≡◌, ◌≤◌, length};
ghost use Rattle.bl_lsp_text.specs.Positions.{ends_line, goes_on, precedes, offset_of, position_by, stops};

use crate::stand::Stand;

/// A position in a text (Language Server Protocol 3.17, "Position"), both numbers from 0.
#[derive(Clone, Copy, PartialEq, Eq, Debug)]
pub struct Position {
    pub line: u64,
    /// UTF-16 units of the line.
    pub character: u64,
}

impl Position {
    /// By the lines, and then by the units.
    fn precedes(self, other: Position) -> bool
        ensures { result ≡ precedes self other }
    {
        self.line < other.line || (self.line == other.line && self.character < other.character)
    }
}

/// The position at which a reader stands.
pub fn position_by(stand: Stand) -> Position
    ensures { result ≡ position_by stand }
{
    Position {
        line: stand.line,
        character: stand.unit,
    }
}

/// Whether a byte is within a character, or the line feed of a carriage return.
fn goes_on(stand: Stand, byte: u8) -> bool
    ensures { result ≡ goes_on stand byte }
{
    matches!(byte, 128..=191) || (byte == b'\n' && stand.returned)
}

/// Whether a reader that looks for a position stops before this byte.
fn stops(stand: Stand, target: Position, byte: u8) -> bool
    ensures { result ≡ stops stand target byte }
{
    !goes_on(stand, byte)
        && (!position_by(stand).precedes(target)
            || (stand.line == target.line && matches!(byte, b'\n' | b'\r')))
}

/// The offset of the byte at a position. A position behind a line's end is at that end, one behind the text at the text's end.
pub fn offset_of(text: &[u8], target: Position) -> usize
    ensures value { result ≡ offset_of text.now target }
    ensures within { result ≤ length text.now }
{
    let mut stand = Stand::start();
    let size = text.len();
    for (i, byte) in text.iter().enumerate() {
        if stops(stand, target, *byte) {
            return i;
        }
        stand = stand.passed(*byte);
    }
    size
}
