//! The positions of the signs in their list (docs/LANGUAGE.md, "Tokens"), as `TokenKind::Sign` has them.

/// `(`
pub const OPEN_PAREN: u8 = 0;
/// `)`
pub const CLOSE_PAREN: u8 = 1;
/// `[`
pub const OPEN_BRACKET: u8 = 2;
/// `]`
pub const CLOSE_BRACKET: u8 = 3;
/// `,`
pub const COMMA: u8 = 4;
/// `.`
pub const DOT: u8 = 5;
/// `:`
pub const COLON: u8 = 6;
/// `=`
pub const ASSIGN: u8 = 7;
/// `==`
pub const EQUAL: u8 = 8;
/// `!=`
pub const NOT_EQUAL: u8 = 9;
/// `<`
pub const LESS: u8 = 10;
/// `<=`
pub const LESS_OR_EQUAL: u8 = 11;
/// `>`
pub const GREATER: u8 = 12;
/// `>=`
pub const GREATER_OR_EQUAL: u8 = 13;
/// `+`
pub const PLUS: u8 = 14;
/// `-`
pub const MINUS: u8 = 15;
/// `*`
pub const STAR: u8 = 16;
/// `/`
pub const SLASH: u8 = 17;
/// `%`
pub const PERCENT: u8 = 18;
/// `&`
pub const AMPERSAND: u8 = 19;
/// `|`
pub const BAR: u8 = 20;
/// `^`
pub const CARET: u8 = 21;
/// `~`
pub const TILDE: u8 = 22;
/// `<<`
pub const SHIFT_LEFT: u8 = 23;
/// `>>`
pub const SHIFT_RIGHT: u8 = 24;
/// `@`
pub const AT: u8 = 25;
/// `{`
pub const OPEN_BRACE: u8 = 26;
/// `}`
pub const CLOSE_BRACE: u8 = 27;
