//! How deep tokens nest: blocks that are open, and operators and opening brackets in one run.

ghost use Rattle.std.specs.Prelude.{◌≡◌, ℕ, ◌<◌, List, length, MatchOption};
ghost use Rattle.bl_tree.specs.declared.token.Token.{Token};
ghost use Rattle.bl_parse_syntax.specs.Depth.{is_one_of, is_word_of, opening_words, scalar_words, counted_words, counted_signs, blocks_after, is_counted};
ghost use Rattle.bl_parse_syntax.specs.Depth.{is_last, is_inner_word, begins_run, run_with};
ghost use Rattle.bl_parse_syntax.specs.Rules.{FailsDepth, PassesDepth};

use bl_lex::sign;
use bl_tree::Place;
use bl_tree::token::{Keyword, Token, TokenKind};

/// The most blocks that may be open.
const MOST_BLOCKS: u32 = 100;

/// The most operators and opening brackets of one run.
const MOST_IN_A_RUN: u32 = 200;

/// The place of the first token that is too deep (docs/LANGUAGE.md, "Rules": Depth).
pub fn too_deep(tokens: &[Token]) -> Option<Place>
    ensures { MatchOption result (PassesDepth tokens.now) (FailsDepth tokens.now) }
{
    let mut blocks: u32 = 0;
    let mut run: u32 = 0;
    let mut before: Option<TokenKind> = None;
    for token in tokens {
        blocks = blocks_after(blocks, token.kind);
        run = run_with(run, before, token.kind);
        if blocks > MOST_BLOCKS || run > MOST_IN_A_RUN {
            return Some(token.place);
        }
        before = Some(token.kind);
    }
    None
}

/// The blocks that are open after a token.
fn blocks_after(blocks: u32, kind: TokenKind) -> u32
    requires { blocks < 1000 }
    ensures { result ≡ blocks_after blocks kind }
{
    match kind {
        TokenKind::Word(word) => blocks_after_word(blocks, word),
        TokenKind::Name | TokenKind::Number(_) | TokenKind::Sign(_) => blocks,
    }
}

fn blocks_after_word(blocks: u32, word: Keyword) -> u32
    requires { blocks < 1000 }
    ensures { result ≡ blocks_after blocks (TokenKind.Word word) }
{
    if opens_block(word) {
        blocks + 1
    } else if word == Keyword::End {
        blocks.saturating_sub(1)
    } else {
        blocks
    }
}

/// The operators and opening brackets of the run, with this token.
fn run_with(run: u32, before: Option<TokenKind>, kind: TokenKind) -> u32
    requires { run < 1000 }
    ensures { result ≡ run_with run before kind }
{
    if begins_run(before, kind) {
        0
    } else if is_counted(kind) {
        run + 1
    } else {
        run
    }
}

/// `=`, `@`, a keyword that can't stand in an expression, and a name directly after what one can end with.
fn begins_run(before: Option<TokenKind>, kind: TokenKind) -> bool
    ensures { result ≡ begins_run before kind }
{
    match kind {
        TokenKind::Name => is_after_last(before),
        TokenKind::Number(_) => false,
        TokenKind::Word(word) => !is_inner_word(word),
        TokenKind::Sign(sign) => sign == sign::ASSIGN || sign == sign::AT,
    }
}

fn is_after_last(before: Option<TokenKind>) -> bool
    ensures { result ≡ begins_run before TokenKind.Name }
{
    match before {
        Some(kind) => is_last(kind),
        None => false,
    }
}

/// An expression or type can end with the token.
fn is_last(kind: TokenKind) -> bool
    ensures { result ≡ is_last kind }
{
    match kind {
        TokenKind::Name | TokenKind::Number(_) => true,
        TokenKind::Word(word) => word == Keyword::True || word == Keyword::False || is_scalar(word),
        TokenKind::Sign(sign) => sign == sign::CLOSE_PAREN || sign == sign::CLOSE_BRACKET,
    }
}

fn is_counted(kind: TokenKind) -> bool
    ensures { result ≡ is_counted kind }
{
    match kind {
        TokenKind::Name | TokenKind::Number(_) => false,
        TokenKind::Word(word) => is_word_operator(word),
        TokenKind::Sign(sign) => is_counted_sign(sign),
    }
}

/// The keyword can stand in an expression.
fn is_inner_word(word: Keyword) -> bool
    ensures { result ≡ is_inner_word word }
{
    is_word_operator(word)
        || word == Keyword::True
        || word == Keyword::False
        || word == Keyword::Prev
        || is_scalar(word)
}

fn opens_block(word: Keyword) -> bool
    ensures { result ≡ is_word_of opening_words word }
{
    [
        Keyword::Function,
        Keyword::Activity,
        Keyword::Struct,
        Keyword::If,
        Keyword::Cobegin,
        Keyword::When,
        Keyword::Repeat,
    ]
    .contains(&word)
}

fn is_scalar(word: Keyword) -> bool
    ensures { result ≡ is_word_of scalar_words word }
{
    [
        Keyword::Bool,
        Keyword::Int8,
        Keyword::Int16,
        Keyword::Int32,
        Keyword::Int64,
        Keyword::Nat8,
        Keyword::Nat16,
        Keyword::Nat32,
        Keyword::Nat64,
        Keyword::Bits8,
        Keyword::Bits16,
        Keyword::Bits32,
        Keyword::Bits64,
    ]
    .contains(&word)
}

fn is_word_operator(word: Keyword) -> bool
    ensures { result ≡ is_word_of counted_words word }
{
    [Keyword::And, Keyword::Or, Keyword::Not, Keyword::As].contains(&word)
}

fn is_counted_sign(sign: u8) -> bool
    ensures { result ≡ is_one_of counted_signs sign }
{
    [
        sign::OPEN_PAREN,
        sign::OPEN_BRACKET,
        sign::PLUS,
        sign::MINUS,
        sign::STAR,
        sign::SLASH,
        sign::PERCENT,
        sign::AMPERSAND,
        sign::BAR,
        sign::CARET,
        sign::TILDE,
        sign::SHIFT_LEFT,
        sign::SHIFT_RIGHT,
        sign::EQUAL,
        sign::NOT_EQUAL,
        sign::LESS,
        sign::LESS_OR_EQUAL,
        sign::GREATER,
        sign::GREATER_OR_EQUAL,
    ]
    .contains(&sign)
}
