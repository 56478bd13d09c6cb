//! The walk over the text, from piece to piece.

ghost use Rattle.std.specs.Prelude.{◌≡◌, ℕ, ◌≤◌, ◌==◌, ◌↔◌, List, [], ◌++◌, length, count_by, IsTrue};
ghost use Rattle.std.specs.Prelude.{IfOk, IfErr, OnOk, MatchResult};
ghost use Rattle.bl_lex.specs.declared.sign.TheConstants.{OPEN_BRACKET};
ghost use Rattle.bl_lex.specs.Pieces.{line_feed};
ghost use Rattle.bl_lex.specs.Tokens.{LexedPiece, Lexes};
ghost use Rattle.bl_tree.specs.Rules.{IsCause};
ghost use Rattle.bl_lex.specs.Rules.{Fails, Passes};
ghost use Rattle.bl_lex.specs.inner.Steps.{IsLongestAt};
ghost use Rattle.bl_lex.specs.inner.Walk.{IsBefore, IsLeftOutAfter, IsScanned, NextBefore, earlier, token_with};

use crate::piece::{Form, Piece, piece_at, place_between};
use crate::sign;
use bl_tree::token::{Token, TokenKind};
use bl_tree::{List, Place, Refusal, Rule};
use std::alloc::{AllocError, Global};

/// The most bytes that a text may have.
const MOST_BYTES: usize = 1_048_576;

/// The tokens of a text. It refuses a text that is too long, that isn't made of tokens, blanks and comments,
/// or that has a token which the profile leaves out (docs/LANGUAGE.md, "Rules": Size, Lex and Profile).
pub fn lex(alloc: Global, text: &[u8]) -> Result<Vec<Token>, Refusal>
    ensures tokens { IfOk result (λ tokens. Lexes text.now tokens.items) }
    ensures passes { OnOk result (Passes text.now) }
    ensures refusal { IfErr result (IsCause (Fails text.now)) }
{
    if text.len() > MOST_BYTES {
        return Err(failed(alloc, Rule::Size, place_between(MOST_BYTES, MOST_BYTES + 1)));
    }
    let mut scan = Scan::new(alloc);
    let mut at: usize = 0;
    while at < text.len() {
        let piece = match piece_at(text, at) {
            Ok(piece) => piece,
            Err(place) => return Err(failed(alloc, Rule::Lex, place)),
        };
        if scan.take(text, at, piece).is_err() {
            return Err(Refusal::NoMemory);
        }
        at = piece.end;
    }
    scan.finish(alloc)
}

fn failed(alloc: Global, rule: Rule, place: Place) -> Refusal
    ensures { result ≡ Refusal.Rule rule place [] }
{
    Refusal::Rule {
        rule,
        place,
        also: List::new(alloc),
    }
}

/// How far the tokens so far end with `@ [`.
#[derive(Clone, Copy, PartialEq, Eq, Debug)]
enum Before {
    Other,
    At,
    AtBracket,
}

/// What was found up to a place.
#[derive(Drop)]
pub struct Scan {
    pub tokens: Vec<Token>,
    line: u32,
    before: Before,
    /// The first token that the profile leaves out.
    left_out: Option<Place>,
}

impl Scan {
    pub fn new(alloc: Global) -> Scan
        ensures { (text : List ℕ) → IsScanned text 0 result }
    {
        Scan {
            tokens: Vec::new(alloc),
            line: 0,
            before: Before::Other,
            left_out: None,
        }
    }

    /// Adds the piece that stands next.
    pub fn take(&mut self, text: &[u8], start: usize, piece: Piece) -> Result<(), AllocError>
        requires short { length text.now ≤ 1048576 }
        requires longest { IsLongestAt text.now start piece }
        requires scanned { IsScanned text.now start self.old }
        ensures { OnOk result (IsScanned text.now piece.end self.new) }
    {
        let place = place_between(start, piece.end);
        let bytes = &text[start..piece.end];
        push_token(&mut self.tokens, piece.form, place, self.line)?;
        let left_out = is_left_out(bytes, piece.form, self.before);
        self.left_out = earlier(self.left_out, left_out, place);
        self.before = before_next(self.before, piece.form);
        self.line += line_feeds(bytes);
        Ok(())
    }

    fn finish(self, alloc: Global) -> Result<Vec<Token>, Refusal>
        ensures { (text : List ℕ) → length text ≤ 1048576 → IsScanned text (length text) self
            → MatchResult result (λ tokens. Lexes text tokens.items × Passes text) (IsCause (Fails text)) }
    {
        match self.left_out {
            Some(place) => Err(failed(alloc, Rule::Profile, place)),
            None => Ok(self.tokens),
        }
    }
}

/// Adds the token that a piece of this form is, if it is one.
fn push_token(
    tokens: &mut Vec<Token>,
    form: Form,
    place: Place,
    line: u32,
) -> Result<(), AllocError>
    ensures { OnOk result (tokens.new.items ≡ tokens.old.items ++ token_with form place line) }
{
    if let Form::Token(kind) = form {
        tokens.push(Token { kind, place, line })?;
    }
    Ok(())
}

/// The place found before, or else this one where its token is left out.
fn earlier(found: Option<Place>, left_out: bool, place: Place) -> Option<Place>
    ensures { result ≡ earlier found left_out place }
{
    if found.is_none() && left_out {
        Some(place)
    } else {
        found
    }
}

fn line_feeds(bytes: &[u8]) -> u32
    requires { length bytes.now ≤ 1048576 }
    ensures { result ≡ count_by (λ byte. byte == line_feed) bytes.now }
{
    bytes.iter().filter(|byte| **byte == b'\n').count() as u32
}

fn is_left_out(bytes: &[u8], form: Form, before: Before) -> bool
    ensures { IsTrue result ↔ IsLeftOutAfter before form bytes.now }
{
    match form {
        Form::Blank | Form::Comment => false,
        Form::Outside => true,
        Form::Token(TokenKind::Sign(sign)) => {
            sign == sign::OPEN_BRACE || sign == sign::CLOSE_BRACE
        }
        Form::Token(TokenKind::Name) => {
            before == Before::AtBracket && bytes != b"EntryPoint".as_slice()
        }
        Form::Token(_) => false,
    }
}

fn before_next(before: Before, form: Form) -> Before
    ensures { NextBefore before form result }
{
    match form {
        Form::Blank | Form::Comment => before,
        Form::Token(TokenKind::Sign(sign)) => after_sign(before, sign),
        Form::Token(TokenKind::Name | TokenKind::Number(_) | TokenKind::Word(_)) | Form::Outside =>
            { Before::Other }
    }
}

fn after_sign(before: Before, sign: u8) -> Before
    ensures { NextBefore before (Form.Token (TokenKind.Sign sign)) result }
{
    if sign == sign::AT {
        Before::At
    } else if sign == sign::OPEN_BRACKET {
        after_bracket(before)
    } else {
        Before::Other
    }
}

fn after_bracket(before: Before) -> Before
    ensures { NextBefore before (Form.Token (TokenKind.Sign OPEN_BRACKET)) result }
{
    match before {
        Before::At => Before::AtBracket,
        Before::Other | Before::AtBracket => Before::Other,
    }
}
