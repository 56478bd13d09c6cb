//! Operators by their tokens, and how tightly they bind.

ghost use Rattle.std.specs.Prelude.{◌≡◌, ◌≤◌, false, IfSome, IsNone};
ghost use Rattle.bl_parse_syntax.specs.Grammar.{class_of};
ghost use Rattle.bl_parse_syntax.specs.Tables.{has};
ghost use Rattle.bl_parse.specs.Operators.{IsOperator, begins_expr, left_level, operator_classes};

use bl_lex::sign;
use bl_tree::scalar::Op;
use bl_tree::token::{Keyword, TokenKind};

/// The level of a comparison, of which none is an operand of another without parentheses.
const COMPARING: u8 = 2;

/// An operator with two operands.
#[derive(Clone, Copy, PartialEq, Eq, Debug)]
pub struct Infix {
    /// How tightly it binds, from 0 to 8.
    pub level: u8,
    pub op: Op,
}

impl Infix {
    /// The level that its left operand has at least.
    pub fn left_level(self) -> u8
        ensures { result ≡ left_level self.level }
    {
        if self.level == COMPARING {
            3
        } else {
            self.level
        }
    }
}

pub fn infix_of(kind: TokenKind) -> Option<Infix>
    ensures is { IfSome result (λ found. IsOperator kind found.level found.op) }
    ensures level { IfSome result (λ found. found.level ≤ 8) }
    ensures none { IsNone result → has operator_classes (class_of kind) ≡ false }
{
    let (level, op) = match kind {
        TokenKind::Word(word) => return infix_of_word(word),
        TokenKind::Sign(sign::EQUAL) => (COMPARING, Op::Eq),
        TokenKind::Sign(sign::NOT_EQUAL) => (COMPARING, Op::Ne),
        TokenKind::Sign(sign::LESS) => (COMPARING, Op::Lt),
        TokenKind::Sign(sign::LESS_OR_EQUAL) => (COMPARING, Op::Le),
        TokenKind::Sign(sign::GREATER) => (COMPARING, Op::Gt),
        TokenKind::Sign(sign::GREATER_OR_EQUAL) => (COMPARING, Op::Ge),
        TokenKind::Sign(sign::BAR) => (3, Op::BitOr),
        TokenKind::Sign(sign::CARET) => (4, Op::BitXor),
        TokenKind::Sign(sign::AMPERSAND) => (5, Op::BitAnd),
        TokenKind::Sign(sign::SHIFT_LEFT) => (6, Op::Shl),
        TokenKind::Sign(sign::SHIFT_RIGHT) => (6, Op::Shr),
        TokenKind::Sign(sign::PLUS) => (7, Op::Add),
        TokenKind::Sign(sign::MINUS) => (7, Op::Sub),
        TokenKind::Sign(sign::STAR) => (8, Op::Mul),
        TokenKind::Sign(sign::SLASH) => (8, Op::Div),
        TokenKind::Sign(sign::PERCENT) => (8, Op::Rem),
        _ => return None,
    };
    Some(Infix { level, op })
}

fn infix_of_word(word: Keyword) -> Option<Infix>
    ensures is { IfSome result (λ found. IsOperator (TokenKind.Word word) found.level found.op) }
    ensures level { IfSome result (λ found. found.level ≤ 8) }
    ensures none { IsNone result → has operator_classes (class_of (TokenKind.Word word)) ≡ false }
{
    let (level, op) = match word {
        Keyword::Or => (0, Op::Or),
        Keyword::And => (1, Op::And),
        _ => return None,
    };
    Some(Infix { level, op })
}

/// Whether an expression may begin with a token of this kind.
pub fn begins_expr(kind: TokenKind) -> bool
    ensures { result ≡ begins_expr kind }
{
    match kind {
        TokenKind::Name | TokenKind::Number(_) => true,
        TokenKind::Sign(k) => k == sign::OPEN_PAREN || k == sign::MINUS || k == sign::TILDE,
        TokenKind::Word(k) => k == Keyword::Not
            || k == Keyword::True
            || k == Keyword::False
            || k == Keyword::Prev,
    }
}
