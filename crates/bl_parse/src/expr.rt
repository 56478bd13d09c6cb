//! Expressions: a loop over the operators of a level and tighter ones, and a function for each kind of operand.

ghost use Rattle.std.specs.Prelude.{◌≡◌, ◌+◌, ◌<◌, ◌≤◌, ℕ, [], ◌∷◌, Some, length, false, IfOk, OnOk};
ghost use Rattle.std.specs.Prelude.{IfSome, IsSome, IsNone, IsTrue, ◌&&◌, nat_le};
ghost use Rattle.bl_tree.specs.declared.scalar.Op.{Op};
ghost use Rattle.bl_tree.specs.declared.token.TokenKind.{TokenKind};
ghost use Rattle.bl_parse_tree.specs.declared.expr.RawExprKind as kind;
ghost use Rattle.bl_parse_syntax.specs.declared.grammar.Part.{Part};
ghost use Rattle.bl_parse_syntax.specs.Grammar.{the};
ghost use Rattle.bl_parse_syntax.specs.Grammar as grammar;
ghost use Rattle.bl_lex.specs.declared.sign.TheConstants.{OPEN_PAREN, CLOSE_PAREN, OPEN_BRACKET, CLOSE_BRACKET};
ghost use Rattle.bl_parse.specs.At.{kind_at, span, SpellsName, Takes};
ghost use Rattle.bl_parse.specs.Expressions.{expr, is_number, IsTruth, SpellsExpr, SpellsTarget, SpellsPart, SpellsParts, SpellsInputs, SpellsExprs};
ghost use Rattle.bl_parse.specs.Expressions.{SpellsNone};
ghost use Rattle.bl_parse.specs.Operators.{left_level, operator_classes, NoInfix, SpellsInfix, SpellsPrefix};
ghost use Rattle.bl_parse.specs.inner.Reading.{accessing, next_among, just, operand, Awaits, AwaitsTail, KeepsTail, NoneNext, Turns};

use crate::name::name;
use crate::operator::{Infix, infix_of};
use crate::source::Source;
use crate::types::read_scalar;
use bl_lex::sign;
use bl_parse_tree::expr::{RawExpr, RawExprKind, RawPart, RawTarget};
use bl_parse_tree::name::Name;
use bl_tree::token::{Keyword, TokenKind};
use bl_tree::{Box, List, NoMemory, Op};

/// The level of `as`, which binds more tightly than all operators with two operands.
const CASTING: u8 = 9;

/// Reads an expression.
#[cycle(expressions)]
pub fn read_expr(source: &Source, at: &mut usize) -> Result<RawExpr, NoMemory>
    requires awaits { Awaits (just Part.Expr) source.now.tokens.now at.old }
    ensures spelled { IfOk result (λ e. SpellsExpr source.now.text.now source.now.tokens.now 0 e at.old at.new) }
    ensures follows { OnOk result (Turns (just Part.Expr) source.now.tokens.now at.old [] at.new) }
    ensures ahead { OnOk result (at.old < at.new) }
{
    expr_of(source, at, 0)
}

/// Reads an expression in which no operator outside of parentheses binds more loosely than the level.
#[cycle(expressions)]
fn expr_of(source: &Source, at: &mut usize, level: u8) -> Result<RawExpr, NoMemory>
    requires known { level ≤ 9 }
    requires awaits { Awaits (the (operand level) ∷ []) source.now.tokens.now at.old }
    ensures spelled { IfOk result (λ e. SpellsExpr source.now.text.now source.now.tokens.now level e at.old at.new) }
    ensures follows { OnOk result (Turns (the (operand level) ∷ []) source.now.tokens.now at.old [] at.new) }
    ensures ahead { OnOk result (at.old < at.new) }
{
    let from = *at;
    let mut left = cast(source, at)?;
    let mut bound = CASTING;
    'operators: while let Some(infix) = next_infix(source, *at, level, bound) {
        *at += 1;
        let right = expr_of(source, at, infix.level + 1)?;
        left = two(source, from, *at, infix.op, left, right)?;
        bound = infix.level;
    }
    Ok(left)
}

/// The operator at the position, where it binds as tightly as the level and takes a left operand of the bound.
fn next_infix(source: &Source, at: usize, level: u8, bound: u8) -> Option<Infix>
    ensures spelled { IfSome result (λ found. SpellsInfix source.now.tokens.now found.level found.op at (at + 1)) }
    ensures tight { IfSome result (λ found. level ≤ found.level) }
    ensures below { IfSome result (λ found. found.level ≤ 8) }
    ensures left { IfSome result (λ found. left_level found.level ≤ bound) }
    ensures none { IsNone result → NoInfix source.now.tokens.now level bound at }
    ensures inside { IsSome result → at < length source.now.tokens.now }
{
    match infix_at(source, at) {
        Some(found) => if takes(found, level, bound) {
            Some(found)
        } else {
            None
        },
        None => None,
    }
}

/// Whether the operator binds as tightly as the level and takes a left operand of the bound.
fn takes(found: Infix, level: u8, bound: u8) -> bool
    ensures { result ≡ nat_le level found.level && nat_le (left_level found.level) bound }
{
    level <= found.level && found.left_level() <= bound
}

fn infix_at(source: &Source, at: usize) -> Option<Infix>
    ensures spelled { IfSome result (λ found. SpellsInfix source.now.tokens.now found.level found.op at (at + 1)) }
    ensures below { IfSome result (λ found. found.level ≤ 8) }
    ensures none { IsNone result → next_among operator_classes (kind_at source.now.tokens.now at) ≡ false }
    ensures inside { IsSome result → at < length source.now.tokens.now }
{
    match source.kind_at(at) {
        Some(kind) => infix_of(kind),
        None => None,
    }
}

fn two(
    source: &Source,
    from: usize,
    to: usize,
    op: Op,
    left: RawExpr,
    right: RawExpr,
) -> Result<RawExpr, NoMemory>
    ensures { IfOk result (λ e. e ≡ expr (span source.now.tokens.now from to) (kind.Two op left right)) }
{
    let place = source.span(from, to);
    let left = Box::new(source.alloc, left)?;
    let right = Box::new(source.alloc, right)?;
    Ok(RawExpr {
        place,
        what: RawExprKind::Two(op, left, right),
    })
}

/// An operand with its casts.
#[cycle(expressions)]
fn cast(source: &Source, at: &mut usize) -> Result<RawExpr, NoMemory>
    requires awaits { Awaits (just Part.Cast) source.now.tokens.now at.old }
    ensures spelled { IfOk result (λ e. SpellsExpr source.now.text.now source.now.tokens.now 9 e at.old at.new) }
    ensures follows { OnOk result (Turns (just Part.Cast) source.now.tokens.now at.old [] at.new) }
    ensures ahead { OnOk result (at.old < at.new) }
{
    let from = *at;
    let mut e = unary(source, at)?;
    'casts: while source.stands(*at, TokenKind::Word(Keyword::As)) {
        source.take(at, TokenKind::Word(Keyword::As));
        e = one_cast(source, at, from, e)?;
    }
    Ok(e)
}

/// The operand, which began at a position, with the type behind an `as`.
fn one_cast(
    source: &Source,
    at: &mut usize,
    from: usize,
    operand: RawExpr,
) -> Result<RawExpr, NoMemory>
    requires awaits { Awaits (just Part.Scalar) source.now.tokens.now at.old }
    ensures spelled { IfOk result (λ e. (k : ℕ) → SpellsExpr source.now.text.now source.now.tokens.now 9 operand from k
        → Takes source.now.tokens.now (TokenKind.Word Keyword.As) k at.old → SpellsExpr source.now.text.now source.now.tokens.now 9 e from at.new) }
    ensures follows { OnOk result (Turns (just Part.Scalar) source.now.tokens.now at.old [] at.new) }
    ensures next { OnOk result (at.new ≡ at.old + 1) }
{
    let target = read_scalar(source, at)?;
    let place = source.span(from, *at);
    let operand = Box::new(source.alloc, operand)?;
    Ok(RawExpr {
        place,
        what: RawExprKind::Cast(target, operand),
    })
}

/// An operand with the operators before it.
#[cycle(expressions)]
fn unary(source: &Source, at: &mut usize) -> Result<RawExpr, NoMemory>
    requires awaits { Awaits (just Part.Unary) source.now.tokens.now at.old }
    ensures spelled { IfOk result (λ e. SpellsExpr source.now.text.now source.now.tokens.now 10 e at.old at.new) }
    ensures follows { OnOk result (Turns (just Part.Unary) source.now.tokens.now at.old [] at.new) }
    ensures ahead { OnOk result (at.old < at.new) }
{
    if source.stands(*at, TokenKind::Sign(sign::MINUS)) {
        negative(source, at)
    } else if source.stands(*at, TokenKind::Sign(sign::TILDE)) {
        one(source, at, Op::BitNot)
    } else if source.stands(*at, TokenKind::Word(Keyword::Not)) {
        one(source, at, Op::Not)
    } else {
        let e = primary(source, at)?;
        Ok(e)
    }
}

/// A minus with the number that it belongs to, or with its operand.
#[cycle(expressions)]
fn negative(source: &Source, at: &mut usize) -> Result<RawExpr, NoMemory>
    requires inside { at.old < length source.now.tokens.now }
    requires minus { SpellsPrefix source.now.tokens.now Op.Minus at.old (at.old + 1) }
    requires awaits { Awaits (just Part.Unary) source.now.tokens.now at.old }
    ensures spelled { IfOk result (λ e. SpellsExpr source.now.text.now source.now.tokens.now 10 e at.old at.new) }
    ensures follows { OnOk result (Turns (just Part.Unary) source.now.tokens.now at.old [] at.new) }
    ensures ahead { OnOk result (at.old < at.new) }
{
    match source.number_at(*at + 1) {
        Some(value) => {
            let from = *at;
            *at += 2;
            Ok(RawExpr {
                place: source.span(from, *at),
                what: RawExprKind::Number(true, value),
            })
        }
        None => one(source, at, Op::Minus),
    }
}

/// The operator that stands next, with its operand.
#[cycle(expressions)]
fn one(source: &Source, at: &mut usize, op: Op) -> Result<RawExpr, NoMemory>
    requires inside { at.old < length source.now.tokens.now }
    requires prefix { SpellsPrefix source.now.tokens.now op at.old (at.old + 1) }
    requires no_number { op ≡ Op.Minus → is_number (kind_at source.now.tokens.now (at.old + 1)) ≡ false }
    requires awaits { Awaits (just Part.Unary) source.now.tokens.now at.old }
    ensures spelled { IfOk result (λ e. SpellsExpr source.now.text.now source.now.tokens.now 10 e at.old at.new) }
    ensures follows { OnOk result (Turns (just Part.Unary) source.now.tokens.now at.old [] at.new) }
    ensures ahead { OnOk result (at.old < at.new) }
{
    let from = *at;
    *at += 1;
    let operand = unary(source, at)?;
    let place = source.span(from, *at);
    let operand = Box::new(source.alloc, operand)?;
    Ok(RawExpr {
        place,
        what: RawExprKind::One(op, operand),
    })
}

/// An operand without operators outside of parentheses.
#[cycle(expressions)]
fn primary(source: &Source, at: &mut usize) -> Result<RawExpr, NoMemory>
    requires awaits { Awaits (just Part.Primary) source.now.tokens.now at.old }
    ensures spelled { IfOk result (λ e. SpellsExpr source.now.text.now source.now.tokens.now 10 e at.old at.new) }
    ensures follows { OnOk result (Turns (just Part.Primary) source.now.tokens.now at.old [] at.new) }
    ensures ahead { OnOk result (at.old < at.new) }
{
    match source.kind_at(*at) {
        Some(TokenKind::Name) => named(source, at),
        Some(TokenKind::Number(value)) => Ok(number(source, at, value)),
        Some(TokenKind::Sign(_)) => {
            let e = in_parentheses(source, at)?;
            Ok(e)
        }
        Some(TokenKind::Word(k)) => led(source, at, k),
        None => unreachable!(),
    }
}

/// A number without a minus that belongs to it.
fn number(source: &Source, at: &mut usize, value: u128) -> RawExpr
    requires awaits { Awaits (just Part.Primary) source.now.tokens.now at.old }
    requires stands { kind_at source.now.tokens.now at.old ≡ Some (TokenKind.Number value) }
    ensures spelled { SpellsExpr source.now.text.now source.now.tokens.now 10 result at.old at.new }
    ensures follows { Turns (just Part.Primary) source.now.tokens.now at.old [] at.new }
    ensures ahead { at.old < at.new }
{
    let from = *at;
    source.take(at, TokenKind::Number(value));
    RawExpr {
        place: source.span(from, *at),
        what: RawExprKind::Number(false, value),
    }
}

/// An operand that begins with this keyword.
fn led(source: &Source, at: &mut usize, k: Keyword) -> Result<RawExpr, NoMemory>
    requires awaits { Awaits (just Part.Primary) source.now.tokens.now at.old }
    requires stands { kind_at source.now.tokens.now at.old ≡ Some (TokenKind.Word k) }
    ensures spelled { IfOk result (λ e. SpellsExpr source.now.text.now source.now.tokens.now 10 e at.old at.new) }
    ensures follows { OnOk result (Turns (just Part.Primary) source.now.tokens.now at.old [] at.new) }
    ensures ahead { OnOk result (at.old < at.new) }
{
    if k == Keyword::Prev {
        previous(source, at)
    } else if k == Keyword::True {
        Ok(truth(source, at, Keyword::True, true))
    } else {
        Ok(truth(source, at, Keyword::False, false))
    }
}

/// A truth, by its word.
fn truth(source: &Source, at: &mut usize, k: Keyword, b: bool) -> RawExpr
    requires awaits { Awaits (just Part.Primary) source.now.tokens.now at.old }
    requires stands { kind_at source.now.tokens.now at.old ≡ Some (TokenKind.Word k) }
    requires is { IsTruth (TokenKind.Word k) b }
    ensures spelled { SpellsExpr source.now.text.now source.now.tokens.now 10 result at.old at.new }
    ensures follows { Turns (just Part.Primary) source.now.tokens.now at.old [] at.new }
    ensures ahead { at.old < at.new }
{
    let from = *at;
    source.take(at, TokenKind::Word(k));
    RawExpr {
        place: source.span(from, *at),
        what: RawExprKind::Truth(b),
    }
}

fn previous(source: &Source, at: &mut usize) -> Result<RawExpr, NoMemory>
    requires awaits { Awaits (just Part.Primary) source.now.tokens.now at.old }
    requires stands { kind_at source.now.tokens.now at.old ≡ Some (TokenKind.Word Keyword.Prev) }
    ensures spelled { IfOk result (λ e. SpellsExpr source.now.text.now source.now.tokens.now 10 e at.old at.new) }
    ensures follows { OnOk result (Turns (just Part.Primary) source.now.tokens.now at.old [] at.new) }
    ensures ahead { OnOk result (at.old < at.new) }
{
    let from = *at;
    source.take(at, TokenKind::Word(Keyword::Prev));
    let variable = name(source, at)?;
    Ok(RawExpr {
        place: source.span(from, *at),
        what: RawExprKind::Prev(variable),
    })
}

#[cycle(expressions)]
fn in_parentheses(source: &Source, at: &mut usize) -> Result<RawExpr, NoMemory>
    requires awaits { Awaits (grammar.sign OPEN_PAREN ∷ the Part.Expr ∷ grammar.sign CLOSE_PAREN ∷ []) source.now.tokens.now at.old }
    ensures spelled { IfOk result (λ e. SpellsExpr source.now.text.now source.now.tokens.now 10 e at.old at.new) }
    ensures follows { OnOk result
        (Turns (grammar.sign OPEN_PAREN ∷ the Part.Expr ∷ grammar.sign CLOSE_PAREN ∷ []) source.now.tokens.now at.old [] at.new) }
    ensures ahead { OnOk result (at.old < at.new) }
{
    source.take(at, TokenKind::Sign(sign::OPEN_PAREN));
    let e = read_expr(source, at)?;
    source.take(at, TokenKind::Sign(sign::CLOSE_PAREN));
    Ok(e)
}

/// A call or a target.
#[cycle(expressions)]
fn named(source: &Source, at: &mut usize) -> Result<RawExpr, NoMemory>
    requires awaits { Awaits (just Part.Primary) source.now.tokens.now at.old }
    requires stands { kind_at source.now.tokens.now at.old ≡ Some (TokenKind.Name) }
    ensures spelled { IfOk result (λ e. SpellsExpr source.now.text.now source.now.tokens.now 10 e at.old at.new) }
    ensures follows { OnOk result (Turns (just Part.Primary) source.now.tokens.now at.old [] at.new) }
    ensures ahead { OnOk result (at.old < at.new) }
{
    let from = *at;
    let root = name(source, at)?;
    if source.stands(*at, TokenKind::Sign(sign::OPEN_PAREN)) {
        let call = called(source, at, from, root)?;
        Ok(call)
    } else {
        let value = read(source, at, from, root)?;
        Ok(value)
    }
}

/// The call of a function whose name was read at a position.
#[cycle(expressions)]
fn called(source: &Source, at: &mut usize, from: usize, function: Name) -> Result<RawExpr, NoMemory>
    requires name { SpellsName source.now.text.now source.now.tokens.now function from at.old }
    requires next { at.old ≡ from + 1 }
    requires awaits { Awaits (the Part.Inputs ∷ the Part.NoOutputs ∷ []) source.now.tokens.now at.old }
    ensures spelled { IfOk result (λ e. SpellsExpr source.now.text.now source.now.tokens.now 10 e from at.new) }
    ensures follows { OnOk result (Turns (the Part.Inputs ∷ the Part.NoOutputs ∷ []) source.now.tokens.now at.old [] at.new) }
    ensures ahead { OnOk result (from < at.new) }
{
    let inputs = read_inputs(source, at)?;
    no_outputs(source, at)?;
    Ok(RawExpr {
        place: source.span(from, *at),
        what: RawExprKind::Call(function, inputs),
    })
}

/// Passes `( )` where a parenthesis stands.
fn no_outputs(source: &Source, at: &mut usize) -> Result<(), NoMemory>
    requires awaits { Awaits (just Part.NoOutputs) source.now.tokens.now at.old }
    ensures spelled { OnOk result (SpellsNone source.now.tokens.now at.old at.new) }
    ensures follows { OnOk result (Turns (just Part.NoOutputs) source.now.tokens.now at.old [] at.new) }
    ensures ahead { OnOk result (at.old ≤ at.new) }
{
    if source.stands(*at, TokenKind::Sign(sign::OPEN_PAREN)) {
        source.take(at, TokenKind::Sign(sign::OPEN_PAREN));
        source.take(at, TokenKind::Sign(sign::CLOSE_PAREN));
        Ok(())
    } else {
        Ok(())
    }
}

/// The value of a target whose root was read at a position.
#[cycle(expressions)]
fn read(source: &Source, at: &mut usize, from: usize, root: Name) -> Result<RawExpr, NoMemory>
    requires name { SpellsName source.now.text.now source.now.tokens.now root from at.old }
    requires next { at.old ≡ from + 1 }
    requires awaits { Awaits (just Part.Accesses) source.now.tokens.now at.old }
    ensures spelled { IfOk result (λ e. SpellsExpr source.now.text.now source.now.tokens.now 10 e from at.new) }
    ensures follows { OnOk result (Turns (just Part.Accesses) source.now.tokens.now at.old [] at.new) }
    ensures ahead { OnOk result (from < at.new) }
{
    let target = target_of(source, at, from, root)?;
    Ok(RawExpr {
        place: source.span(from, *at),
        what: RawExprKind::Read(target),
    })
}

/// The target whose root was read at a position.
#[cycle(expressions)]
pub fn target_of(
    source: &Source,
    at: &mut usize,
    from: usize,
    root: Name,
) -> Result<RawTarget, NoMemory>
    requires name { SpellsName source.now.text.now source.now.tokens.now root from at.old }
    requires next { at.old ≡ from + 1 }
    requires awaits { AwaitsTail source.now.tokens.now at.old }
    ensures spelled { IfOk result (λ target. SpellsTarget source.now.text.now source.now.tokens.now target from at.new) }
    ensures keeps { OnOk result (KeepsTail source.now.tokens.now at.old at.new) }
    ensures ends { OnOk result (NoneNext accessing source.now.tokens.now at.new) }
    ensures ahead { OnOk result (from < at.new) }
{
    let parts = read_parts(source, at)?;
    Ok(RawTarget {
        place: source.span(from, *at),
        root,
        parts,
    })
}

#[cycle(expressions)]
fn read_parts(source: &Source, at: &mut usize) -> Result<List<RawPart>, NoMemory>
    requires awaits { AwaitsTail source.now.tokens.now at.old }
    ensures spelled { IfOk result (λ parts. SpellsParts source.now.text.now source.now.tokens.now parts at.old at.new) }
    ensures keeps { OnOk result (KeepsTail source.now.tokens.now at.old at.new) }
    ensures ends { OnOk result (NoneNext accessing source.now.tokens.now at.new) }
    ensures ahead { OnOk result (at.old ≤ at.new) }
{
    let mut parts = List::new(source.alloc);
    'parts: while is_part(source, *at) {
        parts.push(read_part(source, at)?)?;
    }
    Ok(parts)
}

fn is_part(source: &Source, at: usize) -> bool
    ensures among { result ≡ next_among accessing (kind_at source.now.tokens.now at) }
    ensures inside { IsTrue result → at < length source.now.tokens.now }
{
    match source.kind_at(at) {
        Some(TokenKind::Sign(k)) => k == sign::DOT || k == sign::OPEN_BRACKET,
        Some(TokenKind::Name | TokenKind::Number(_) | TokenKind::Word(_)) | None => false,
    }
}

#[cycle(expressions)]
fn read_part(source: &Source, at: &mut usize) -> Result<RawPart, NoMemory>
    requires awaits { Awaits (just Part.Access) source.now.tokens.now at.old }
    ensures spelled { IfOk result (λ part. SpellsPart source.now.text.now source.now.tokens.now part at.old at.new) }
    ensures follows { OnOk result (Turns (just Part.Access) source.now.tokens.now at.old [] at.new) }
    ensures ahead { OnOk result (at.old < at.new) }
{
    if source.stands(*at, TokenKind::Sign(sign::DOT)) {
        source.take(at, TokenKind::Sign(sign::DOT));
        Ok(RawPart::Field(name(source, at)?))
    } else {
        let part = index(source, at)?;
        Ok(part)
    }
}

#[cycle(expressions)]
fn index(source: &Source, at: &mut usize) -> Result<RawPart, NoMemory>
    requires awaits { Awaits (grammar.sign OPEN_BRACKET ∷ the Part.Expr ∷ grammar.sign CLOSE_BRACKET ∷ []) source.now.tokens.now at.old }
    ensures spelled { IfOk result (λ part. SpellsPart source.now.text.now source.now.tokens.now part at.old at.new) }
    ensures follows { OnOk result
        (Turns (grammar.sign OPEN_BRACKET ∷ the Part.Expr ∷ grammar.sign CLOSE_BRACKET ∷ []) source.now.tokens.now at.old [] at.new) }
    ensures ahead { OnOk result (at.old < at.new) }
{
    source.take(at, TokenKind::Sign(sign::OPEN_BRACKET));
    let e = read_expr(source, at)?;
    source.take(at, TokenKind::Sign(sign::CLOSE_BRACKET));
    Ok(RawPart::Index(e))
}

/// Reads expressions in parentheses.
#[cycle(expressions)]
pub fn read_inputs(source: &Source, at: &mut usize) -> Result<List<RawExpr>, NoMemory>
    requires awaits { Awaits (just Part.Inputs) source.now.tokens.now at.old }
    ensures spelled { IfOk result (λ inputs. SpellsInputs source.now.text.now source.now.tokens.now inputs at.old at.new) }
    ensures follows { OnOk result (Turns (just Part.Inputs) source.now.tokens.now at.old [] at.new) }
    ensures ahead { OnOk result (at.old < at.new) }
{
    source.take(at, TokenKind::Sign(sign::OPEN_PAREN));
    if source.stands(*at, TokenKind::Sign(sign::CLOSE_PAREN)) {
        source.take(at, TokenKind::Sign(sign::CLOSE_PAREN));
        Ok(List::new(source.alloc))
    } else {
        let inputs = read_exprs(source, at)?;
        source.take(at, TokenKind::Sign(sign::CLOSE_PAREN));
        Ok(inputs)
    }
}

/// One expression or more.
#[cycle(expressions)]
fn read_exprs(source: &Source, at: &mut usize) -> Result<List<RawExpr>, NoMemory>
    requires awaits { Awaits (the Part.Expr ∷ the Part.InputRest ∷ []) source.now.tokens.now at.old }
    ensures spelled { IfOk result (λ es. SpellsExprs source.now.text.now source.now.tokens.now es at.old at.new) }
    ensures follows { OnOk result (Turns (the Part.Expr ∷ the Part.InputRest ∷ []) source.now.tokens.now at.old [] at.new) }
    ensures ahead { OnOk result (at.old < at.new) }
{
    let mut exprs = List::new(source.alloc);
    exprs.push(read_expr(source, at)?)?;
    'commas: while source.stands(*at, TokenKind::Sign(sign::COMMA)) {
        source.take(at, TokenKind::Sign(sign::COMMA));
        exprs.push(read_expr(source, at)?)?;
    }
    Ok(exprs)
}
