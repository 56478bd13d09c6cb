//! Operators, casts and calls.

ghost use Rattle.std.specs.Prelude.{◌≡◌, Some, IfOk, slice_get};
ghost use Rattle.bl_emit_acts.specs.Expressions as expressions;

use crate::decided::{hides_right, is_decided, mirrored};
use crate::made::Made;
use crate::parts::{called, literal, negated, prefixed, read, single, two};
use crate::site::UnitSite;
use crate::types::{is_int, word_of};
use bl_tree::c::{CArg, CExpr, CExprKind, CPlace};
use bl_tree::slices::element;
use bl_tree::tree::Unit;
use bl_tree::{List, NoMemory, Op, Scalar, Text};
use std::alloc::Global;

/// What stands at a place, where the type of it is this scalar or has parts.
pub fn standing(s: Option<Scalar>, place: CPlace) -> Made
    ensures { result ≡ expressions.made_at s place }
{
    match s {
        Some(s) => Made::Number(s, read(place)),
        None => Made::Whole(place),
    }
}

/// The type of a number.
pub fn type_made(made: &Made) -> Scalar
    ensures { result ≡ expressions.type_made made.now }
{
    match made {
        Made::Number(s, _) => *s,
        Made::Whole(_) => Scalar::Bool,
    }
}

/// The C expression.
pub fn code(made: Made) -> CExpr
    ensures { result ≡ expressions.code_of made }
{
    match made {
        Made::Number(_, code) => code,
        Made::Whole(place) => read(place),
    }
}

/// An argument.
pub fn argument(made: Made) -> CArg
    ensures { result ≡ expressions.arg_of made }
{
    match made {
        Made::Number(_, code) => CArg::Value(code),
        Made::Whole(place) => CArg::Address(place),
    }
}

/// The word of an operator in the names of the prelude's functions; others have none.
fn operator_word(op: Op) -> &'static str
    ensures { result.now ≡ expressions.operator_word op }
{
    match op {
        Op::Add => "add",
        Op::Sub => "sub",
        Op::Mul => "mul",
        Op::Div => "div",
        Op::Rem => "rem",
        Op::Minus => "neg",
        Op::BitAnd => "and",
        Op::BitOr => "or",
        Op::BitXor => "xor",
        Op::BitNot => "not",
        Op::Shl => "shl",
        Op::Shr => "shr",
        _ => "",
    }
}

/// The name of the prelude's function for an operation on a type.
fn function(alloc: Global, word: &str, t: Scalar) -> Result<Text, NoMemory>
    ensures { IfOk result (λ name. name ≡ expressions.function_name word.now t) }
{
    let mut name = String::from_str(alloc, "bl_")?;
    name.push_str(word)?;
    name.push_str("_")?;
    name.push_str(word_of(t))?;
    Ok(Text::from_string(name))
}

/// The word of the cast from a signed (true) or an unsigned type.
fn cast_word(signed: bool) -> &'static str
    ensures { result.now ≡ expressions.cast_word signed }
{
    if signed { "of_s" } else { "of_u" }
}

/// A number of the first type as one of the second.
pub fn cast(alloc: Global, from: Scalar, to: Scalar, code: CExpr) -> Result<CExpr, NoMemory>
    ensures { IfOk result (λ e. e ≡ expressions.c_cast from to code) }
{
    let name = function(alloc, cast_word(is_int(from)), to)?;
    Ok(called(name, single(alloc, CArg::Value(code))?))
}

/// The expression in a form whose value a compiler can't tell. Fails only for want of memory.
pub fn hidden(alloc: Global, s: Scalar, code: CExpr) -> Result<CExpr, NoMemory>
    ensures { IfOk result (λ e. e ≡ expressions.hidden s code) }
{
    match s {
        Scalar::Bool => two(alloc, Op::And, code, literal(Scalar::Bool, 1)),
        _ => cast(alloc, s, s, code),
    }
}

fn side(alloc: Global, hides: bool, s: Scalar, code: CExpr) -> Result<CExpr, NoMemory>
    ensures { IfOk result (λ e. e ≡ expressions.side hides s code) }
{
    if hides {
        hidden(alloc, s, code)
    } else {
        Ok(code)
    }
}

/// A comparison of two numbers of a type.
fn compare(alloc: Global, op: Op, s: Scalar, a: CExpr, b: CExpr) -> Result<CExpr, NoMemory>
    ensures { IfOk result (λ e. e ≡ expressions.c_compare op s a b) }
{
    let left_hides = is_decided(mirrored(op), &a);
    let right_hides = hides_right(op, &a, &b);
    let left = side(alloc, left_hides, s, a)?;
    let right = side(alloc, right_hides, s, b)?;
    two(alloc, op, left, right)
}

/// An operator with one operand, which is of this type.
pub fn one(alloc: Global, op: Op, s: Scalar, a: CExpr) -> Result<Made, NoMemory>
    ensures { IfOk result (λ made. made ≡ expressions.c_one op s a) }
{
    match op {
        Op::Not => Ok(Made::Number(Scalar::Bool, negated(alloc, a)?)),
        _ => by_function(alloc, op, s, single(alloc, CArg::Value(a))?),
    }
}

/// An operator by the prelude's function of its name.
fn by_function(alloc: Global, op: Op, s: Scalar, args: List<CArg>) -> Result<Made, NoMemory>
    ensures { IfOk result (λ made. made ≡ expressions.c_function op s args) }
{
    let name = function(alloc, operator_word(op), s)?;
    Ok(Made::Number(s, called(name, args)))
}

/// An operator with two operands, which are of this type.
pub fn both(alloc: Global, op: Op, s: Scalar, a: CExpr, b: CExpr) -> Result<Made, NoMemory>
    ensures { IfOk result (λ made. made ≡ expressions.c_both op s a b) }
{
    match op {
        Op::Eq | Op::Ne | Op::Lt | Op::Le | Op::Gt | Op::Ge => {
            let code = compare(alloc, op, s, a, b)?;
            Ok(Made::Number(Scalar::Bool, code))
        }
        Op::And | Op::Or => {
            let code = two(alloc, op, a, b)?;
            Ok(Made::Number(Scalar::Bool, code))
        }
        _ => {
            let mut args = single(alloc, CArg::Value(a))?;
            args.push(CArg::Value(b))?;
            by_function(alloc, op, s, args)
        }
    }
}

/// A call of the function at a position for its result.
pub fn call(alloc: Global, site: &UnitSite, f: u32, args: List<CArg>) -> Result<Made, NoMemory>
    ensures { IfOk result (λ made. made ≡ expressions.made_call (slice_get site.entry.now.earlier.now f) args) }
{
    match element(site.earlier, f as usize) {
        Some(unit) => of_unit(alloc, unit, args),
        None => Ok(Made::Number(Scalar::Bool, called(prefixed(alloc, "a_", "")?, args))),
    }
}

fn of_unit(alloc: Global, unit: &Unit, args: List<CArg>) -> Result<Made, NoMemory>
    ensures { IfOk result (λ made. made ≡ expressions.made_call (Some unit.now) args) }
{
    let name = prefixed(alloc, "a_", unit.name.as_str())?;
    Ok(Made::Number(unit.result.unwrap_or(Scalar::Bool), called(name, args)))
}
