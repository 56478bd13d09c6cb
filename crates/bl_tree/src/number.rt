//! The arithmetic of the types without parts (docs/LANGUAGE.md, "How a program runs").

ghost use Rattle.std.specs.Prelude.{◌≡◌, IfSome};
ghost use Rattle.bl_tree.specs.Scalar.{InRange};
ghost use Rattle.bl_tree.specs.Numbers.{TakesTwo, TakesOne, checked_of, checked_one_of, type_of_result};

use crate::scalar::{Op, Scalar};

mod binary;
mod fit;
pub mod laws;
mod quotients;
mod sums;
mod truth;

/// What an operator gives for two numbers of a type that it takes, and `None` where it traps: where the result
/// of an int or nat is outside its type, and where a divisor is 0.
pub fn checked(op: Op, t: Scalar, a: i128, b: i128) -> Option<i128>
    requires left { InRange t a }
    requires right { InRange t b }
    requires takes { TakesTwo op t }
    ensures value { result ≡ checked_of op t a b }
    ensures in_range { IfSome result (InRange (type_of_result op t)) }
{
    value(op, t, a, b)
}

fn value(op: Op, t: Scalar, a: i128, b: i128) -> Option<i128>
    requires left { InRange t a }
    requires right { InRange t b }
    requires takes { TakesTwo op t }
    ensures { result ≡ checked_of op t a b }
{
    match op {
        Op::Add => sums::sum(t, a, b),
        Op::Sub => sums::difference(t, a, b),
        Op::Mul => sums::product(t, a, b),
        Op::Div => quotients::quotient(t, a, b),
        Op::Rem => quotients::remainder(t, a, b),
        Op::BitAnd => Some(binary::both(t, a, b)),
        Op::BitOr => Some(binary::either(t, a, b)),
        Op::BitXor => Some(binary::one_alone(t, a, b)),
        Op::Shl => Some(binary::shifted_left(t, a, b)),
        Op::Shr => Some(binary::shifted_right(t, a, b)),
        Op::Eq => Some(truth::number(a == b)),
        Op::Ne => Some(truth::number(a != b)),
        Op::Lt => Some(truth::number(a < b)),
        Op::Le => Some(truth::number(a <= b)),
        Op::Gt => Some(truth::number(a > b)),
        Op::Ge => Some(truth::number(a >= b)),
        Op::And => Some(truth::number(a == 1 && b == 1)),
        Op::Or => Some(truth::number(a == 1 || b == 1)),
        Op::Minus | Op::BitNot | Op::Not => unreachable!(),
    }
}

/// `checked` for the operators with one operand.
pub fn checked_one(op: Op, t: Scalar, a: i128) -> Option<i128>
    requires operand { InRange t a }
    requires takes { TakesOne op t }
    ensures value { result ≡ checked_one_of op t a }
    ensures in_range { IfSome result (InRange (type_of_result op t)) }
{
    match op {
        Op::Minus => sums::negation(t, a),
        Op::BitNot => Some(binary::complement(t, a)),
        Op::Not => Some(truth::number(a != 1)),
        _ => unreachable!(),
    }
}
