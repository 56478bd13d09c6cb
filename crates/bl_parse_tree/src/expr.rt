//! Expressions as they are written.

use crate::name::Name;
use bl_tree::{Box, List, Op, Place, Scalar};

/// A step into a variable: to a field, or to an element.
#[cycle(raw_expressions)]
pub enum RawPart {
    Field(Name),
    Index(RawExpr),
}

impl Drop for RawPart {
    #[cycle(raw_expressions)]
    fn drop(self) {
        match self {
            RawPart::Field(_) | RawPart::Index(_) => {}
        }
    }
}

/// A variable or constant with the parts that lead into it, as it is assigned or read.
#[cycle(raw_expressions)]
pub struct RawTarget {
    pub place: Place,
    pub root: Name,
    pub parts: List<RawPart>,
}

impl Drop for RawTarget {
    #[cycle(raw_expressions)]
    fn drop(self) {
        let RawTarget {
            place: _,
            root: _,
            parts: _,
        } = self;
    }
}

#[cycle(raw_expressions)]
pub struct RawExpr {
    /// From its first token to its last, less the parentheses around the whole of it.
    pub place: Place,
    pub what: RawExprKind,
}

impl Drop for RawExpr {
    #[cycle(raw_expressions)]
    fn drop(self) {
        let RawExpr { place: _, what: _ } = self;
    }
}

#[cycle(raw_expressions)]
pub enum RawExprKind {
    /// A number and whether a minus belongs to it. A greater value than 2^64 is kept as 2^64.
    Number(bool, u128),
    Truth(bool),
    /// Its place is the expression's.
    Read(RawTarget),
    /// The value that the variable had at the end of the previous tick.
    Prev(Name),
    One(Op, Box<RawExpr>),
    Two(Op, Box<RawExpr>, Box<RawExpr>),
    /// The target type comes first.
    Cast(Scalar, Box<RawExpr>),
    /// A function and its inputs.
    Call(Name, List<RawExpr>),
}

impl Drop for RawExprKind {
    #[cycle(raw_expressions)]
    fn drop(self) {
        match self {
            RawExprKind::Number(_, _)
            | RawExprKind::Truth(_)
            | RawExprKind::Read(_)
            | RawExprKind::Prev(_)
            | RawExprKind::One(_, _)
            | RawExprKind::Two(_, _, _)
            | RawExprKind::Cast(_, _)
            | RawExprKind::Call(_, _) => {}
        }
    }
}
