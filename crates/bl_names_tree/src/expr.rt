//! Expressions, targets and the parts that lead into them, with positions in place of names.

use bl_parse_tree::name::Name;
use bl_tree::{Box, List, Op, Place, Scalar};

/// What a target begins with: a position in its unit's variables or in the program's constants.
#[derive(Clone, Copy, PartialEq, Eq, Debug)]
pub enum Root {
    Variable(u32),
    Constant(u32),
}

/// A step into a variable: to a field, or to an element.
#[cycle(named_expressions)]
pub enum NamedPart {
    Field(Name),
    Index(NamedExpr),
}

impl Drop for NamedPart {
    #[cycle(named_expressions)]
    fn drop(self) {
        match self {
            NamedPart::Field(_) | NamedPart::Index(_) => {}
        }
    }
}

/// A variable or constant with the parts that lead into it, as it is assigned or read.
#[cycle(named_expressions)]
pub struct NamedTarget {
    pub place: Place,
    pub root: Root,
    pub parts: List<NamedPart>,
}

impl Drop for NamedTarget {
    #[cycle(named_expressions)]
    fn drop(self) {
        let NamedTarget {
            place: _,
            root: _,
            parts: _,
        } = self;
    }
}

#[cycle(named_expressions)]
pub struct NamedExpr {
    /// From its first token to its last, less the parentheses around the whole of it.
    pub place: Place,
    pub what: NamedExprKind,
}

impl Drop for NamedExpr {
    #[cycle(named_expressions)]
    fn drop(self) {
        let NamedExpr { place: _, what: _ } = self;
    }
}

#[cycle(named_expressions)]
pub enum NamedExprKind {
    /// A number and whether a minus belongs to it. A greater value than 2^64 is kept as 2^64.
    Number(bool, u128),
    Truth(bool),
    /// Its place is the expression's.
    Read(NamedTarget),
    /// A position in the unit's variables.
    Prev(u32),
    One(Op, Box<NamedExpr>),
    Two(Op, Box<NamedExpr>, Box<NamedExpr>),
    /// The target type comes first.
    Cast(Scalar, Box<NamedExpr>),
    /// Where the name of the function stands, its position in the program's units, and its inputs.
    Call(Place, u32, List<NamedExpr>),
}

impl Drop for NamedExprKind {
    #[cycle(named_expressions)]
    fn drop(self) {
        match self {
            NamedExprKind::Number(_, _)
            | NamedExprKind::Truth(_)
            | NamedExprKind::Read(_)
            | NamedExprKind::Prev(_)
            | NamedExprKind::One(_, _)
            | NamedExprKind::Two(_, _, _)
            | NamedExprKind::Cast(_, _)
            | NamedExprKind::Call(_, _, _) => {}
        }
    }
}
