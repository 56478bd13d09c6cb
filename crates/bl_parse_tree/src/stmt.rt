//! Statements as they are written.

use crate::expr::{RawExpr, RawTarget};
use crate::name::Name;
use crate::types::RawType;
use bl_tree::tree::Guard;
use bl_tree::{List, Place};

/// A variable with fields that lead into it, as it stands for an output or takes the result of a `run`.
pub struct RawPath {
    pub place: Place,
    pub root: Name,
    pub fields: List<Name>,
}

impl Drop for RawPath {
    fn drop(self) {
        let RawPath {
            place: _,
            root: _,
            fields: _,
        } = self;
    }
}

/// A `const` of the file or of a block. Without a type it has that of its value.
pub struct RawConstant {
    pub name: Name,
    pub ty: Option<RawType>,
    pub value: RawExpr,
}

impl Drop for RawConstant {
    fn drop(self) {
        let RawConstant {
            name: _,
            ty: _,
            value: _,
        } = self;
    }
}

/// One test of an `if` and what is done where it is true.
#[cycle(raw_statements)]
pub struct RawArm {
    pub test: RawExpr,
    pub body: List<RawStmt>,
}

impl Drop for RawArm {
    #[cycle(raw_statements)]
    fn drop(self) {
        let RawArm { test: _, body: _ } = self;
    }
}

/// A branch of a `cobegin`.
#[cycle(raw_statements)]
pub struct RawBranch {
    pub weak: bool,
    pub body: List<RawStmt>,
}

impl Drop for RawBranch {
    #[cycle(raw_statements)]
    fn drop(self) {
        let RawBranch { weak: _, body: _ } = self;
    }
}

#[cycle(raw_statements)]
pub struct RawStmt {
    /// From its first token to its last.
    pub place: Place,
    pub what: RawStmtKind,
}

impl Drop for RawStmt {
    #[cycle(raw_statements)]
    fn drop(self) {
        let RawStmt { place: _, what: _ } = self;
    }
}

#[cycle(raw_statements)]
pub enum RawStmtKind {
    /// A variable, its type and its initial value. Without a type it has that of its value.
    Var(Name, Option<RawType>, Option<RawExpr>),
    /// A variable that isn't assigned, its type and its value.
    Let(Name, Option<RawType>, RawExpr),
    Const(RawConstant),
    Assign(RawTarget, RawExpr),
    /// A function, its inputs and its outputs.
    Call(Name, List<RawExpr>, List<RawPath>),
    Await(RawExpr),
    /// The target, the activity, its inputs and its outputs.
    Run(Option<RawPath>, Name, List<RawExpr>, List<RawPath>),
    /// The arms in order, and what is done where no test is true: nothing where no `else` is written.
    If(List<RawArm>, List<RawStmt>),
    Cobegin(List<RawBranch>),
    When(Guard, RawExpr, List<RawStmt>),
    Repeat(List<RawStmt>),
    /// A loop that ends where the condition is true after its body.
    Until(List<RawStmt>, RawExpr),
    While(RawExpr, List<RawStmt>),
    Return(Option<RawExpr>),
}

impl Drop for RawStmtKind {
    #[cycle(raw_statements)]
    fn drop(self) {
        match self {
            RawStmtKind::Var(_, _, _)
            | RawStmtKind::Let(_, _, _)
            | RawStmtKind::Const(_)
            | RawStmtKind::Assign(_, _)
            | RawStmtKind::Call(_, _, _)
            | RawStmtKind::Await(_)
            | RawStmtKind::Run(_, _, _, _)
            | RawStmtKind::If(_, _)
            | RawStmtKind::Cobegin(_)
            | RawStmtKind::When(_, _, _)
            | RawStmtKind::Repeat(_)
            | RawStmtKind::Until(_, _)
            | RawStmtKind::While(_, _)
            | RawStmtKind::Return(_) => {}
        }
    }
}
