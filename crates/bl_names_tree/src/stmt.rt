//! Statements, with positions in place of names.

use crate::expr::{NamedExpr, NamedTarget};
use bl_parse_tree::name::Name;
use bl_tree::tree::Guard;
use bl_tree::{List, Place};

/// A variable with fields that lead into it, as it stands for an output or takes the result of a `run`.
pub struct NamedPath {
    pub place: Place,
    /// A position in the unit's variables.
    pub root: u32,
    pub fields: List<Name>,
}

impl Drop for NamedPath {
    fn drop(self) {
        let NamedPath {
            place: _,
            root: _,
            fields: _,
        } = self;
    }
}

/// One test of an `if` and what is done where it is true.
#[cycle(named_statements)]
pub struct NamedArm {
    pub test: NamedExpr,
    pub body: List<NamedStmt>,
}

impl Drop for NamedArm {
    #[cycle(named_statements)]
    fn drop(self) {
        let NamedArm { test: _, body: _ } = self;
    }
}

/// A branch of a `cobegin`.
#[cycle(named_statements)]
pub struct NamedBranch {
    pub weak: bool,
    pub body: List<NamedStmt>,
}

impl Drop for NamedBranch {
    #[cycle(named_statements)]
    fn drop(self) {
        let NamedBranch { weak: _, body: _ } = self;
    }
}

#[cycle(named_statements)]
pub struct NamedStmt {
    /// From its first token to its last.
    pub place: Place,
    pub what: NamedStmtKind,
}

impl Drop for NamedStmt {
    #[cycle(named_statements)]
    fn drop(self) {
        let NamedStmt { place: _, what: _ } = self;
    }
}

#[cycle(named_statements)]
pub enum NamedStmtKind {
    /// A position in the unit's variables, and the initial value.
    Declare(u32, Option<NamedExpr>),
    /// A position in the program's constants.
    Const(u32),
    Assign(NamedTarget, NamedExpr),
    /// Where the name of the function stands, its position in the program's units, its inputs and its outputs.
    Call(Place, u32, List<NamedExpr>, List<NamedPath>),
    Await(NamedExpr),
    /// The target; where the name of the activity stands, its position in the program's units, its inputs and its outputs.
    Run(Option<NamedPath>, Place, u32, List<NamedExpr>, List<NamedPath>),
    /// The arms in order, and what is done where no test is true: nothing where no `else` is written.
    If(List<NamedArm>, List<NamedStmt>),
    Cobegin(List<NamedBranch>),
    When(Guard, NamedExpr, List<NamedStmt>),
    Repeat(List<NamedStmt>),
    /// A loop that ends where the condition is true after its body.
    Until(List<NamedStmt>, NamedExpr),
    While(NamedExpr, List<NamedStmt>),
    Return(Option<NamedExpr>),
}

impl Drop for NamedStmtKind {
    #[cycle(named_statements)]
    fn drop(self) {
        match self {
            NamedStmtKind::Declare(_, _)
            | NamedStmtKind::Const(_)
            | NamedStmtKind::Assign(_, _)
            | NamedStmtKind::Call(_, _, _, _)
            | NamedStmtKind::Await(_)
            | NamedStmtKind::Run(_, _, _, _, _)
            | NamedStmtKind::If(_, _)
            | NamedStmtKind::Cobegin(_)
            | NamedStmtKind::When(_, _, _)
            | NamedStmtKind::Repeat(_)
            | NamedStmtKind::Until(_, _)
            | NamedStmtKind::While(_, _)
            | NamedStmtKind::Return(_) => {}
        }
    }
}
