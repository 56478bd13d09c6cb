//! The typed tree of a source program. What a number names is a position: of a struct or unit in the program's
//! lists, of a field in its struct, of a variable in its unit (docs/INTERNALS.md, "Programs").

use crate::place::Place;
use crate::scalar::{Op, Scalar};
use crate::{Box, List, Text};

/// A type of the source language.
#[cycle(types)]
pub enum Ty {
    Scalar(Scalar),
    /// The struct at this position.
    Struct(u32),
    /// How many elements, and their type.
    Array(u32, Box<Ty>),
}

impl Drop for Ty {
    #[cycle(types)]
    fn drop(self) {
        match self {
            Ty::Scalar(_) | Ty::Struct(_) | Ty::Array(_, _) => {}
        }
    }
}

pub struct StructDef {
    pub name: Text,
    /// That of the name.
    pub place: Place,
    pub fields: List<Field>,
}

impl Drop for StructDef {
    fn drop(self) {
        let StructDef {
            name: _,
            place: _,
            fields: _,
        } = self;
    }
}

pub struct Field {
    pub name: Text,
    pub ty: Ty,
}

impl Drop for Field {
    fn drop(self) {
        let Field { name: _, ty: _ } = self;
    }
}

#[derive(Clone, Copy, PartialEq, Eq, Debug)]
pub enum UnitKind {
    Function,
    Activity,
}

/// What a variable of a unit is for.
#[derive(Clone, Copy, PartialEq, Eq, Debug)]
pub enum Role {
    Input,
    Output,
    /// Declared by `var`.
    Variable,
    /// Declared by `let`.
    Fixed,
}

pub struct Var {
    pub name: Text,
    /// That of the name.
    pub place: Place,
    pub ty: Ty,
    pub role: Role,
}

impl Drop for Var {
    fn drop(self) {
        let Var {
            name: _,
            place: _,
            ty: _,
            role: _,
        } = self;
    }
}

/// A function or an activity.
pub struct Unit {
    pub name: Text,
    /// That of the name.
    pub place: Place,
    pub kind: UnitKind,
    /// The inputs, the outputs, then each `var` and `let` in source order.
    pub vars: List<Var>,
    /// How many of `vars` are inputs.
    pub inputs: u32,
    /// How many of `vars`, after the inputs, are outputs.
    pub outputs: u32,
    pub result: Option<Scalar>,
    pub body: List<Stmt>,
}

impl Drop for Unit {
    fn drop(self) {
        let Unit {
            name: _,
            place: _,
            kind: _,
            vars: _,
            inputs: _,
            outputs: _,
            result: _,
            body: _,
        } = self;
    }
}

/// A step from a place into it: to a field of a struct, or to an element of an array.
#[cycle(expressions)]
pub enum Part {
    Field(u32),
    Index(Expr),
}

impl Drop for Part {
    #[cycle(expressions)]
    fn drop(self) {
        match self {
            Part::Field(_) | Part::Index(_) => {}
        }
    }
}

/// A variable with the parts that lead into it.
#[cycle(expressions)]
pub struct Path {
    /// From the first token to the last.
    pub place: Place,
    pub root: u32,
    pub parts: List<Part>,
    /// The type of what the path names.
    pub ty: Ty,
}

impl Drop for Path {
    #[cycle(expressions)]
    fn drop(self) {
        let Path {
            place: _,
            root: _,
            parts: _,
            ty: _,
        } = self;
    }
}

#[cycle(expressions)]
pub struct Expr {
    pub place: Place,
    pub what: ExprKind,
}

impl Drop for Expr {
    #[cycle(expressions)]
    fn drop(self) {
        let Expr { place: _, what: _ } = self;
    }
}

#[cycle(expressions)]
pub enum ExprKind {
    /// A number of its type; `true` is 1 and `false` is 0.
    Literal(i128, Scalar),
    Read(Path),
    /// The value that the variable had at the end of the previous tick.
    Prev(u32),
    One(Op, Box<Expr>),
    Two(Op, Box<Expr>, Box<Expr>),
    /// The target type comes first.
    Cast(Scalar, Box<Expr>),
    /// A function and its inputs.
    Call(u32, List<Expr>),
}

impl Drop for ExprKind {
    #[cycle(expressions)]
    fn drop(self) {
        match self {
            ExprKind::Literal(_, _)
            | ExprKind::Read(_)
            | ExprKind::Prev(_)
            | ExprKind::One(_, _)
            | ExprKind::Two(_, _, _)
            | ExprKind::Cast(_, _)
            | ExprKind::Call(_, _) => {}
        }
    }
}

/// One test of an `if` and what is done where it is true.
#[cycle(statements)]
pub struct Arm {
    pub test: Expr,
    pub body: List<Stmt>,
}

impl Drop for Arm {
    #[cycle(statements)]
    fn drop(self) {
        let Arm { test: _, body: _ } = self;
    }
}

/// A branch of a `cobegin`.
#[cycle(statements)]
pub struct Branch {
    /// Whether the `cobegin` may end before it has.
    pub weak: bool,
    pub body: List<Stmt>,
}

impl Drop for Branch {
    #[cycle(statements)]
    fn drop(self) {
        let Branch { weak: _, body: _ } = self;
    }
}

/// What a `when` does where its condition is true.
#[derive(Clone, Copy, PartialEq, Eq, Debug)]
pub enum Guard {
    Abort,
    Reset,
}

#[cycle(statements)]
pub struct Stmt {
    /// From its first token to its last, also of a declaration, whose name's place is that of its variable.
    pub place: Place,
    pub what: StmtKind,
}

impl Drop for Stmt {
    #[cycle(statements)]
    fn drop(self) {
        let Stmt { place: _, what: _ } = self;
    }
}

#[cycle(statements)]
pub enum StmtKind {
    /// A variable and its initial value.
    Declare(u32, Option<Expr>),
    Assign(Path, Expr),
    /// A function, its inputs and its outputs.
    Call(u32, List<Expr>, List<Path>),
    Await(Expr),
    /// The target, the activity, its inputs and its outputs.
    Run(Option<Path>, u32, List<Expr>, List<Path>),
    /// The arms in order, and what is done where no test is true.
    If(List<Arm>, List<Stmt>),
    Cobegin(List<Branch>),
    When(Guard, Expr, List<Stmt>),
    Repeat(List<Stmt>),
    /// A loop that ends where the condition is true after its body.
    Until(List<Stmt>, Expr),
    While(Expr, List<Stmt>),
    Return(Option<Expr>),
}

impl Drop for StmtKind {
    #[cycle(statements)]
    fn drop(self) {
        match self {
            StmtKind::Declare(_, _)
            | StmtKind::Assign(_, _)
            | StmtKind::Call(_, _, _)
            | StmtKind::Await(_)
            | StmtKind::Run(_, _, _, _)
            | StmtKind::If(_, _)
            | StmtKind::Cobegin(_)
            | StmtKind::When(_, _, _)
            | StmtKind::Repeat(_)
            | StmtKind::Until(_, _)
            | StmtKind::While(_, _)
            | StmtKind::Return(_) => {}
        }
    }
}
