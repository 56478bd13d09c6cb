//! The parts of a text of the C subset (docs/C_SUBSET.md, "Grammar"), whose whole is `bl_ctext::CFile`. An unsigned
//! type is the `Nat` type of its width; that no `Bits` type stands in a file is kept there.

use crate::place::Place;
use crate::scalar::{Op, Scalar};
use crate::{Box, List, Text};

pub enum CType {
    Scalar(Scalar),
    /// The struct of this name.
    Struct(Text),
}

impl Drop for CType {
    fn drop(self) {
        match self {
            CType::Scalar(_) | CType::Struct(_) => {}
        }
    }
}

pub struct CMember {
    pub ty: CType,
    pub name: Text,
    /// How many elements, where the member is an array.
    pub length: Option<u32>,
}

impl Drop for CMember {
    fn drop(self) {
        let CMember {
            ty: _,
            name: _,
            length: _,
        } = self;
    }
}

#[derive(Drop)]
pub struct CStruct {
    pub place: Place,
    pub name: Text,
    pub members: List<CMember>,
}

pub struct CParam {
    pub ty: CType,
    pub pointer: bool,
    pub name: Text,
}

impl Drop for CParam {
    fn drop(self) {
        let CParam {
            ty: _,
            pointer: _,
            name: _,
        } = self;
    }
}

pub struct CLocal {
    pub ty: CType,
    pub name: Text,
}

impl Drop for CLocal {
    fn drop(self) {
        let CLocal { ty: _, name: _ } = self;
    }
}

pub struct CFunc {
    pub place: Place,
    /// Whether `static` stands before it.
    pub fixed: bool,
    /// None for `void`.
    pub result: Option<Scalar>,
    pub name: Text,
    pub params: List<CParam>,
    pub locals: List<CLocal>,
    pub body: List<CStmt>,
}

impl Drop for CFunc {
    fn drop(self) {
        let CFunc {
            place: _,
            fixed: _,
            result: _,
            name: _,
            params: _,
            locals: _,
            body: _,
        } = self;
    }
}

#[cycle(c_expressions)]
pub struct CPlace {
    /// Whether it begins with `(*` and its name is a pointer's.
    pub through: bool,
    pub name: Text,
    pub steps: List<CStep>,
}

impl Drop for CPlace {
    #[cycle(c_expressions)]
    fn drop(self) {
        let CPlace {
            through: _,
            name: _,
            steps: _,
        } = self;
    }
}

/// A member, and the element of it where it is an array.
#[cycle(c_expressions)]
pub struct CStep {
    pub member: Text,
    pub index: Option<Box<CIndex>>,
}

impl Drop for CStep {
    #[cycle(c_expressions)]
    fn drop(self) {
        let CStep {
            member: _,
            index: _,
        } = self;
    }
}

#[cycle(c_expressions)]
pub struct CIndex {
    /// Whether the index is taken by `bl_ix_s`, and else by `bl_ix_u`.
    pub signed: bool,
    pub at: CExpr,
    pub length: u32,
}

impl Drop for CIndex {
    #[cycle(c_expressions)]
    fn drop(self) {
        let CIndex {
            signed: _,
            at: _,
            length: _,
        } = self;
    }
}

#[cycle(c_expressions)]
pub struct CExpr {
    pub place: Place,
    pub what: CExprKind,
}

impl Drop for CExpr {
    #[cycle(c_expressions)]
    fn drop(self) {
        let CExpr { place: _, what: _ } = self;
    }
}

#[cycle(c_expressions)]
pub enum CExprKind {
    /// A number of its type; `true` is 1 and `false` is 0.
    Literal(Scalar, i128),
    Read(CPlace),
    Call(CCall),
    Not(Box<CExpr>),
    /// A comparison, `Both` or `Either`.
    Two(Op, Box<CExpr>, Box<CExpr>),
}

impl Drop for CExprKind {
    #[cycle(c_expressions)]
    fn drop(self) {
        match self {
            CExprKind::Literal(_, _)
            | CExprKind::Read(_)
            | CExprKind::Call(_)
            | CExprKind::Not(_)
            | CExprKind::Two(_, _, _) => {}
        }
    }
}

#[cycle(c_expressions)]
pub struct CCall {
    pub name: Text,
    pub args: List<CArg>,
}

impl Drop for CCall {
    #[cycle(c_expressions)]
    fn drop(self) {
        let CCall { name: _, args: _ } = self;
    }
}

#[cycle(c_expressions)]
pub enum CArg {
    Value(CExpr),
    Address(CPlace),
}

impl Drop for CArg {
    #[cycle(c_expressions)]
    fn drop(self) {
        match self {
            CArg::Value(_) | CArg::Address(_) => {}
        }
    }
}

#[cycle(c_statements)]
pub struct CStmt {
    pub place: Place,
    pub what: CStmtKind,
}

impl Drop for CStmt {
    #[cycle(c_statements)]
    fn drop(self) {
        let CStmt { place: _, what: _ } = self;
    }
}

/// What a statement seldom has is boxed: a text of many statements takes the room of the largest of them for each.
#[cycle(c_statements)]
pub enum CStmtKind {
    Set(CPlace, Box<CExpr>),
    /// A place whose struct, of this name, is set to zeros.
    Clear(Box<CPlace>, Text),
    Call(CCall),
    If(Box<CExpr>, List<CStmt>, Option<List<CStmt>>),
    /// The name of the turn counter, the condition and the body.
    Loop(Text, Box<CExpr>, List<CStmt>),
    Break,
    Return(Option<Box<CExpr>>),
}

impl Drop for CStmtKind {
    #[cycle(c_statements)]
    fn drop(self) {
        match self {
            CStmtKind::Set(_, _)
            | CStmtKind::Clear(_, _)
            | CStmtKind::Call(_)
            | CStmtKind::If(_, _, _)
            | CStmtKind::Loop(_, _, _)
            | CStmtKind::Break
            | CStmtKind::Return(_) => {}
        }
    }
}
