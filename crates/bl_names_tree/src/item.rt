//! Structs, constants, units and their variables, with positions in place of names.

use crate::expr::NamedExpr;
use crate::stmt::NamedStmt;
use crate::types::NamedType;
use bl_parse_tree::name::Name;
use bl_tree::List;
use bl_tree::tree::{Role, UnitKind};

/// What stands next in the file: the next of the structs, of the constants or of the units.
#[derive(Clone, Copy, PartialEq, Eq, Debug)]
pub enum Item {
    Struct,
    Constant,
    Unit,
}

pub struct NamedField {
    pub name: Name,
    pub ty: NamedType,
}

impl Drop for NamedField {
    fn drop(self) {
        let NamedField { name: _, ty: _ } = self;
    }
}

pub struct NamedStruct {
    pub name: Name,
    pub fields: List<NamedField>,
}

impl Drop for NamedStruct {
    fn drop(self) {
        let NamedStruct { name: _, fields: _ } = self;
    }
}

/// A `const` of the file or of a block. Without a type it has that of its value.
pub struct NamedConstant {
    pub name: Name,
    pub ty: Option<NamedType>,
    pub value: NamedExpr,
}

impl Drop for NamedConstant {
    fn drop(self) {
        let NamedConstant {
            name: _,
            ty: _,
            value: _,
        } = self;
    }
}

/// A parameter, a `var` or a `let`. Without a type it has that of its initial value.
pub struct NamedVar {
    pub name: Name,
    pub ty: Option<NamedType>,
    pub role: Role,
}

impl Drop for NamedVar {
    fn drop(self) {
        let NamedVar {
            name: _,
            ty: _,
            role: _,
        } = self;
    }
}

/// A function or an activity.
pub struct NamedUnit {
    /// Whether it has the mark `@[EntryPoint]`.
    pub entry: bool,
    pub kind: UnitKind,
    pub name: Name,
    /// Its inputs, its outputs, and each `var` and `let` in source order.
    pub vars: List<NamedVar>,
    pub inputs: u32,
    pub outputs: u32,
    pub result: Option<NamedType>,
    pub body: List<NamedStmt>,
}

impl Drop for NamedUnit {
    fn drop(self) {
        let NamedUnit {
            entry: _,
            kind: _,
            name: _,
            vars: _,
            inputs: _,
            outputs: _,
            result: _,
            body: _,
        } = self;
    }
}
