//! What a file declares, as it is written.

use crate::name::Name;
use crate::stmt::{RawConstant, RawStmt};
use crate::types::RawType;
use bl_tree::List;
use bl_tree::tree::UnitKind;

pub struct RawField {
    pub name: Name,
    pub ty: RawType,
}

impl Drop for RawField {
    fn drop(self) {
        let RawField { name: _, ty: _ } = self;
    }
}

pub struct RawStruct {
    pub name: Name,
    pub fields: List<RawField>,
}

impl Drop for RawStruct {
    fn drop(self) {
        let RawStruct { name: _, fields: _ } = self;
    }
}

pub struct RawParam {
    pub name: Name,
    pub ty: RawType,
}

impl Drop for RawParam {
    fn drop(self) {
        let RawParam { name: _, ty: _ } = self;
    }
}

/// A function or an activity.
pub struct RawUnit {
    /// Whether it has the mark `@[EntryPoint]`.
    pub entry: bool,
    pub kind: UnitKind,
    pub name: Name,
    pub inputs: List<RawParam>,
    pub outputs: List<RawParam>,
    pub result: Option<RawType>,
    pub body: List<RawStmt>,
}

impl Drop for RawUnit {
    fn drop(self) {
        let RawUnit {
            entry: _,
            kind: _,
            name: _,
            inputs: _,
            outputs: _,
            result: _,
            body: _,
        } = self;
    }
}

/// What the file declares.
pub enum RawItem {
    Struct(RawStruct),
    Constant(RawConstant),
    Unit(RawUnit),
}

impl Drop for RawItem {
    fn drop(self) {
        match self {
            RawItem::Struct(_) | RawItem::Constant(_) | RawItem::Unit(_) => {}
        }
    }
}
