//! What a statement sees.

use bl_tree::Scalar;
use bl_tree::tree::{StructDef, Unit, UnitKind, Var};

/// The structs, the units before a statement's own, and the kind, the variables and the result of its own.
#[derive(Clone, Copy)]
pub struct UnitSite<'a> {
    pub structs: &'a [StructDef],
    pub earlier: &'a [Unit],
    pub kind: UnitKind,
    pub vars: &'a [Var],
    pub result: Option<Scalar>,
}
