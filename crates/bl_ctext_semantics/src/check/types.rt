//! The types of expressions, and which of them agree.

ghost use Rattle.std.specs.Prelude.{◌≡◌, option_map};
ghost use Rattle.bl_ctext_semantics.specs.inner.Checked.{type_of};
ghost use Rattle.bl_ctext_semantics.specs.Faults.{same_type as same_c_type, agree as agree_c, is_scalar as is_c_scalar, is_number_type as is_c_number};
ghost use Rattle.bl_ctext_semantics.specs.Faults.{indexes as c_indexes, takes as c_takes, fits_param as fits_c_param, bool_type};

use bl_tree::c::CType;
use bl_tree::{Op, Scalar, Width};

/// The type of an expression or place.
#[derive(Clone, Copy)]
pub enum Ty<'a> {
    Scalar(Scalar),
    /// The struct of this name.
    Struct(&'a str),
}

impl<'a> Ty<'a> {
    pub fn of(ty: &'a CType) -> Ty<'a>
        ensures { type_of result ≡ ty.now }
    {
        match ty {
            CType::Scalar(scalar) => Ty::Scalar(*scalar),
            CType::Struct(name) => Ty::Struct(name.as_str()),
        }
    }
}

pub fn same_type(a: Ty<'_>, b: Ty<'_>) -> bool
    ensures { result ≡ same_c_type (type_of a.entry) (type_of b.entry) }
{
    match (a, b) {
        (Ty::Scalar(a), Ty::Scalar(b)) => a == b,
        (Ty::Struct(a), Ty::Struct(b)) => a == b,
        _ => false,
    }
}

/// Whether two types agree; what has no type is compared with nothing.
pub fn agree(a: Option<Ty<'_>>, b: Option<Ty<'_>>) -> bool
    ensures { result ≡ agree_c (option_map type_of a.entry) (option_map type_of b.entry) }
{
    match (a, b) {
        (Some(a), Some(b)) => same_type(a, b),
        _ => true,
    }
}

pub fn is_scalar(ty: Ty<'_>) -> bool
    ensures { result ≡ is_c_scalar (type_of ty.entry) }
{
    match ty {
        Ty::Scalar(_) => true,
        Ty::Struct(_) => false,
    }
}

pub fn is_number(ty: Ty<'_>) -> bool
    ensures { result ≡ is_c_number (type_of ty.entry) }
{
    match ty {
        Ty::Scalar(Scalar::Bool) => false,
        Ty::Scalar(_) => true,
        Ty::Struct(_) => false,
    }
}

/// Whether the type is one that `bl_ix_s` (signed) or `bl_ix_u` takes.
pub fn indexes(signed: bool, ty: Ty<'_>) -> bool
    ensures { result ≡ c_indexes signed (type_of ty.entry) }
{
    match ty {
        Ty::Scalar(Scalar::Int(_)) => signed,
        Ty::Scalar(Scalar::Nat(_)) => !signed,
        _ => false,
    }
}

/// Whether an operator between two expressions takes operands of the type.
pub fn takes(op: Op, ty: Ty<'_>) -> bool
    ensures { result ≡ c_takes op (type_of ty.entry) }
{
    match op {
        Op::Eq | Op::Ne => is_scalar(ty),
        Op::Lt | Op::Le | Op::Gt | Op::Ge => is_number(ty),
        Op::And | Op::Or => same_type(ty, Ty::Scalar(Scalar::Bool)),
        _ => false,
    }
}

/// Whether an argument of the type fits a parameter; a parameter of 64 bits of the prelude takes every signed, or
/// every unsigned, type.
pub fn fits_param(widens: bool, wanted: Ty<'_>, ty: Ty<'_>) -> bool
    ensures { result ≡ fits_c_param widens (type_of wanted.entry) (type_of ty.entry) }
{
    match (widens, wanted) {
        (true, Ty::Scalar(Scalar::Int(Width::W64))) => indexes(true, ty),
        (true, Ty::Scalar(Scalar::Nat(Width::W64))) => indexes(false, ty),
        _ => same_type(wanted, ty),
    }
}
