//! What is known of expressions and targets.

ghost use Rattle.std.specs.Prelude.{◌≡◌, None};

use bl_tree::tree::{Expr, Part, Path, Ty};
use bl_tree::{List, Scalar};

/// What is known of the type of an expression.
#[derive(Drop)]
pub enum Form {
    /// Some part of it fails, so it has no type.
    Failing,
    /// It takes the type that is wanted of it, and its numbers stand as `int32` until then.
    Open(Expr),
    Of(Ty, Expr),
}

/// What a target or path leads to.
#[derive(Drop)]
pub enum Found {
    /// Some part of it fails, so it has no type.
    Nothing,
    /// A constant, by its type and its number.
    Constant(Scalar, i128),
    Place(Path),
}

/// How far the parts of a target have led.
#[derive(Drop)]
pub struct Reached {
    /// The type there, unless a part failed.
    pub ty: Option<Ty>,
    pub parts: List<Part>,
}

/// What an initial value gives.
#[derive(Drop)]
pub struct Valued {
    /// The type of what is declared, where it has one.
    pub ty: Option<Ty>,
    /// The value, where it has a type that fits.
    pub value: Option<Expr>,
}

/// Where one part of a target leads.
#[derive(Drop)]
pub struct Step {
    /// The type there, unless the part fails.
    pub ty: Option<Ty>,
    pub part: Option<Part>,
}

impl Step {
    pub fn lost() -> Step
        ensures ty { result.ty ≡ None }
        ensures part { result.part ≡ None }
    {
        Step {
            ty: None,
            part: None,
        }
    }
}
