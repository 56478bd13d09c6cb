//! What is made of expressions.

use bl_tree::Scalar;
use bl_tree::c::{CExpr, CPlace};

/// What is made of an expression.
#[derive(Drop)]
pub enum Made {
    /// A number, and its type in the source.
    Number(Scalar, CExpr),
    /// A struct or an array, by the place where it stands.
    Whole(CPlace),
}
