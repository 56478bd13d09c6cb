//! Tests, two by two.

use bl_tree::List;
use bl_tree::c::CExpr;

/// The answers of tests, two by two, and a test that waits for another one.
#[derive(Drop)]
pub struct Pairs {
    pub made: List<CExpr>,
    pub waiting: Option<CExpr>,
}
