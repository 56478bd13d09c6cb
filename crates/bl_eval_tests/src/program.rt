//! The first statement of the loop that ends a program.

use bl_tree::Program;
use bl_tree::tree::{Stmt, StmtKind};

/// The first statement in the loop that is the body of a program's last unit.
pub fn first_of(program: &Program) -> Option<&Stmt> {
    let unit = program.units.as_slice().last()?;
    let [around] = unit.body.as_slice() else {
        return None;
    };
    let StmtKind::Repeat(body) = &around.what else {
        return None;
    };
    body.as_slice().first()
}
