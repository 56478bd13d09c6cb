//! What is made of statements, and the numbers in their names.

use bl_tree::List;
use bl_tree::c::{CExpr, CStmt};

/// The least numbers that no name of a function has yet.
#[derive(Clone, Copy, PartialEq, Eq, Debug)]
pub struct Free {
    /// Of the flags of `if` statements.
    pub flags: u64,
    /// Of what counts the turns of loops.
    pub turns: u64,
}

/// The C of statements, and the numbers that are free after them.
#[derive(Drop)]
pub struct Coded {
    pub code: List<CStmt>,
    pub free: Free,
}

/// The C of the arms of an `if`, to which what is done else is still to come.
#[derive(Drop)]
pub enum ArmsCoded {
    /// The condition of the one arm, and its statements.
    One(CExpr, Coded),
    /// The same of two arms, of which the second stands in the `else` of the first.
    Two(CExpr, Coded, CExpr, Coded),
    /// The number of the flag that tells whether none was taken, and the arms one behind the other.
    Several(u64, Coded),
}
