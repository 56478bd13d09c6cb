//! Blocks that are made from their end on.

ghost use Rattle.std.specs.Prelude.{◌≡◌, [], ◌∷◌, ◌++◌, IfOk, true};

use crate::weight::weight_in_split;
use bl_tree::c::CStmt;
use bl_tree::{List, NoMemory};
use std::alloc::Global;
use std::marker::Model;

/// A block that grows at its front, so that what a statement needs of those that follow it is known.
#[derive(Drop)]
pub struct Front {
    /// The last statement first.
    reversed: Vec<CStmt>,
    /// How many nodes the statements have.
    pub weight: usize,
}

impl Model for Front {
    ghost use Rattle.std.specs.Prelude.{List, reverse};
    ghost use Rattle.std.specs.Coded.{codes};
    ghost use Rattle.bl_tree.specs.declared.c.CStmt.{CStmt};
    ghost use Rattle.bl_tree.specs.contracts.c.CStmt as stmt;
    ghost use Rattle.bl_tree.specs.contracts.c.CStmtKind as kind;

    ghost Value = { List CStmt };

    ghost coded = { Prim.hlevel (codes, stmt.the_row.coded, kind.the_row.coded) };

    ghost view = { λ front. reverse front.reversed.items };
}

impl Front {
    /// The empty block.
    pub fn new(alloc: Global) -> Front
        ensures { result ≡ [] }
    {
        Front {
            reversed: Vec::new(alloc),
            weight: 0,
        }
    }

    pub fn is_empty(&self) -> bool
        ensures { result ≡ true → self.now ≡ [] }
    {
        self.reversed.is_empty()
    }

    /// The block after a statement that has so many nodes.
    pub fn after(self, stmt: CStmt, weight: usize) -> Result<Front, NoMemory>
        ensures { IfOk result (λ block. block ≡ stmt ∷ self) }
    {
        let Front {
            mut reversed,
            weight: others,
        } = self;
        match reversed.push(stmt) {
            Ok(()) => Ok(Front {
                reversed,
                weight: others.saturating_add(weight),
            }),
            Err(_) => Err(NoMemory),
        }
    }

    /// The block before another one.
    pub fn before(self, following: Front) -> Result<Front, NoMemory>
        ensures { IfOk result (λ block. block ≡ self ++ following) }
    {
        put_before(self.finish().into_vec(), following)
    }

    /// The statements, the first one first.
    pub fn finish(self) -> List<CStmt>
        ensures { result ≡ self }
    {
        let Front {
            mut reversed,
            weight: _,
        } = self;
        reversed.reverse();
        List::from_vec(reversed)
    }
}

/// Statements before a block.
pub fn put_before(stmts: Vec<CStmt>, following: Front) -> Result<Front, NoMemory>
    ensures { IfOk result (λ block. block ≡ stmts.items ++ following) }
{
    let mut left = stmts;
    let mut made = following;
    while let Some(stmt) = left.pop() {
        let weight = weight_in_split(&stmt);
        made = made.after(stmt, weight)?;
    }
    Ok(made)
}
