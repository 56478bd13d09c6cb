//! The variables that count the turns of loops.

ghost use Rattle.std.specs.Prelude.{◌≡◌, ◌∷◌, [], ◌++◌, OnOk};
ghost use Rattle.bl_ctext_semantics.specs.Loops.{turns_in, turns_in_block};
ghost use Rattle.bl_ctext_semantics.specs.inner.Maps.{named_entries};

use bl_tree::c::{CStmt, CStmtKind};
use bl_tree::{NoMemory, Place};

/// What counts the turns of loops: each variable with the place of its loop, in the order of the text.
pub type Turns<'a> = Vec<(&'a str, Place)>;

fn add_turn<'a>(turns: &mut Turns<'a>, name: &'a str, at: Place) -> Result<(), NoMemory>
    ensures { OnOk result (named_entries turns.new.items ≡ named_entries turns.old.items ++ (name.now, at) ∷ []) }
{
    match turns.push((name, at)) {
        Ok(()) => Ok(()),
        Err(_) => Err(NoMemory),
    }
}

#[cycle(looping)]
fn add_stmt<'a>(turns: &mut Turns<'a>, stmt: &'a CStmt) -> Result<(), NoMemory>
    ensures { OnOk result (named_entries turns.new.items ≡ named_entries turns.old.items ++ turns_in stmt.now) }
{
    match &stmt.what {
        CStmtKind::If(_, block, Some(other)) => {
            add_turns(turns, block)?;
            add_turns(turns, other)
        }
        CStmtKind::If(_, block, None) => add_turns(turns, block),
        CStmtKind::Loop(name, _, body) => {
            add_turn(turns, name.as_str(), stmt.place)?;
            add_turns(turns, body)
        }
        _ => Ok(()),
    }
}

/// Adds those of a block.
#[cycle(looping)]
pub fn add_turns<'a>(turns: &mut Turns<'a>, block: &'a [CStmt]) -> Result<(), NoMemory>
    ensures { OnOk result (named_entries turns.new.items ≡ named_entries turns.old.items ++ turns_in_block block.now) }
{
    for stmt in block {
        add_stmt(turns, stmt)?;
    }
    Ok(())
}
