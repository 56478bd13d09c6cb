//! The spots that statements write, or whose addresses calls get.

ghost use Rattle.std.specs.Prelude.{◌≡◌, ◌++◌, OnOk, map};
ghost use Rattle.bl_tree.specs.Reduce.{joined};
ghost use Rattle.bl_simplify_laws.specs.Spots.{lent_by, lent_in};
ghost use Rattle.bl_simplify_laws.specs.Written.{written_by, written_in};

use bl_simplify_facts::spots::spot_in;
use bl_simplify_laws::facts::CSpot;
use bl_tree::c::{CArg, CCall, CPlace, CStmt, CStmtKind};
use bl_tree::{List, NoMemory};
use std::alloc::Global;

/// Adds the spots that the statements of a block write.
#[cycle(writing)]
pub fn add_written(alloc: Global, block: &[CStmt], spots: &mut List<CSpot>) -> Result<(), NoMemory>
    ensures { OnOk result (spots.new ≡ spots.old ++ written_in block.now) }
{
    for stmt in block {
        add_written_by(alloc, stmt, spots)?;
    }
    Ok(())
}

/// Adds the spots that a statement writes.
#[cycle(writing)]
pub fn add_written_by(alloc: Global, stmt: &CStmt, spots: &mut List<CSpot>) -> Result<(), NoMemory>
    ensures { OnOk result (spots.new ≡ spots.old ++ written_by stmt.now) }
{
    match &stmt.what {
        CStmtKind::Set(at, _) => Ok(spots.push(spot_in(alloc, at)?)?),
        CStmtKind::Clear(at, _) => Ok(spots.push(spot_in(alloc, at)?)?),
        CStmtKind::Call(call) => add_lent(alloc, call, spots),
        CStmtKind::If(_, block, None) => add_written(alloc, block, spots),
        CStmtKind::If(_, block, Some(other)) => {
            add_written(alloc, block, spots)?;
            add_written(alloc, other, spots)
        }
        CStmtKind::Loop(_, _, body) => add_written(alloc, body, spots),
        CStmtKind::Break | CStmtKind::Return(_) => Ok(()),
    }
}

/// Adds the spots whose addresses a call passes on.
pub fn add_lent(alloc: Global, call: &CCall, spots: &mut List<CSpot>) -> Result<(), NoMemory>
    ensures { OnOk result (spots.new ≡ spots.old ++ lent_in call.now) }
{
    add_all_lent(alloc, &call.args, spots)
}

fn add_all_lent(alloc: Global, args: &[CArg], spots: &mut List<CSpot>) -> Result<(), NoMemory>
    ensures { OnOk result (spots.new ≡ spots.old ++ joined (map lent_by args.now)) }
{
    for arg in args {
        add_lent_by(alloc, arg, spots)?;
    }
    Ok(())
}

fn add_lent_by(alloc: Global, arg: &CArg, spots: &mut List<CSpot>) -> Result<(), NoMemory>
    ensures { OnOk result (spots.new ≡ spots.old ++ lent_by arg.now) }
{
    match arg {
        CArg::Value(_) => Ok(()),
        CArg::Address(at) => Ok(spots.push(spot_in(alloc, at)?)?),
    }
}
