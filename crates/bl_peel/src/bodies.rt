//! Bodies with first turns, where they aren't too large.

ghost use Rattle.std.specs.Prelude.{◌≡◌, ◌<◌, ◌≤◌, length, slice_get, IfErr, IfOk, OnOk, Some};
ghost use Rattle.bl_peel.specs.Count.{statement_count};
ghost use Rattle.bl_peel.specs.Peeled.{peeled};
ghost use Rattle.bl_peel.specs.inner.Parts.{IsFaultOf};
ghost use Rattle.bl_tree.specs.declared.tree.Unit.{Unit as UnitDef};

use crate::count::in_block;
use crate::turns::deep_block;
use bl_effects::Effects;
use bl_tree::tree::Stmt;
use bl_tree::{List, NoMemory, Program};
use std::alloc::Global;

/// How many statements a body with first turns may have.
const MOST: u64 = 10_000;

/// Why no body with first turns was made.
#[derive(Clone, Copy, PartialEq, Eq, Debug)]
pub enum PeelFault {
    /// It has more than 10,000 statements.
    TooLarge,
    /// Memory was refused.
    NoMemory,
}

/// The body of the unit at the position, with each loop that begins a branch of a `cobegin` copied once for its first turn.
/// The effects aren't asked.
pub fn peel(
    alloc: Global,
    program: &Program,
    _effects: &Effects,
    unit: u32,
) -> Result<List<Stmt>, PeelFault>
    requires is_there { unit < length program.now.units }
    ensures made { (of : UnitDef) → slice_get program.now.units unit ≡ Some of → IfOk result (λ made. made ≡ peeled of.body) }
    ensures fits { (of : UnitDef) → slice_get program.now.units unit ≡ Some of → OnOk result (statement_count (peeled of.body) ≤ 10000) }
    ensures fault { (of : UnitDef) → slice_get program.now.units unit ≡ Some of → IfErr result (IsFaultOf of.body) }
{
    peel_body(alloc, &program.units[unit as usize].body)
}

/// The body of a unit that need not be a program's, with first turns.
pub fn peel_body(alloc: Global, body: &[Stmt]) -> Result<List<Stmt>, PeelFault>
    ensures made { IfOk result (λ made. made ≡ peeled body.now) }
    ensures fits { OnOk result (statement_count (peeled body.now) ≤ 10000) }
    ensures fault { IfErr result (IsFaultOf body.now) }
{
    if in_block(body).deep > MOST {
        return Err(PeelFault::TooLarge);
    }
    match deep_block(alloc, body) {
        Ok(made) => Ok(made),
        Err(NoMemory) => Err(PeelFault::NoMemory),
    }
}
