//! The C file that is written for an accepted program: the one that `bl_emit_file` makes, simplified (`bl_simplify`). It has
//! the one trace that the semantics of the program allows, over all rows that fit. It is well formed, has the columns of the
//! program's entry, and needs no more cells than rule Cells counts for the entry. Each activity with an instance has one
//! function in it, which alone names its counters (`specs/Written.antt`, `IsWrittenOf`).
#![tactic(auto)]

ghost use Rattle.std.specs.Prelude.{IfOk};
ghost use Rattle.bl_ctext_semantics.specs.Parts.{parts_of};
ghost use Rattle.bl_machine_prevs.specs.Declared.{FromText};
ghost use Rattle.bl_rules_laws_sizes.specs.Small.{AreSmall};
ghost use Rattle.bl_emit_simplified.specs.Written.{IsWrittenOf};

use bl_cause::Accepted;
use bl_ctext::CFile;
use bl_simplify::simplified;
use bl_tree::NoMemory;
use std::alloc::Global;

/// The C file of an accepted program. Fails only where memory runs out.
pub fn c_file(alloc: Global, accepted: &Accepted) -> Result<CFile, NoMemory>
    requires text { FromText accepted.now.program.units }
    requires small { AreSmall accepted.now.program.units }
    ensures { IfOk result (λ file. IsWrittenOf accepted.now.program.structs accepted.now.program.units accepted.now.program.entry (parts_of file)) }
{
    let emitted = bl_emit_file::c_file(alloc, accepted)?;
    simplified(alloc, emitted)
}
