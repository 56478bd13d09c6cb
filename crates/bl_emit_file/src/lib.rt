//! The C file of an accepted program. `c_file` makes it. It has a spelling, is well formed, has the columns of the
//! program's entry, and needs no more cells than rule Cells counts for the entry, so at most 1,000,000. Each activity
//! with an instance has one function, which alone names its counters. It has as many counters as its width, and as many
//! `if`s as a machine with merged blocks has blocks for it. Only these `if`s ask for its flags, of which it has one for
//! each block whose first node waits by one. Over all rows that fit, the file has the one trace that the
//! semantics of the program allows (`specs/Shows.antt`, `ShowsProgram`). It is written of a machine of the program in
//! which no two neighbouring blocks can be merged (`specs/Merged.antt`, `IsOfMerged`). The program must be made of a
//! source text (`FromText` of `bl_machine_prevs`), so that 64 bits count what stands in its units (`AreSmall` of
//! `bl_rules_laws_sizes`). One lemma combines those of the parts (`specs/Laws.antt`, `ProgramsShow`).
#![tactic(auto)]

mod laws;

ghost use Rattle.std.specs.Prelude.{IfOk};
ghost use Rattle.bl_ctext_semantics.specs.Parts.{parts_of};
ghost use Rattle.bl_machine_prevs.specs.Declared.{FromText};
ghost use Rattle.bl_rules_laws_sizes.specs.Small.{AreSmall};
ghost use Rattle.bl_emit_file.specs.Merged.{IsOfMerged};
ghost use Rattle.bl_emit_file.specs.Shows.{ShowsProgram};

use crate::laws::{programs_have_spelling, programs_show};
use bl_block::merge;
use bl_cause::Accepted;
use bl_ctext::CFile;
use bl_emit::emit;
use bl_emit_laws::told::written_is_told;
use bl_machine::Machine;
use bl_tree::NoMemory;
use std::alloc::Global;

/// The C file of an accepted program. Fails only for want of memory.
pub fn c_file(alloc: Global, accepted: &Accepted) -> Result<CFile, NoMemory>
    requires text { FromText accepted.now.program.units }
    requires small { AreSmall accepted.now.program.units }
    ensures shows { IfOk result (λ file. ShowsProgram accepted.now.program.structs accepted.now.program.units accepted.now.program.entry (parts_of file)) }
    ensures merged { IfOk result (λ file. IsOfMerged accepted.now.program (parts_of file)) }
{
    accepted.is_accepted();
    programs_show();
    programs_have_spelling();
    written_is_told();
    let machine = Machine::of(alloc, accepted)?;
    let merged = merge(alloc, &machine, accepted)?;
    merged.is_machine();
    let made = emit(alloc, &merged)?;
    Ok(CFile {
        structs: made.structs,
        funcs: made.funcs,
    })
}
