//! The program of source files.

ghost use Rattle.std.specs.Prelude.{◌≡◌, ◌≤◌, length, map, string_bytes, IfErr, IfOk};
ghost use Rattle.bl_io.specs.Count.{NeverFell};
ghost use Rattle.bl_link.specs.Files.{AreFilesOf};
ghost use Rattle.bl_link_files.specs.inner.Judged.{IsStopOf, TextsStop};
ghost use Rattle.bl_link_files.specs.Programs.{HaveNoProgram, IsProgramOfFiles};
ghost use Rattle.bl_module_files.specs.Turns.{StandFurther};
ghost use Rattle.bl_rules_laws_sizes.specs.Small.{IsOfSmallTree};

use crate::fault::ProgramFault;
use crate::read::{FirstTexts, texts_of};
use crate::turns::{program_in_turn, stop_in_turn};
use bl_io::{Files, IoFault};
use bl_link_together::program_together;
use bl_module_files::laws::fronts_are_judged_as_wholes;
use bl_rules::AcceptedSource;
use bl_tree::List;
use std::alloc::Global;

/// The program of the source files of these names.
pub fn program_of_files<F: Files>(
    alloc: Global,
    names: &[String],
    files: &mut F,
) -> Result<AcceptedSource, ProgramFault>
    requires some { 1 ≤ length names.now }
    requires few { length names.now ≤ 64 }
    ensures program { IfOk result (λ accepted. IsProgramOfFiles (F.left files.old) (map string_bytes names.now) accepted.program) }
    ensures of_small_tree { IfOk result (λ accepted. IsOfSmallTree accepted.program) }
    ensures fault { IfErr result (HaveNoProgram (F.left files.old) (F.faults files.old) (F.faults files.new) (map string_bytes names.now)) }
    ensures reads { StandFurther (map string_bytes names.now) (F.left files.old) (F.left files.new) }
    ensures file_counts { NeverFell (F.faults files.old) (F.faults files.new) }
{
    fronts_are_judged_as_wholes();
    let FirstTexts { texts, stop } = texts_of(alloc, names, files);
    match stop {
        None => match program_of(alloc, &texts) {
            Ok(accepted) => Ok(accepted),
            Err(fault) => Err(fault),
        },
        Some(fault) => Err(stop_at(alloc, names.len(), &texts, fault)),
    }
}

/// Why so many files stop of which these texts were read, and whose next read came to this.
fn stop_at(alloc: Global, count: usize, texts: &[List<u8>], fault: IoFault) -> ProgramFault
    requires some { 1 ≤ count }
    requires few { count ≤ 64 }
    requires within { fault ≡ IoFault.Failed → length texts.now ≤ count }
    ensures failed { fault ≡ IoFault.Failed → IsStopOf count texts.now result }
    ensures memory { fault ≡ IoFault.NoMemory → result ≡ ProgramFault.NoMemory }
{
    match fault {
        IoFault::Failed => stop_in_turn(alloc, count, texts),
        IoFault::NoMemory => ProgramFault::NoMemory,
    }
}

/// The program of these texts. They are judged together first, and in turn only where that gives none.
fn program_of(alloc: Global, texts: &[List<u8>]) -> Result<AcceptedSource, ProgramFault>
    requires some { 1 ≤ length texts.now }
    requires few { length texts.now ≤ 64 }
    ensures program { IfOk result (λ accepted. AreFilesOf texts.now accepted.program) }
    ensures of_small_tree { IfOk result (λ accepted. IsOfSmallTree accepted.program) }
    ensures fault { IfErr result (TextsStop texts.now) }
{
    match program_together(alloc, texts) {
        Some(accepted) => Ok(accepted),
        None => program_in_turn(alloc, texts),
    }
}
