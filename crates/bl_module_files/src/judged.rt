//! A source file, judged behind interface files.

ghost use Rattle.std.specs.Prelude.{◌≡◌, ◌∷◌, map, string_bytes, IfErr, IfOk};
ghost use Rattle.bl_io.specs.Count.{NeverFell};
ghost use Rattle.bl_module_files.specs.Judged.{FilesStop, IsFaceOfFile};
ghost use Rattle.bl_module_files.specs.Turns.{StandFurther};

use crate::faces::{FILE_LIMIT, faces_of, unread};
use crate::fault::FilesFault;
use bl_face::Face;
use bl_io::{Files, read_up_to};
use bl_module::{Taken, face_behind};
use std::alloc::Global;

/// The face of the source file of the first name behind the interface files of the others. The source is taken as the last file of its
/// program exactly where a unit of its tree has the mark of an entry point.
pub fn face_of_file<F: Files>(
    alloc: Global,
    source: &str,
    names: &[String],
    files: &mut F,
) -> Result<Face, FilesFault>
    ensures face { IfOk result (IsFaceOfFile (F.left files.old) source.now (map string_bytes names.now)) }
    ensures fault { IfErr result (FilesStop (F.left files.old) (F.faults files.old) (F.faults files.new) source.now (map string_bytes names.now)) }
    ensures reads { StandFurther (source.now ∷ map string_bytes names.now) (F.left files.old) (F.left files.new) }
    ensures file_counts { NeverFell (F.faults files.old) (F.faults files.new) }
{
    let text = match read_up_to(alloc, files, source, FILE_LIMIT) {
        Ok(text) => text,
        Err(fault) => return Err(unread(fault)),
    };
    let uses = match faces_of(alloc, names, files) {
        Ok(uses) => uses,
        Err(fault) => return Err(fault),
    };
    match face_behind(alloc, &text, &uses, Taken::AsMarked) {
        Ok(face) => Ok(face),
        Err(fault) => Err(FilesFault::NoPart(fault)),
    }
}
