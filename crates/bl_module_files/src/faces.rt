//! Interface files, read in turn.

ghost use Rattle.std.specs.Prelude.{◌≡◌, ◌≤◌, ◌+◌, map, string_bytes, IfErr, IfOk, OnOk};
ghost use Rattle.bl_io.specs.Count.{NeverFell};
ghost use Rattle.bl_io.specs.Left.{KeepsOthers, StandsFurther};
ghost use Rattle.bl_module_files.specs.Faces.{AreFaces, FacesStop};
ghost use Rattle.bl_module_files.specs.Turns.{StandFurther, file_limit};
ghost use Rattle.bl_module_files.specs.inner.Read.{FaceStops, IsFaceIn, IsUnreadOr};

use crate::fault::FilesFault;
use bl_face::{Face, FaceFault, read_face};
use bl_io::{Files, IoFault, read_up_to};
use std::alloc::Global;

/// How far a source or an interface is read: one byte past the longest that is taken.
pub const FILE_LIMIT: usize = 1_048_577;

/// The faces of the files of these names, or why there are none.
pub fn faces_of<F: Files>(
    alloc: Global,
    names: &[String],
    files: &mut F,
) -> Result<Vec<Face>, FilesFault>
    ensures faces { IfOk result (λ faces. AreFaces (F.left files.old) (map string_bytes names.now) faces.items (F.left files.new)) }
    ensures fault { IfErr result (FacesStop (F.left files.old) (F.faults files.old) (F.faults files.new) (map string_bytes names.now)) }
    ensures reads { StandFurther (map string_bytes names.now) (F.left files.old) (F.left files.new) }
    ensures file_counts { NeverFell (F.faults files.old) (F.faults files.new) }
{
    let mut faces = Vec::new(alloc);
    for k in 0..names.len() {
        match face_in(alloc, k + 1, names[k].as_str(), files) {
            Ok(face) => {
                if faces.push(face).is_err() {
                    return Err(FilesFault::NoMemory);
                }
            }
            Err(fault) => return Err(fault),
        }
    }
    Ok(faces)
}

/// The face of the file of this name, which is the interface file of this number.
fn face_in<F: Files>(
    alloc: Global,
    number: usize,
    name: &str,
    files: &mut F,
) -> Result<Face, FilesFault>
    ensures face { IfOk result (λ face. IsFaceIn name.now face (F.left files.old) (F.left files.new)) }
    ensures fault { IfErr result (FaceStops number (F.left files.old name.now) (F.faults files.old name.now) (F.faults files.new name.now)) }
    ensures further { StandsFurther file_limit (F.left files.old name.now) (F.left files.new name.now) }
    ensures others { KeepsOthers name.now (F.left files.old) (F.left files.new) }
    ensures file_counts { NeverFell (F.faults files.old) (F.faults files.new) }
{
    let text = match read_up_to(alloc, files, name, FILE_LIMIT) {
        Ok(text) => text,
        Err(fault) => return Err(unread(fault)),
    };
    match read_face(alloc, &text) {
        Ok(face) => Ok(face),
        Err(FaceFault::NotFace { at }) => Err(FilesFault::NotFace { file: number, at }),
        Err(FaceFault::NoMemory) => Err(FilesFault::NoMemory),
    }
}

/// What a failed read comes to.
pub fn unread(fault: IoFault) -> FilesFault
    ensures { IsUnreadOr fault result }
{
    match fault {
        IoFault::Failed => FilesFault::Unread,
        IoFault::NoMemory => FilesFault::NoMemory,
    }
}
