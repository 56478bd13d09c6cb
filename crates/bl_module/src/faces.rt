//! Faces, one after another.

ghost use Rattle.std.specs.Prelude.{◌≡◌, IfErr, IfOk, OnOk};
ghost use Rattle.bl_module.specs.Faces.{FacesStand, StopsAtFace, behind_faces};

use crate::behind::Behind;
use crate::fault::PartFault;
use crate::walk::Walk;
use bl_face::Face;
use bl_tree::NoMemory;
use std::alloc::Global;

/// What the faces declare. Else the number of the first that can't stand behind those before it, or want of memory.
pub fn behind_faces(alloc: Global, faces: &[Face]) -> Result<Behind, PartFault>
    ensures stand { OnOk result (FacesStand faces.now) }
    ensures behind { IfOk result (λ behind. behind ≡ behind_faces faces.now) }
    ensures fault { IfErr result (StopsAtFace faces.now) }
{
    let mut walk = Walk::new(alloc);
    for k in 0..faces.len() {
        match walk.go_on(alloc, &faces[k].items) {
            Ok(true) => {}
            Ok(false) => return Err(PartFault::BadFace { face: k + 1 }),
            Err(NoMemory) => return Err(PartFault::NoMemory),
        }
    }
    let Walk { behind, .. } = walk;
    Ok(behind)
}
