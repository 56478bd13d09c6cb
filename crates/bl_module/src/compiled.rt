//! Texts compiled behind faces.

ghost use Rattle.std.specs.Prelude.{◌≡◌, IfErr, IfOk};
ghost use Rattle.bl_module.specs.Faces.{items_of};
ghost use Rattle.bl_module.specs.Parts.{IsGoodBehind, PartStops, fault_of};

use crate::faces::behind_faces;
use crate::fault::PartFault;
use crate::judge::judge;
use crate::part::Part;
use crate::taken::Taken;
use bl_face::Face;
use bl_tree::{List, NoMemory, Refusal};
use std::alloc::Global;

/// The face of a text behind faces. Else the first face that can't stand behind those before it; or the first rule that fails for the
/// text, where all faces stand (docs/FORMATS.md, "Interfaces").
pub fn face_behind(
    alloc: Global,
    text: &[u8],
    uses: &[Face],
    taken: Taken,
) -> Result<Face, PartFault>
    ensures good { IfOk result (IsGoodBehind uses.now taken text.now) }
    ensures fault { IfErr result (PartStops uses.now taken text.now) }
{
    let behind = match behind_faces(alloc, uses) {
        Ok(behind) => behind,
        Err(fault) => return Err(fault),
    };
    match judge(alloc, text, behind, taken) {
        Ok(face) => Ok(face),
        Err(refusal) => Err(fault_of(refusal)),
    }
}

/// The fault that tells a refusal.
fn fault_of(refusal: Refusal) -> PartFault
    ensures { result ≡ fault_of refusal }
{
    match refusal {
        Refusal::Rule { rule, place, also } => PartFault::Rule { rule, place, also },
        Refusal::NoMemory => PartFault::NoMemory,
    }
}

/// The part of a program that a text is behind faces, which are those of the files before it. `last` is whether the text is taken as the
/// last file, which has the entry point. The faults are those of `face_behind`.
pub fn compile(alloc: Global, text: &[u8], uses: &[Face], last: bool) -> Result<Part, PartFault>
    ensures text { IfOk result (λ part. part.text ≡ text.now) }
    ensures uses { IfOk result (λ part. items_of part.uses ≡ items_of uses.now) }
    ensures last { IfOk result (λ part. part.last ≡ last) }
    ensures fault { IfErr result (PartStops uses.now (Taken.AsLast last) text.now) }
{
    let face = face_behind(alloc, text, uses, Taken::AsLast(last))?;
    match part_of(alloc, text, uses, face, last) {
        Ok(part) => Ok(part),
        Err(NoMemory) => Err(PartFault::NoMemory),
    }
}

/// The part with copies of the text and the faces.
fn part_of(
    alloc: Global,
    text: &[u8],
    uses: &[Face],
    face: Face,
    last: bool,
) -> Result<Part, NoMemory>
    requires { IsGoodBehind uses.now (Taken.AsLast last) text.now face }
    ensures text { IfOk result (λ part. part.text ≡ text.now) }
    ensures uses { IfOk result (λ part. items_of part.uses ≡ items_of uses.now) }
    ensures last { IfOk result (λ part. part.last ≡ last) }
{
    let text = copied(alloc, text)?;
    let uses = copies(alloc, uses)?;
    Ok(Part::new(text, uses, face, last))
}

/// The bytes once more.
fn copied(alloc: Global, bytes: &[u8]) -> Result<List<u8>, NoMemory>
    ensures { IfOk result (λ made. made ≡ bytes.now) }
{
    let made = Vec::from_slice(alloc, bytes)?;
    Ok(List::from_vec(made))
}

/// The faces once more.
fn copies(alloc: Global, faces: &[Face]) -> Result<List<Face>, NoMemory>
    ensures { IfOk result (λ made. items_of made ≡ items_of faces.now) }
{
    let mut made = List::new(alloc);
    for face in faces {
        made.push(face.copy(alloc)?)?;
    }
    Ok(made)
}
