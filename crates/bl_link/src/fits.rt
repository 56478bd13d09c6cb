//! Whether parts are the files of one program.

ghost use Rattle.std.specs.Prelude.{◌↔◌, ◌<◌, ◌≤◌, length, IfErr, IfNone, IfSome, IsTrue, OnOk};
ghost use Rattle.bl_link.specs.Fits.{FaceFits, FacesFit, IsFirstMisfit, LastFits, LastsFit, PartsFit};
ghost use Rattle.bl_link.specs.Linked.{LinkStops};

use crate::fault::LinkFault;
use bl_module::Part;

/// Whether each part was judged behind the faces of those before it, and the last alone as the last file. Else the first that wasn't; all
/// faces are looked at first.
pub fn check_fit(parts: &[Part]) -> Result<(), LinkFault>
    requires few { length parts.now ≤ 64 }
    ensures fit { OnOk result (PartsFit parts.now) }
    ensures fault { IfErr result (LinkStops parts.now) }
{
    match first_wrong_face(parts) {
        Some(part) => Err(LinkFault::Face { part }),
        None => match first_wrong_last(parts) {
            Some(part) => Err(LinkFault::Last { part }),
            None => Ok(()),
        },
    }
}

fn first_wrong_face(parts: &[Part]) -> Option<u32>
    requires few { length parts.now ≤ 64 }
    ensures none { IfNone result (FacesFit parts.now) }
    ensures first { IfSome result (IsFirstMisfit (FaceFits parts.now) (length parts.now)) }
{
    for k in 0..parts.len() {
        if !face_fits(parts, k) {
            return Some(k as u32 + 1);
        }
    }
    None
}

fn first_wrong_last(parts: &[Part]) -> Option<u32>
    requires few { length parts.now ≤ 64 }
    ensures none { IfNone result (LastsFit parts.now) }
    ensures first { IfSome result (IsFirstMisfit (LastFits parts.now) (length parts.now)) }
{
    for k in 0..parts.len() {
        if !last_fits(parts, k) {
            return Some(k as u32 + 1);
        }
    }
    None
}

fn face_fits(parts: &[Part], k: usize) -> bool
    requires { k < length parts.now }
    ensures { IsTrue result ↔ FaceFits parts.now k }
{
    let uses = parts[k].uses();
    if uses.len() != k {
        return false;
    }
    for j in 0..k {
        if !uses[j].is_same(parts[j].face()) {
            return false;
        }
    }
    true
}

fn last_fits(parts: &[Part], k: usize) -> bool
    requires { k < length parts.now }
    ensures { IsTrue result ↔ LastFits parts.now k }
{
    parts[k].last() == (k + 1 == parts.len())
}
