//! Texts behind faces.

use bl_face::{Face, print_face, read_face};
use bl_module::{Part, PartFault, compile};
use bl_tree::{List, NoMemory, Rule};
use std::alloc::Global;
use std::process::Abort;

/// The faces that the texts spell.
fn faces(alloc: Global, texts: &[&str]) -> Result<List<Face>, NoMemory> {
    let mut made = List::new(alloc);
    for text in texts {
        if let Ok(face) = read_face(alloc, text.as_bytes()) {
            made.push(face)?;
        }
    }
    Ok(made)
}

/// Whether the part has a face with this text.
fn has_face(alloc: Global, part: &Result<Part, PartFault>, text: &str) -> Result<bool, NoMemory> {
    match part {
        Ok(part) => Ok(print_face(alloc, part.face())?.as_slice() == text.as_bytes()),
        Err(_) => Ok(false),
    }
}

/// Whether the first rule that fails is this one, at this place.
fn fails(part: &Result<Part, PartFault>, rule: Rule, start: u32, end: u32) -> bool {
    match part {
        Err(
            PartFault::Rule {
                rule: first,
                place,
                ..
            },
        ) => *first == rule && place.start == start && place.end == end,
        _ => false,
    }
}

/// Whether the face of this number can't stand.
fn is_bad(part: &Result<Part, PartFault>, number: usize) -> bool {
    match part {
        Err(PartFault::BadFace { face }) => *face == number,
        _ => false,
    }
}

const CONFIG: &str =
    "struct S var a: int32 end const N: int32 = 3 function G (s: S)() returns int32";

const USER: &str = "activity B ()(o: int32) var s: [N]S o = G(s[1]) + N await true end";

const OWN: &str =
    "const N = 2 + 3 const B: bool = not false struct S var m: [N][2]bool var t: [1]int8 end \
                   function F (s: S) returns bool const N: int32 = 9 return s.m[N - 6][0] end";

const OWN_FACE: &str =
    "const N: int32 = 5\nconst B: bool = true\nstruct S var m: [5][2]bool var t: [1]int8 end\n\
                        function F (s: S)() returns bool\n";

#[test]
fn a_text_may_use_what_faces_declare(rt: HostRuntime) -> Result<(), NoMemory> {
    let alloc = rt.alloc();
    let uses = faces(alloc, &[CONFIG])?;
    let part = compile(alloc, USER.as_bytes(), &uses, false);
    assert!(&rt; has_face(alloc, &part, "activity B ()(o: int32)\n")?);
    let part = compile(alloc, USER.as_bytes(), &[], false);
    assert!(&rt; fails(&part, Rule::Unknown, 32, 33));
    Ok(())
}

#[test]
fn a_face_has_types_and_values(rt: HostRuntime) -> Result<(), NoMemory> {
    let alloc = rt.alloc();
    let part = compile(alloc, OWN.as_bytes(), &[], false);
    assert!(&rt; has_face(alloc, &part, OWN_FACE)?);
    let part = compile(alloc, OWN.as_bytes(), &[], true);
    assert!(&rt; fails(&part, Rule::Entry, 162, 162));
    Ok(())
}

#[test]
fn a_face_may_not_stand(rt: HostRuntime) -> Result<(), NoMemory> {
    let alloc = rt.alloc();
    let uses = faces(alloc, &[CONFIG, "const K: S = 1", "const N: int32 = 1"])?;
    let part = compile(alloc, USER.as_bytes(), &uses, false);
    assert!(&rt; is_bad(&part, 2));
    Ok(())
}
