//! Parts and files linked.

ghost use Rattle.std.specs.Prelude.{◌≡◌, ◌<◌, [], ◌∷◌, ◌++◌, length, IfOk};

use bl_face::Face;
use bl_link::{FirstFiles, LinkFault, link};
use bl_module::{Part, compile};
use bl_tree::{List, NoMemory, Rule};
use std::alloc::Global;
use std::process::Abort;

/// The part of a text behind faces.
fn part(alloc: Global, text: &str, uses: &[Face], last: bool) -> Result<Part, NoMemory> {
    match compile(alloc, text.as_bytes(), uses, last) {
        Ok(part) => Ok(part),
        Err(_) => Err(NoMemory),
    }
}

/// The files with one more.
fn with(files: FirstFiles, alloc: Global, text: &str) -> Result<FirstFiles, NoMemory>
    requires { length files.texts < files.count }
    ensures count { IfOk result (λ more. more.count ≡ files.count) }
    ensures texts { IfOk result (λ more. more.texts ≡ files.texts ++ text.now ∷ []) }
{
    match files.with(alloc, text.as_bytes()) {
        Ok(more) => Ok(more),
        Err(_) => Err(NoMemory),
    }
}

const FIRST: &str = "activity A (i: int32)(x: int32) x = i await true x = x + 10 end";

const OTHER: &str = "activity A (i: int32)(x: int32) x = 0 - i await true x = x + 20 end";

const SECOND: &str = "@[EntryPoint] activity M (i: int32)(o: int32) run A(i)(o) end";

const ENTRY: &str = "@[EntryPoint] activity M ()() await true end";

const LARGE: &str = "activity A ()() var a: [65536]int32 await true end";

const LARGER: &str =
    "@[EntryPoint] activity M ()() var b: [65536]int32 var c: [65536]int32 var d: [65536]int32 run A()() end";

#[test]
fn a_part_may_be_exchanged_for_one_with_its_face(rt: HostRuntime) -> Result<(), NoMemory> {
    let alloc = rt.alloc();
    let first = part(alloc, FIRST, &[], false)?;
    let mut uses = List::new(alloc);
    uses.push(first.face().copy(alloc)?)?;
    let second = part(alloc, SECOND, &uses, true)?;
    let mut parts = List::new(alloc);
    parts.push(part(alloc, OTHER, &[], false)?)?;
    parts.push(second)?;
    match link(alloc, &parts) {
        Ok(accepted) => assert!(&rt; accepted.program().units.len() == 2),
        Err(fault) => assert!(&rt; fault == LinkFault::NoMemory),
    }
    Ok(())
}

#[test]
fn a_part_may_not_fit(rt: HostRuntime) -> Result<(), NoMemory> {
    let alloc = rt.alloc();
    let mut parts = List::new(alloc);
    parts.push(part(alloc, FIRST, &[], false)?)?;
    assert!(&rt; matches!(&link(alloc, &parts), Err(LinkFault::Last { part: 1 })));
    parts.push(part(alloc, ENTRY, &[], true)?)?;
    assert!(&rt; matches!(&link(alloc, &parts), Err(LinkFault::Face { part: 2 })));
    Ok(())
}

#[test]
fn files_may_be_too_large_together(rt: HostRuntime) -> Result<(), NoMemory> {
    let alloc = rt.alloc();
    let files = with(FirstFiles::new(alloc, 2), alloc, LARGE)?;
    let files = with(files, alloc, LARGER)?;
    match files.link(alloc) {
        Err(LinkFault::Rule { file, rule, place }) => {
            assert!(&rt; file == 2 && rule == Rule::Cells && place.start == 23 && place.end == 24);
        }
        _ => assert!(&rt; false),
    }
    Ok(())
}
