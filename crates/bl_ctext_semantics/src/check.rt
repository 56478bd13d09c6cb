//! Which files are well formed, where the others fail first, and how many cells a file needs (docs/C_SUBSET.md,
//! "Well-formed files" and "Meaning").

ghost use Rattle.std.specs.Prelude.{◌≡◌, ◌&&◌, codes, IfErr, IfOk, is_some, OnOk};
ghost use Rattle.bl_ctext_semantics.specs.Cause.{IsCause};
ghost use Rattle.bl_ctext_semantics.specs.inner.Checked.{checked_structs};
ghost use Rattle.bl_ctext_semantics.specs.Faults.{WellFormed, first_fault};
ghost use Rattle.bl_ctext_semantics.specs.Parts.{parts_from, parts_of};
ghost use Rattle.bl_ctext_semantics.specs.Saturated.{saturated};
ghost use Rattle.bl_ctext_semantics.specs.Sizes.{cells_needed};

mod calls;
mod chains;
mod context;
mod declared;
mod expr;
mod first;
mod functions;
mod interface;
mod loops;
mod names;
mod stmt;
mod structs;
mod types;
mod variables;

use crate::check::chains::deepest_chain;
use crate::check::context::Structs;
use crate::check::declared::declare_structs;
use crate::check::first::{both, earlier, unless};
use crate::check::functions::judge_functions;
use crate::check::interface::{judge_interface, last_place};
pub use crate::check::stmt::block_returns;
use crate::check::structs::has_struct;
use crate::maps::number_of;
use crate::prelude::Builtins;
use crate::sizes::struct_sizes;
use bl_ctext::CFile;
use bl_tree::c::{CFunc, CStruct};
use bl_tree::{NoMemory, Place};
use std::alloc::Global;

/// Why a file isn't accepted.
#[derive(Clone, Copy, PartialEq, Eq, Debug)]
pub enum CheckFault {
    /// A clause of well-formedness fails, first at this place.
    IllFormed { at: Place },
    NoMemory,
}

fn has_interface(structs: &Structs<'_>) -> bool
    ensures { result ≡ (is_some (checked_structs structs.now (codes "bl_state"))
        && (is_some (checked_structs structs.now (codes "bl_in")) && is_some (checked_structs structs.now (codes "bl_out")))) }
{
    let ports = both(has_struct(structs, "bl_in"), has_struct(structs, "bl_out"));
    both(has_struct(structs, "bl_state"), ports)
}

/// Where structs and functions, taken as those of a file, fail first.
pub fn first_failing(
    alloc: Global,
    structs: &[CStruct],
    funcs: &[CFunc],
) -> Result<Option<Place>, NoMemory>
    ensures { IfOk result (λ first. first ≡ first_fault (parts_from structs.now funcs.now)) }
{
    let builtins = Builtins::new(alloc)?;
    let declared = declare_structs(alloc, structs)?;
    let inside = judge_functions(alloc, &builtins, &declared.structs, funcs)?;
    let missing = unless(has_interface(&declared.structs), last_place(funcs));
    let outside = earlier(missing, judge_interface(funcs));
    Ok(earlier(declared.first, earlier(inside, outside)))
}

fn first_in(alloc: Global, file: &CFile) -> Result<Option<Place>, NoMemory>
    ensures { IfOk result (λ first. first ≡ first_fault (parts_of file.now)) }
{
    first_failing(alloc, &file.structs, &file.funcs)
}

/// Whether a file is well formed, and else where it fails first: of all structs, functions, statements and
/// expressions that fail, the one with the least start, then the least end.
pub fn check(alloc: Global, file: &CFile) -> Result<(), CheckFault>
    ensures formed { OnOk result (WellFormed (parts_of file.now)) }
    ensures fault { IfErr result (IsCause (parts_of file.now)) }
{
    match first_in(alloc, file) {
        Ok(None) => Ok(()),
        Ok(Some(at)) => Err(CheckFault::IllFormed { at }),
        Err(NoMemory) => Err(CheckFault::NoMemory),
    }
}

/// How many scalar cells a file with these structs and functions needs while it runs: those of the state, the input and
/// the output struct and of the deepest chain of parameters and locals. A number that 64 bits can't hold is told as
/// 2^64 - 1.
pub fn cells_of(alloc: Global, structs: &[CStruct], funcs: &[CFunc]) -> Result<u64, NoMemory>
    ensures { IfOk result (λ count. count ≡ saturated (cells_needed (parts_from structs.now funcs.now))) }
{
    let sizes = struct_sizes(alloc, structs)?;
    let chain = deepest_chain(alloc, &sizes, funcs)?;
    let output = number_of(&sizes, "bl_out").saturating_add(chain);
    let ports = number_of(&sizes, "bl_in").saturating_add(output);
    Ok(number_of(&sizes, "bl_state").saturating_add(ports))
}

/// How many scalar cells a file needs while it runs, at most 2^64 - 1.
pub fn cells(alloc: Global, file: &CFile) -> Result<u64, NoMemory>
    ensures { IfOk result (λ count. count ≡ saturated (cells_needed (parts_of file.now))) }
{
    cells_of(alloc, &file.structs, &file.funcs)
}
