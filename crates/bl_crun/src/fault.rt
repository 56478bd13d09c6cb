//! Why a file isn't loaded.

ghost use Rattle.std.specs.Prelude.{◌≡◌, IfErr, IfOk, OnOk};
ghost use Rattle.bl_ctext_semantics.specs.Faults.{WellFormed};
ghost use Rattle.bl_ctext_semantics.specs.Parts.{parts_of};
ghost use Rattle.bl_ctext_semantics.specs.Sizes.{cells_needed};
ghost use Rattle.bl_crun.specs.Cause.{IsCause, IsRunnable};

use bl_ctext::CFile;
use bl_ctext_semantics::check::{CheckFault, cells, check as check_form};
use bl_tree::Place;
use std::alloc::Global;

/// How many scalar cells a file may need.
const LIMIT: u64 = 1_000_000;

/// Why a file isn't loaded.
#[derive(Clone, Copy, PartialEq, Eq, Debug)]
pub enum LoadFault {
    /// A clause of well-formedness fails, first at this place.
    IllFormed { at: Place },
    /// The file is well formed and needs more than 1,000,000 cells: so many, at most 2^64 - 1.
    TooLarge { cells: u64 },
    NoMemory,
}

fn form(alloc: Global, file: &CFile) -> Result<(), LoadFault>
    ensures formed { OnOk result (WellFormed (parts_of file.now)) }
    ensures fault { IfErr result (IsCause (parts_of file.now)) }
{
    match check_form(alloc, file) {
        Ok(()) => Ok(()),
        Err(CheckFault::IllFormed { at }) => Err(LoadFault::IllFormed { at }),
        Err(CheckFault::NoMemory) => Err(LoadFault::NoMemory),
    }
}

/// How many cells a file needs that can be loaded, and else why it can't.
pub fn needed(alloc: Global, file: &CFile) -> Result<usize, LoadFault>
    ensures cells { IfOk result (λ cells. cells ≡ cells_needed (parts_of file.now)) }
    ensures runs { OnOk result (IsRunnable (parts_of file.now)) }
    ensures fault { IfErr result (IsCause (parts_of file.now)) }
{
    match form(alloc, file) {
        Ok(()) => {}
        Err(fault) => return Err(fault),
    }
    match cells(alloc, file) {
        Ok(cells) if cells > LIMIT => Err(LoadFault::TooLarge { cells }),
        Ok(cells) => Ok(cells as usize),
        Err(_) => Err(LoadFault::NoMemory),
    }
}

/// Whether a file can be loaded, and else why not.
pub fn check(alloc: Global, file: &CFile) -> Result<(), LoadFault>
    ensures runs { OnOk result (IsRunnable (parts_of file.now)) }
    ensures fault { IfErr result (IsCause (parts_of file.now)) }
{
    match needed(alloc, file) {
        Ok(_) => Ok(()),
        Err(fault) => Err(fault),
    }
}
