//! The rules on names, and the program with positions in place of names.

ghost use Rattle.std.specs.Prelude.{◌≡◌, IfErr, IfOk, OnOk};
ghost use Rattle.bl_names_tree.specs.Placed.{IsPlaced};
ghost use Rattle.bl_names_scopes.specs.Cause.{IsCause, IsCauseBehind};
ghost use Rattle.bl_names_scopes.specs.Marks.{marks_of};
ghost use Rattle.bl_names_scopes.specs.Rules.{Passes, PassesBehind};
ghost use Rattle.bl_names_scopes.specs.Scopes.{opened_by};
ghost use Rattle.bl_names.specs.Named.{named_behind, named_program};

use crate::item::{items, order};
use crate::state::State;
use bl_names_scopes::check_behind;
use bl_names_scopes::heading::Heading;
use bl_names_tree::Named;
use bl_parse_tree::Raw;
use bl_tree::{NoMemory, Refusal};
use std::alloc::Global;

/// Judges the rules Duplicate, Unknown and Kind, as `bl_names_scopes::check` does, and puts positions in place of the names of a program
/// that passes. An error tells the first of them that fails, at its first places, or that there was no memory.
pub fn resolve(alloc: Global, raw: &Raw) -> Result<Named, Refusal>
    ensures passes { OnOk result (Passes raw.now.items) }
    ensures cause { IfErr result (IsCause raw.now.items) }
    ensures named { IfOk result (λ named. named ≡ named_program raw.now.items raw.now.bytes) }
    ensures placed { IfOk result (λ named. IsPlaced named) }
{
    resolve_behind(alloc, &[], raw)
}

/// As `resolve`, where the headings are declared before the program. What stands in the lists for the headings has no parts.
pub fn resolve_behind(alloc: Global, headings: &[Heading], raw: &Raw) -> Result<Named, Refusal>
    ensures passes { OnOk result (PassesBehind (opened_by headings.now) (marks_of raw.now.items)) }
    ensures cause { IfErr result (IsCauseBehind (opened_by headings.now) (marks_of raw.now.items)) }
    ensures named { IfOk result (λ named. named ≡ named_behind headings.now raw.now.items raw.now.bytes) }
{
    check_behind(alloc, headings, raw)?;
    match name(alloc, headings, raw) {
        Ok(named) => Ok(named),
        Err(_) => Err(Refusal::NoMemory),
    }
}

/// The program with positions in place of names.
fn name(alloc: Global, headings: &[Heading], raw: &Raw) -> Result<Named, NoMemory>
    ensures { IfOk result (λ named. named ≡ named_behind headings.now raw.now.items raw.now.bytes) }
{
    let mut state = State::behind(alloc, headings)?;
    items(alloc, &raw.items, &mut state)?;
    Ok(Named {
        structs: state.structs,
        constants: state.constants,
        units: state.units,
        order: order(alloc, &raw.items)?,
        bytes: raw.bytes,
    })
}
