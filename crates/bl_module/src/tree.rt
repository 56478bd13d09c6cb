//! A tree judged behind a start, by the rules from Duplicate on.

ghost use Rattle.std.specs.Prelude.{◌≡◌, IfErr, IfOk, OnOk, drop};
ghost use Rattle.bl_names.specs.Named.{named_behind};
ghost use Rattle.bl_names_scopes.specs.Marks.{marks_of};
ghost use Rattle.bl_names_scopes.specs.Rules.{PassesBehind as NamesPass};
ghost use Rattle.bl_names_scopes.specs.Scopes.{opened_by};
ghost use Rattle.bl_parse_tree.specs.WellFormed.{RawIsWellFormed};
ghost use Rattle.bl_tree.specs.Rules.{IsCause};
ghost use Rattle.bl_types.specs.Programs.{known_before, known_behind};
ghost use Rattle.bl_types.specs.Rules.{IsCauseBehind as IsTypesCause, PassesBehind as TypesPass};
ghost use Rattle.bl_module.specs.inner.Layers.{NamesFailHere, OwnPasses};
ghost use Rattle.bl_module.specs.Own.{face_items, items_from, next_behind};
ghost use Rattle.bl_module.specs.Rules.{OwnFails, TreeFails, TreePasses, here};

use crate::behind::Behind;
use crate::own::{Next, face_of};
use bl_face::Face;
use bl_names::resolve_behind;
use bl_names_scopes::heading::Heading;
use bl_names_tree::Named;
use bl_parse_tree::Raw;
use bl_parse_tree::item::RawItem;
use bl_tree::tree::{StructDef, Unit};
use bl_tree::{List, NoMemory, Place, Refusal};
use bl_types::{Constant, Environment, Known};
use std::alloc::Global;

/// Judges the rules of a tree behind a start, and gives its face. The tree is one that a text spells: its names are names.
pub fn judge_tree(alloc: Global, behind: Behind, last: bool, raw: &Raw) -> Result<Face, Refusal>
    requires { RawIsWellFormed raw.now.items }
    ensures passes { OnOk result (TreePasses behind last raw.now) }
    ensures face { IfOk result (λ face. face.items ≡ face_items behind raw.now) }
    ensures cause { IfErr result (IsCause (TreeFails behind last raw.now)) }
{
    let next = next_behind(&behind);
    let Behind {
        headings,
        structs,
        constants,
        units,
    } = behind;
    let named = match named_here(alloc, &headings, raw) {
        Ok(named) => named,
        Err(refusal) => return Err(refusal),
    };
    let env = match Environment::behind(alloc, structs, constants, units) {
        Ok(env) => env,
        Err(NoMemory) => return Err(Refusal::NoMemory),
    };
    let known = match bl_types::judge_behind(alloc, env, &named, last) {
        Ok(known) => known,
        Err(refusal) => return Err(refusal),
    };
    match judge_own(
        alloc,
        &known.structs,
        next.structs,
        own(&known.units, next.units),
    ) {
        Ok(()) => {}
        Err(refusal) => return Err(refusal),
    }
    match face_of(alloc, &known, next, &raw.items) {
        Ok(face) => Ok(face),
        Err(NoMemory) => Err(Refusal::NoMemory),
    }
}

/// The positions of what comes behind a start.
fn next_behind(behind: &Behind) -> Next
    ensures { result ≡ next_behind behind.now }
{
    Next {
        structs: behind.structs.len(),
        constants: behind.constants.len(),
        units: behind.units.len(),
    }
}

/// The tree with positions in place of names, where no rule on names fails. What an error tells leaves out places in other texts.
fn named_here(alloc: Global, headings: &[Heading], raw: &Raw) -> Result<Named, Refusal>
    ensures passes { OnOk result (NamesPass (opened_by headings.now) (marks_of raw.now.items)) }
    ensures named { IfOk result (λ named. named ≡ named_behind headings.now raw.now.items raw.now.bytes) }
    ensures cause { IfErr result (IsCause (NamesFailHere (opened_by headings.now) (marks_of raw.now.items))) }
{
    match resolve_behind(alloc, headings, raw) {
        Ok(named) => Ok(named),
        Err(Refusal::NoMemory) => Err(Refusal::NoMemory),
        Err(Refusal::Rule { rule, place, also }) => match here(alloc, &also) {
            Ok(also) => Err(Refusal::Rule { rule, place, also }),
            Err(NoMemory) => Err(Refusal::NoMemory),
        },
    }
}

/// The places of the text among some places.
fn here(alloc: Global, places: &[Place]) -> Result<List<Place>, NoMemory>
    ensures { IfOk result (λ kept. kept ≡ here places.now) }
{
    let mut kept = List::new(alloc);
    for place in places {
        if place.start != 0 || place.end != 0 {
            kept.push(*place)?;
        }
    }
    Ok(kept)
}

/// The units from the position on.
fn own(units: &[Unit], from: usize) -> &[Unit]
    ensures { result.now ≡ drop from units.now }
{
    if from <= units.len() {
        &units[from..]
    } else {
        &[]
    }
}

/// Judges the rules from Pause on, of units and of structs from a position on.
fn judge_own(
    alloc: Global,
    structs: &[StructDef],
    from: usize,
    units: &[Unit],
) -> Result<(), Refusal>
    ensures passes { OnOk result (OwnPasses structs.now from units.now) }
    ensures cause { IfErr result (IsCause (OwnFails structs.now from units.now)) }
{
    match bl_conflict::check_units(alloc, units) {
        Ok(()) => {}
        Err(refusal) => return Err(refusal),
    }
    match bl_cause_trees::check_units(alloc, units) {
        Ok(()) => {}
        Err(refusal) => return Err(refusal),
    }
    match bl_limits::check_nesting(alloc, structs, from, units) {
        Ok(()) => Ok(()),
        Err(refusal) => Err(refusal),
    }
}
