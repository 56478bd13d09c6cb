//! The C of an activity: its structs, and its function.

ghost use Rattle.std.specs.Prelude.{◌≡◌, ◌∷◌, [], IfOk, map};
ghost use Rattle.bl_emit_acts.specs.Sites.{site_in};
ghost use Rattle.bl_emit_blocks.specs.Views.{view_in};
ghost use Rattle.bl_emit_functions.specs.Functions.{struct_of};
ghost use Rattle.bl_emit_spec.specs.Programs.{where_needed};
ghost use Rattle.bl_emit_tables.specs.Told.{runs_told};
ghost use Rattle.bl_machine_transitions.specs.Runs.{kept_number, run_number};
ghost use Rattle.bl_tree.specs.declared.place.Place.{Place};
ghost use Rattle.bl_tree.specs.Typing.{site_of};
ghost use Rattle.bl_emit.specs.Activities.{frame_by, function_by, function_told, function_viewed, remembers_told};
ghost use Rattle.bl_emit.specs.Kept.{parts_in, run_in, told_in};
ghost use Rattle.bl_emit.specs.Programs.{parts_told};

use crate::chosen::{chosen, count_of};
use crate::code::code;
use crate::frames::{frame, is_any, remembered, remembered_struct};
use crate::locals::locals;
use crate::params::params;
use crate::runs::{RunAt, runs_of};
use bl_emit_acts::UnitSite;
use bl_emit_acts::parts::{NOWHERE, joined, prefixed, single};
use bl_emit_blocks::ActivityView;
use bl_emit_tables::{copies_of, read_by, words_of};
use bl_machine_transitions::{RunNumbers, Transition};
use bl_tree::c::{CFunc, CLocal, CMember, CStmt, CStruct};
use bl_tree::tree::{StructDef, Unit};
use bl_tree::{List, NoMemory};
use std::alloc::Global;

/// What C of an activity is made of.
#[derive(Clone, Copy)]
pub struct ActivityInput<'a> {
    pub structs: &'a [StructDef],
    /// The units before it.
    pub earlier: &'a [Unit],
    pub unit: &'a Unit,
    /// The blocks of its nodes, by their positions in source order.
    pub blocks: &'a [List<u32>],
    /// Its rules in source order.
    pub rules: &'a [Transition<'a>],
    /// How many values each counter has.
    pub sizes: &'a [u32],
    /// Which of the units before it remember variables.
    pub remember: &'a [bool],
}

/// C structs and functions of units, and which of these units remember variables.
#[derive(Drop)]
pub struct Parts {
    pub structs: List<CStruct>,
    pub funcs: List<CFunc>,
    pub remember: List<bool>,
}

/// What the statements of the activity see.
fn site<'a>(told: &ActivityInput<'a>) -> UnitSite<'a>
    ensures { site_in result ≡ site_of (told_in told.entry.now).structs (told_in told.entry.now).earlier (told_in told.entry.now).unit }
{
    UnitSite {
        structs: told.structs,
        earlier: told.earlier,
        kind: told.unit.kind,
        vars: told.unit.vars.as_slice(),
        result: told.unit.result,
    }
}

/// A C function of the activity.
fn made(
    alloc: Global,
    told: &ActivityInput,
    remembers: bool,
    locals: List<CLocal>,
    body: List<CStmt>,
) -> Result<CFunc, NoMemory>
    ensures { IfOk result (λ made. made ≡ function_by (told_in told.entry.now).structs (told_in told.entry.now).unit remembers locals body) }
{
    let name = prefixed(alloc, "a_", told.unit.name.as_str())?;
    let params = params(alloc, told.structs, told.unit, remembers)?;
    Ok(CFunc {
        place: NOWHERE,
        fixed: true,
        result: None,
        name,
        params,
        locals,
        body,
    })
}

/// The C function of the activity, by what its blocks see, the counters of which some rule asks what they held, and the variables that are
/// copied.
fn viewed(
    alloc: Global,
    told: &ActivityInput,
    view: &ActivityView,
    counters: &[u32],
    copied: &[u32],
    runs: &[RunAt],
    remembers: bool,
) -> Result<CFunc, NoMemory>
    ensures { IfOk result (λ made. made ≡ function_viewed (told_in told.entry.now) (view_in view.entry.now) counters.now copied.now
        (map run_in runs.now) remembers) }
{
    let locals = locals(
        alloc,
        told.earlier,
        told.unit,
        view,
        told.rules,
        told.blocks,
        counters,
        copied,
        runs,
    )?;
    let body = code(alloc, view, told.rules, told.blocks, counters, copied)?;
    made(alloc, told, remembers, locals, body)
}

/// The C function of the activity, with these `run`s and their numbers, and where it is told whether it remembers anything.
fn function(
    alloc: Global,
    told: &ActivityInput,
    numbers: &RunNumbers,
    runs: &[RunAt],
    remembers: bool,
) -> Result<CFunc, NoMemory>
    ensures { ((at : Place) → kept_number numbers.now at ≡ run_number (told_in told.entry.now).rules at) →
        map run_in runs.now ≡ runs_told (told_in told.entry.now).rules → remembers ≡ remembers_told (told_in told.entry.now) →
        IfOk result (λ made. made ≡ function_told (told_in told.entry.now)) }
{
    let copies = copies_of(alloc, told.unit)?;
    let read = read_by(alloc, told.rules)?;
    let count = count_of(told.sizes)?;
    let counters = chosen(alloc, &read, count)?;
    let many = count_of(&told.unit.vars)?;
    let copied = chosen(alloc, &copies, many)?;
    let site = site(told);
    let words = words_of(alloc, &site, told.rules)?;
    let view = ActivityView {
        site,
        copies: &copies,
        words: &words,
        runs: numbers,
        sizes: told.sizes,
        read: &read,
        remembers: told.remember,
    };
    viewed(alloc, told, &view, &counters, &copied, runs, remembers)
}

/// The C structs of the activity, with these `run`s, of which it remembers these members.
fn structs(
    alloc: Global,
    told: &ActivityInput,
    runs: &[RunAt],
    members: List<CMember>,
) -> Result<List<CStruct>, NoMemory>
    ensures { IfOk result (λ made. made ≡ frame_by (told_in told.entry.now).earlier (told_in told.entry.now).unit.name
        (told_in told.entry.now).sizes (map run_in runs.now) ∷ struct_of (told_in told.entry.now).unit.name members) }
{
    let name = told.unit.name.as_str();
    let mut made = List::new(alloc);
    made.push(frame(alloc, told.earlier, name, told.sizes, runs)?)?;
    joined(made, remembered_struct(alloc, name, members)?)
}

/// The parts of the activity; where it isn't needed it is only told whether it remembers anything. Fails only if memory runs out.
pub fn activity_parts(alloc: Global, told: &ActivityInput, needed: bool) -> Result<Parts, NoMemory>
    ensures { IfOk result (λ made. parts_in made ≡ where_needed needed (parts_told (told_in told.entry.now))) }
{
    let runs = runs_of(alloc, told.rules)?;
    let members = remembered(
        alloc,
        told.structs,
        told.earlier,
        told.remember,
        told.unit,
        &runs,
    )?;
    let remembers = is_any(&members);
    let remember = single(alloc, remembers)?;
    if needed {
        let numbers = RunNumbers::of(alloc, told.rules)?;
        let func = function(alloc, told, &numbers, &runs, remembers)?;
        Ok(Parts {
            structs: structs(alloc, told, &runs, members)?,
            funcs: single(alloc, func)?,
            remember,
        })
    } else {
        Ok(Parts {
            structs: List::new(alloc),
            funcs: List::new(alloc),
            remember,
        })
    }
}
