//! The locals of the function of an activity.

ghost use Rattle.std.specs.Prelude.{◌≡◌, ◌++◌, IfOk, OnOk, map, option_and_then, slice_get};
ghost use Rattle.bl_tree.specs.Reduce.{joined};
ghost use Rattle.bl_machine_transitions.specs.Told.{rule_in};
ghost use Rattle.bl_emit_blocks.specs.Views.{view_in};
ghost use Rattle.bl_emit_spec.specs.Activities.{ended_local, given_local, rested_local, some_ends};
ghost use Rattle.bl_emit.specs.Activities.{copy_told, locals_by, run_locals_told};
ghost use Rattle.bl_emit.specs.Kept.{run_in};

use crate::counters::counter_type;
use crate::parts::local;
use crate::registers::{add_flags, add_marks};
use crate::runs::RunAt;
use bl_emit_acts::parts::{named, numbered, worded};
use bl_emit_acts::{scalar_in_c, scalar_of_variable};
use bl_emit_blocks::{ActivityView, may_end_at};
use bl_emit_tables::name_of;
use bl_machine_transitions::Transition;
use bl_tree::c::CLocal;
use bl_tree::slices::element;
use bl_tree::tree::Unit;
use bl_tree::{List, NoMemory, Scalar, Text};
use std::alloc::Global;

/// The local of what a counter held when the tick began.
fn rested(alloc: Global, sizes: &[u32], k: u32) -> Result<CLocal, NoMemory>
    ensures { IfOk result (λ made. made ≡ rested_local sizes.now k) }
{
    let name = numbered(alloc, "w", u64::from(k))?;
    Ok(local(counter_type(sizes, k), name))
}

/// The locals of what the counters held.
fn all_rested(alloc: Global, sizes: &[u32], counters: &[u32]) -> Result<List<CLocal>, NoMemory>
    ensures { IfOk result (λ made. made ≡ map (rested_local sizes.now) counters.now) }
{
    let mut made = List::new(alloc);
    for k in counters {
        made.push(rested(alloc, sizes, *k)?)?;
    }
    Ok(made)
}

/// The local for the copy of a variable.
fn copy(alloc: Global, unit: &Unit, k: u32) -> Result<CLocal, NoMemory>
    ensures { IfOk result (λ made. made ≡ copy_told unit.now k) }
{
    let name = named(alloc, "p", &unit.vars, k as usize)?;
    Ok(local(scalar_in_c(scalar_of_variable(&unit.vars, k)), name))
}

/// Appends the locals for the copies of the variables.
fn add_copies(
    alloc: Global,
    unit: &Unit,
    copied: &[u32],
    locals: &mut List<CLocal>,
) -> Result<(), NoMemory>
    ensures { OnOk result (locals.new ≡ locals.old ++ map (copy_told unit.now) copied.now) }
{
    for k in copied {
        locals.push(copy(alloc, unit, *k)?)?;
    }
    Ok(())
}

/// The result of the unit at a position, where it has one.
fn result_of(units: &[Unit], k: u32) -> Option<Scalar>
    ensures { result ≡ option_and_then (λ unit. unit.result) (slice_get units.now k) }
{
    match element(units, k as usize) {
        Some(unit) => unit.result,
        None => None,
    }
}

/// Appends the local for a result.
fn add_given(
    alloc: Global,
    number: u32,
    word: &str,
    ty: Option<Scalar>,
    locals: &mut List<CLocal>,
) -> Result<(), NoMemory>
    ensures { OnOk result (locals.new ≡ locals.old ++ given_local (record { number = number; word = word.now }) ty) }
{
    match ty {
        Some(s) => {
            let name = worded(alloc, "r", u64::from(number), word)?;
            locals.push(local(scalar_in_c(s), name))?;
            Ok(())
        }
        None => Ok(()),
    }
}

/// Appends the local for the result of what a `run` calls.
fn add_run(
    alloc: Global,
    earlier: &[Unit],
    run: RunAt,
    locals: &mut List<CLocal>,
) -> Result<(), NoMemory>
    ensures { OnOk result (locals.new ≡ locals.old ++ run_locals_told earlier.now (run_in run)) }
{
    let word = name_of(earlier, run.unit);
    add_given(
        alloc,
        run.number,
        word,
        result_of(earlier, run.unit),
        locals,
    )
}

/// Whether some `run` calls an activity that may end.
fn some_ends(earlier: &[Unit], runs: &[RunAt]) -> bool
    ensures { result ≡ some_ends earlier.now (map run_in runs.now) }
{
    for run in runs {
        if may_end_at(earlier, run.unit) {
            return true;
        }
    }
    false
}

/// Appends the local that tells whether what was called last has ended, where that may be.
fn add_ended(alloc: Global, ends: bool, locals: &mut List<CLocal>) -> Result<(), NoMemory>
    ensures { OnOk result (locals.new ≡ locals.old ++ ended_local ends) }
{
    if ends {
        let name = Text::copy_of(alloc, "ended")?;
        locals.push(local(Scalar::Bool, name))?;
    }
    Ok(())
}

/// Appends the locals for the results of what the `run`s call.
fn add_runs(
    alloc: Global,
    earlier: &[Unit],
    runs: &[RunAt],
    locals: &mut List<CLocal>,
) -> Result<(), NoMemory>
    ensures { OnOk result (locals.new ≡ locals.old ++ joined (map (run_locals_told earlier.now) (map run_in runs.now))) }
{
    for run in runs {
        add_run(alloc, earlier, *run, locals)?;
    }
    Ok(())
}

/// The locals of an activity's function: what counters held, flags of blocks' first nodes, marks, copies of variables, the end
/// of what was called, if something that is called may end, and results of `run`s.
pub fn locals(
    alloc: Global,
    earlier: &[Unit],
    unit: &Unit,
    view: &ActivityView,
    rules: &[Transition],
    blocks: &[List<u32>],
    counters: &[u32],
    copied: &[u32],
    runs: &[RunAt],
) -> Result<List<CLocal>, NoMemory>
    ensures { IfOk result (λ made. made ≡ locals_by earlier.now unit.now (view_in view.entry.now) (map rule_in rules.now) blocks.now counters.now copied.now
        (map run_in runs.now)) }
{
    let mut made = all_rested(alloc, view.sizes, counters)?;
    add_flags(alloc, view.words, rules, blocks, &mut made)?;
    add_marks(alloc, view.words, rules, &mut made)?;
    add_copies(alloc, unit, copied, &mut made)?;
    add_ended(alloc, some_ends(earlier, runs), &mut made)?;
    add_runs(alloc, earlier, runs, &mut made)?;
    Ok(made)
}
