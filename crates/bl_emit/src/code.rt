//! The body of the function of an activity.

ghost use Rattle.std.specs.Prelude.{◌≡◌, ◌++◌, IfOk, OnOk, map, option_map};
ghost use Rattle.bl_emit_acts.specs.Acts.{c_copied};
ghost use Rattle.bl_emit_blocks.specs.Views.{view_in};
ghost use Rattle.bl_emit_spec.specs.Activities.{entry_place, rested_code};
ghost use Rattle.bl_machine_transitions.specs.Told.{rule_in};
ghost use Rattle.bl_emit.specs.Activities.{code_by, entry_at, entry_told, entry_where};

use crate::chosen::is_set;
use crate::counters::counter_type;
use crate::parts::equal;
use bl_emit_acts::copied as copy_set;
use bl_emit_acts::parts::{literal, member_at, numbered, read, set, whole};
use bl_emit_blocks::{ActivityView, add_blocks};
use bl_emit_tables::node_named;
use bl_machine_transitions::Transition;
use bl_tree::c::{CPlace, CStmt};
use bl_tree::slices::element;
use bl_tree::{List, NoMemory};
use std::alloc::Global;

/// What a counter holds as the tick begins is copied.
fn rested(alloc: Global, k: u32) -> Result<CStmt, NoMemory>
    ensures { IfOk result (λ s. s ≡ rested_code k) }
{
    let to = whole(alloc, false, numbered(alloc, "w", u64::from(k))?);
    let from = member_at(alloc, "f", numbered(alloc, "c", u64::from(k))?)?;
    set(alloc, to, read(from))
}

/// The copies of all these counters.
fn all_rested(alloc: Global, counters: &[u32]) -> Result<List<CStmt>, NoMemory>
    ensures { IfOk result (λ made. made ≡ map rested_code counters.now) }
{
    let mut made = List::new(alloc);
    for k in counters {
        made.push(rested(alloc, *k)?)?;
    }
    Ok(made)
}

/// The place of what the first counter held when the tick began: its copy, if it has one, else the counter.
fn first(alloc: Global, copied: bool) -> Result<CPlace, NoMemory>
    ensures { IfOk result (λ place. place ≡ entry_place copied) }
{
    if copied {
        Ok(whole(alloc, false, numbered(alloc, "w", 0)?))
    } else {
        member_at(alloc, "f", numbered(alloc, "c", 0)?)
    }
}

/// The node with the number waits where the first counter held 0.
fn entered(alloc: Global, view: &ActivityView, number: u32) -> Result<CStmt, NoMemory>
    ensures { IfOk result (λ s. s ≡ entry_at (view_in view.entry.now) number) }
{
    let at = whole(alloc, false, node_named(alloc, "g", view.words, number)?);
    let held = first(alloc, is_set(view.read, 0))?;
    let none = literal(counter_type(view.sizes, 0), 0);
    set(alloc, at, equal(alloc, read(held), none)?)
}

/// Appends that the node of the rule waits where the first counter held 0.
fn add_entered(
    alloc: Global,
    view: &ActivityView,
    rule: Option<&Transition>,
    code: &mut List<CStmt>,
) -> Result<(), NoMemory>
    ensures { OnOk result (code.new ≡ code.old ++ entry_where (view_in view.entry.now) (option_map rule_in (option_map (λ rule. rule.now) rule.entry))) }
{
    match rule {
        Some(rule) => {
            code.push(entered(alloc, view, rule.number)?)?;
            Ok(())
        }
        None => Ok(()),
    }
}

/// Appends that the entry waits where the first counter held 0.
#[tactic(auto, using(crate::proofs::RuleLemmas::entry_is))]
fn add_entry(
    alloc: Global,
    view: &ActivityView,
    rules: &[Transition],
    code: &mut List<CStmt>,
) -> Result<(), NoMemory>
    ensures { OnOk result (code.new ≡ code.old ++ entry_told (view_in view.entry.now) (map rule_in rules.now)) }
{
    add_entered(alloc, view, element(rules, 0), code)
}

/// Appends that the copies of the variables become what these are.
fn add_copies(
    alloc: Global,
    view: &ActivityView,
    copied: &[u32],
    code: &mut List<CStmt>,
) -> Result<(), NoMemory>
    ensures { OnOk result (code.new ≡ code.old ++ map (c_copied (view_in view.entry.now).site) copied.now) }
{
    for k in copied {
        code.push(copy_set(alloc, &view.site, *k)?)?;
    }
    Ok(())
}

/// The body: copies of what the counters held and of the variables when the tick began, and the blocks in their order.
pub fn code(
    alloc: Global,
    view: &ActivityView,
    rules: &[Transition],
    blocks: &[List<u32>],
    counters: &[u32],
    copied: &[u32],
) -> Result<List<CStmt>, NoMemory>
    ensures { IfOk result (λ made. made ≡ code_by (view_in view.entry.now) (map rule_in rules.now) blocks.now counters.now copied.now) }
{
    let mut made = all_rested(alloc, counters)?;
    add_entry(alloc, view, rules, &mut made)?;
    add_copies(alloc, view, copied, &mut made)?;
    add_blocks(alloc, view, rules, blocks, &mut made)?;
    Ok(made)
}
