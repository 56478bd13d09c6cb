//! The `if`s of blocks.

ghost use Rattle.std.specs.Prelude.{◌≡◌, ◌++◌, IfOk, OnOk, drop, map, option_map, option_to_list, slice_get};
ghost use Rattle.bl_emit_blocks.specs.Merging as merging;
ghost use Rattle.bl_emit_blocks.specs.Numbered.{numbered_flag, numbered_part, numbered_turn};
ghost use Rattle.bl_emit_blocks.specs.Views.{view_in};
ghost use Rattle.bl_emit_spec.specs.Activities.{blocks_code};
ghost use Rattle.bl_emit_spec.specs.Blocks.{same_run};
ghost use Rattle.bl_machine_transitions.specs.Told.{rule_in, task_in};

use crate::blocks::{control, own};
use crate::guards::{entered, guard};
use crate::view::ActivityView;
use bl_emit_acts::parts::joined;
use bl_emit_functions::parts::choice;
use bl_machine_transitions::{Condition, Task, Transition};
use bl_tree::c::CStmt;
use bl_tree::slices::element;
use bl_tree::{List, NoMemory};
use std::alloc::Global;

// ---- the first and the last node of a block

/// The rule at a position.
#[tactic(auto, using(crate::proofs::Turns::rule_is))]
fn rule_at<'a, 'b>(rules: &'a [Transition<'b>], k: u32) -> Option<&'a Transition<'b>>
    ensures { option_map rule_in (option_map (λ rule. rule.now) result) ≡ slice_get (map rule_in rules.now) k }
{
    element(rules, k as usize)
}

/// The first of the rules at these positions.
fn first<'a, 'b>(rules: &'a [Transition<'b>], block: &[u32]) -> Option<&'a Transition<'b>>
    ensures { option_map rule_in (option_map (λ rule. rule.now) result) ≡ merging.first_at (map rule_in rules.now) block.now }
{
    for k in block {
        if let Some(rule) = rule_at(rules, *k) {
            return Some(rule);
        }
    }
    None
}

/// The last one.
fn last<'a, 'b>(rules: &'a [Transition<'b>], block: &[u32]) -> Option<&'a Transition<'b>>
    ensures { option_map rule_in (option_map (λ rule. rule.now) result) ≡ merging.last_at (map rule_in rules.now) block.now }
{
    let mut found = None;
    for k in block {
        if let Some(rule) = rule_at(rules, *k) {
            found = Some(rule);
        }
    }
    found
}

/// The rule of the first node of the block at a position among blocks.
#[tactic(auto, using(crate::proofs::Turns::next_is))]
fn first_of<'a, 'b>(
    rules: &'a [Transition<'b>],
    blocks: &[List<u32>],
    k: usize,
) -> Option<&'a Transition<'b>>
    ensures { option_map rule_in (option_map (λ rule. rule.now) result) ≡ merging.next_at (map rule_in rules.now) (drop k blocks.now) }
{
    first(rules, element(blocks, k)?)
}

// ---- calls that are left to the next block

/// Whether the second node goes on with the `run` that the first one begins.
fn is_same_run(one: &Task, next: &Task) -> bool
    ensures { result ≡ same_run (numbered_part (task_in one.now)) (numbered_part (task_in next.now)) }
{
    match (one, next) {
        (Task::Enter(run), Task::Resume(other)) => {
            run.place.start == other.place.start && run.place.end == other.place.end
        }
        _ => false,
    }
}

/// The number of the flag for which a rule asks.
fn flag_of(rule: &Transition) -> Option<u32>
    ensures { result ≡ numbered_flag (rule_in rule.now).number (rule_in rule.now).condition }
{
    match rule.condition {
        Condition::Flagged => Some(rule.number),
        Condition::Rested(_) | Condition::RestedIn(_) | Condition::Ended(_, _) => None,
    }
}

/// The number of a block's flag, where it leaves the call of its `run` to the block that begins with the rule.
fn left(rules: &[Transition], block: &[u32], next: Option<&Transition>) -> Option<u32>
    ensures { result ≡ merging.left_at (map rule_in rules.now) block.now (option_map rule_in (option_map (λ rule. rule.now) next.entry)) }
{
    let start = first(rules, block)?;
    let end = last(rules, block)?;
    if is_same_run(&end.task, &next?.task) {
        flag_of(start)
    } else {
        None
    }
}

// ---- `if`s

/// What the nodes of a block do themselves.
fn all_own(
    alloc: Global,
    view: &ActivityView,
    rules: &[Transition],
    block: &[u32],
) -> Result<List<CStmt>, NoMemory>
    ensures { IfOk result (λ code. code ≡ merging.own_at (view_in view.entry.now) (map rule_in rules.now) block.now) }
{
    let mut code = List::new(alloc);
    for k in block {
        code = joined(code, own_where(alloc, view, rule_at(rules, *k))?)?;
    }
    Ok(code)
}

/// What the node of an optional rule does itself.
fn own_where(
    alloc: Global,
    view: &ActivityView,
    rule: Option<&Transition>,
) -> Result<List<CStmt>, NoMemory>
    ensures { IfOk result (λ code. code
        ≡ merging.own_where (view_in view.entry.now) (option_map rule_in (option_map (λ rule. rule.now) rule.entry))) }
{
    match rule {
        Some(rule) => own(alloc, view, rule),
        None => Ok(List::new(alloc)),
    }
}

/// How a block goes on, unless it leaves its call to the next one.
fn control_where(
    alloc: Global,
    view: &ActivityView,
    leaves: bool,
    rule: Option<&Transition>,
) -> Result<List<CStmt>, NoMemory>
    ensures { IfOk result (λ code. code
        ≡ merging.control_where (view_in view.entry.now) leaves (option_map rule_in (option_map (λ rule. rule.now) rule.entry))) }
{
    match rule {
        Some(rule) if !leaves => control(alloc, view, rule),
        _ => Ok(List::new(alloc)),
    }
}

/// What a block does: what its nodes do, and how the last one goes on.
fn fused(
    alloc: Global,
    view: &ActivityView,
    rules: &[Transition],
    block: &[u32],
    leaves: bool,
) -> Result<List<CStmt>, NoMemory>
    ensures { IfOk result (λ code. code ≡ merging.fused_at (view_in view.entry.now) leaves (map rule_in rules.now) block.now) }
{
    let own = all_own(alloc, view, rules, block)?;
    let control = control_where(alloc, view, leaves, last(rules, block))?;
    joined(own, control)
}

/// The `if` of a block; none where it has no nodes.
fn merged(
    alloc: Global,
    view: &ActivityView,
    rules: &[Transition],
    block: &[u32],
    before: Option<u32>,
    leaves: bool,
) -> Result<Option<CStmt>, NoMemory>
    ensures { IfOk result (λ made. option_to_list made
        ≡ merging.merged_at (view_in view.entry.now) before leaves (map rule_in rules.now) block.now) }
{
    match first(rules, block) {
        Some(rule) => {
            let test = guard(alloc, view, rule.number, &rule.condition)?;
            let code = fused(alloc, view, rules, block, leaves)?;
            Ok(Some(choice(alloc, entered(alloc, view, before, test)?, code, None)?))
        }
        None => Ok(None),
    }
}

/// Appends the `if` of a block, where that has a node.
fn add_block(
    alloc: Global,
    view: &ActivityView,
    rules: &[Transition],
    block: &[u32],
    before: Option<u32>,
    leaves: bool,
    code: &mut List<CStmt>,
) -> Result<(), NoMemory>
    ensures { OnOk result (code.new ≡ code.old
        ++ merging.merged_at (view_in view.entry.now) before leaves (map rule_in rules.now) block.now) }
{
    if let Some(made) = merged(alloc, view, rules, block, before, leaves)? {
        code.push(made)?;
    }
    Ok(())
}

/// Appends the `if`s of blocks, whose nodes are told by their positions among the rules. Fails only if memory runs out.
pub fn add_blocks(
    alloc: Global,
    view: &ActivityView,
    rules: &[Transition],
    blocks: &[List<u32>],
    code: &mut List<CStmt>,
) -> Result<(), NoMemory>
    ensures { OnOk result (code.new ≡ code.old
        ++ blocks_code (view_in view.entry.now).word (map (numbered_turn (view_in view.entry.now)) (map rule_in rules.now)) blocks.now) }
{
    let mut before = None;
    for (k, block) in blocks.iter().enumerate() {
        let left = left(rules, block, first_of(rules, blocks, k + 1));
        add_block(alloc, view, rules, block, before, left.is_some(), code)?;
        before = left;
    }
    Ok(())
}
