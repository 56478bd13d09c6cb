//! The locals for flags and marks.

ghost use Rattle.std.specs.Prelude.{◌≡◌, ◌++◌, OnOk, map, option_map, slice_get};
ghost use Rattle.bl_tree.specs.Reduce.{joined};
ghost use Rattle.bl_machine_transitions.specs.Told.{rule_in};
ghost use Rattle.bl_emit_tables.specs.Told.{asks_flag, first_flag_told, flag_told, flag_where, flags_told, mark_told, marks_told};
ghost use Rattle.bl_emit_tables.specs.Words.{kept_word};

use crate::parts::local;
use bl_emit_tables::node_named;
use bl_machine_transitions::{Change, Condition, Transition};
use bl_tree::c::CLocal;
use bl_tree::slices::element;
use bl_tree::{List, NoMemory, Scalar, Text};
use std::alloc::Global;

/// Whether a flag is asked for.
fn is_flag(condition: &Condition) -> bool
    ensures { result ≡ asks_flag condition.now }
{
    match condition {
        Condition::Flagged => true,
        Condition::Rested(_) | Condition::RestedIn(_) | Condition::Ended(_, _) => false,
    }
}

/// Appends the local for the flag of a node that waits by one.
fn add_flag(
    alloc: Global,
    words: &[Text],
    rule: &Transition,
    locals: &mut List<CLocal>,
) -> Result<(), NoMemory>
    ensures { OnOk result (locals.new ≡ locals.old ++ flag_told (kept_word words.now) (rule_in rule.now)) }
{
    if is_flag(&rule.condition) {
        let name = node_named(alloc, "g", words, rule.number)?;
        locals.push(local(Scalar::Bool, name))?;
    }
    Ok(())
}

/// Appends the local for the flag of an optional node.
fn add_flag_where(
    alloc: Global,
    words: &[Text],
    rule: Option<&Transition>,
    locals: &mut List<CLocal>,
) -> Result<(), NoMemory>
    ensures { OnOk result (locals.new ≡ locals.old ++ flag_where (kept_word words.now) (option_map rule_in (option_map (λ rule. rule.now) rule.entry))) }
{
    match rule {
        Some(rule) => add_flag(alloc, words, rule, locals),
        None => Ok(()),
    }
}

/// Appends the local for the flag of the node at the position.
#[tactic(auto, using(crate::proofs::RuleLemmas::flag_is))]
fn add_flag_at(
    alloc: Global,
    words: &[Text],
    rules: &[Transition],
    k: u32,
    locals: &mut List<CLocal>,
) -> Result<(), NoMemory>
    ensures { OnOk result (locals.new ≡ locals.old ++ flag_where (kept_word words.now) (slice_get (map rule_in rules.now) k)) }
{
    add_flag_where(alloc, words, element(rules, k as usize), locals)
}

/// Appends the local for the flag of the first node of a block.
fn add_first_flag(
    alloc: Global,
    words: &[Text],
    rules: &[Transition],
    block: &[u32],
    locals: &mut List<CLocal>,
) -> Result<(), NoMemory>
    ensures { OnOk result (locals.new ≡ locals.old ++ first_flag_told (kept_word words.now) (map rule_in rules.now) block.now) }
{
    if block.is_empty() {
        Ok(())
    } else {
        add_flag_at(alloc, words, rules, block[0], locals)
    }
}

/// Appends the locals for the flags of the first nodes of blocks.
pub fn add_flags(
    alloc: Global,
    words: &[Text],
    rules: &[Transition],
    blocks: &[List<u32>],
    locals: &mut List<CLocal>,
) -> Result<(), NoMemory>
    ensures { OnOk result (locals.new ≡ locals.old ++ flags_told (kept_word words.now) (map rule_in rules.now) blocks.now) }
{
    for block in blocks {
        add_first_flag(alloc, words, rules, block, locals)?;
    }
    Ok(())
}

/// Appends the local for a mark that a change sets.
fn add_mark(
    alloc: Global,
    words: &[Text],
    change: Change,
    locals: &mut List<CLocal>,
) -> Result<(), NoMemory>
    ensures { OnOk result (locals.new ≡ locals.old ++ mark_told (kept_word words.now) change) }
{
    match change {
        Change::SetMark(k) => {
            let name = node_named(alloc, "u", words, k)?;
            locals.push(local(Scalar::Bool, name))?;
            Ok(())
        }
        Change::SetFlag(_)
        | Change::SetCounter(_)
        | Change::ClearCounter(_)
        | Change::ClearBoth(_)
        | Change::EndWhen(_, _, _)
        | Change::Finish => Ok(()),
    }
}

/// Appends the locals for the marks that changes set.
fn add_rule_marks(
    alloc: Global,
    words: &[Text],
    on_true: &[Change],
    locals: &mut List<CLocal>,
) -> Result<(), NoMemory>
    ensures { OnOk result (locals.new ≡ locals.old ++ joined (map (mark_told (kept_word words.now)) on_true.now)) }
{
    for change in on_true {
        add_mark(alloc, words, *change, locals)?;
    }
    Ok(())
}

/// Appends the locals for the marks that all rules set.
pub fn add_marks(
    alloc: Global,
    words: &[Text],
    rules: &[Transition],
    locals: &mut List<CLocal>,
) -> Result<(), NoMemory>
    ensures { OnOk result (locals.new ≡ locals.old ++ marks_told (kept_word words.now) (map rule_in rules.now)) }
{
    for rule in rules {
        add_rule_marks(alloc, words, &rule.on_true, locals)?;
    }
    Ok(())
}
