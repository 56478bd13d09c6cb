//! The words in the C names of flags and marks, by the numbers of nodes.

ghost use Rattle.std.specs.Prelude.{◌≡◌, ◌++◌, [], ℕ, suc, IfOk, OnOk, cond, map, nat_eq, slice_get};
ghost use Rattle.bl_emit_acts.specs.Sites.{site_in};
ghost use Rattle.bl_emit_spec.specs.Blocks.{name_in};
ghost use Rattle.bl_emit_spec.specs.Names.{numbered_word, with_word};
ghost use Rattle.bl_emit_spec.specs.Words.{act_word};
ghost use Rattle.bl_emit_tables.specs.Sizes.{grown};
ghost use Rattle.bl_emit_tables.specs.Words.{kept_word, silent_word, task_word, word_told};
ghost use Rattle.bl_machine_transitions.specs.Told.{rule_in, task_in};

use bl_emit_acts::UnitSite;
use bl_emit_acts::parts::{prefixed, source_name, worded};
use bl_machine_transitions::{Silent, Task, Transition};
use bl_tree::slices::element;
use bl_tree::tree::{Stmt, StmtKind, Unit};
use bl_tree::{List, NoMemory, Text};
use std::alloc::Global;

/// The name of the unit at a position.
pub fn name_of(units: &[Unit], k: u32) -> &str
    ensures { result.now ≡ name_in (slice_get units.now k) }
{
    match element(units, k as usize) {
        Some(unit) => unit.name.as_str(),
        None => "",
    }
}

/// The word of an act.
fn act_word(alloc: Global, site: &UnitSite, s: &Stmt) -> Result<Text, NoMemory>
    ensures { IfOk result (λ word. word ≡ act_word (site_in site.entry.now) s.now) }
{
    match &s.what {
        StmtKind::Declare(k, _) => prefixed(alloc, "var_", source_name(site.vars, *k as usize)),
        StmtKind::Assign(path, _) => {
            let name = source_name(site.vars, path.root as usize);
            prefixed(alloc, "set_", name)
        }
        StmtKind::Call(k, _, _) => prefixed(alloc, "call_", name_of(site.earlier, *k)),
        StmtKind::Return(_) => Ok(Text::copy_of(alloc, "return")?),
        _ => Ok(Text::copy_of(alloc, "")?),
    }
}

/// The word of a silent node.
fn silent_word(kind: Silent) -> &'static str
    ensures { result.now ≡ silent_word kind }
{
    match kind {
        Silent::Pause => "await",
        Silent::Head => "repeat",
        Silent::Start => "when",
        Silent::End => "end",
        Silent::Fork => "cobegin",
        Silent::Join => "join",
    }
}

/// The word of a node, by what is done there.
fn task_word(alloc: Global, site: &UnitSite, task: &Task) -> Result<Text, NoMemory>
    ensures { IfOk result (λ word. word ≡ task_word (site_in site.entry.now) (task_in task.now)) }
{
    match task {
        Task::Nothing(kind) => Ok(Text::copy_of(alloc, silent_word(*kind))?),
        Task::Act(s) => act_word(alloc, site, s),
        Task::Test(_) => Ok(Text::copy_of(alloc, "test")?),
        Task::Enter(run) => prefixed(alloc, "run_", name_of(site.earlier, run.unit)),
        Task::Resume(run) => prefixed(alloc, "resume_", name_of(site.earlier, run.unit)),
    }
}

/// Makes the table so long that the number stands in it.
#[tactic(auto, using(crate::proofs::GrowLemmas::grown_more, crate::proofs::GrowLemmas::grown_enough))]
fn grow(alloc: Global, words: &mut List<Text>, at: usize) -> Result<(), NoMemory>
    ensures { OnOk result (words.new ≡ grown [] (suc at) words.old) }
{
    while words.len() <= at {
        words.push(Text::copy_of(alloc, "")?)?;
    }
    Ok(())
}

/// From now on the number has the word.
fn put(alloc: Global, words: &mut List<Text>, number: u32, word: Text) -> Result<(), NoMemory>
    ensures { OnOk result ((k : ℕ) → kept_word words.new k ≡ cond (nat_eq number k) word (kept_word words.old k)) }
{
    let at = number as usize;
    grow(alloc, words, at)?;
    words.set(at, word);
    Ok(())
}

/// The words of an activity by the numbers of its nodes, from its rules in source order; numbers beyond the greatest one may be left out.
/// Fails only if memory runs out.
pub fn words_of(
    alloc: Global,
    site: &UnitSite,
    rules: &[Transition],
) -> Result<List<Text>, NoMemory>
    ensures { IfOk result (λ words. (k : ℕ) → kept_word words k ≡ word_told (site_in site.entry.now) (map rule_in rules.now) k) }
{
    let mut words = List::new(alloc);
    for k in (0..rules.len()).rev() {
        let word = task_word(alloc, site, &rules[k].task)?;
        put(alloc, &mut words, rules[k].number, word)?;
    }
    Ok(words)
}

/// The word that the table has for the number.
fn find(words: &[Text], number: u32) -> &str
    ensures { result.now ≡ kept_word words.now number }
{
    match element(words, number as usize) {
        Some(word) => word.as_str(),
        None => "",
    }
}

/// The C name of a flag or a mark: a letter, the number of its node, `_`, and the word of the number. Fails only if memory runs out.
pub fn node_named(
    alloc: Global,
    letter: &str,
    words: &[Text],
    number: u32,
) -> Result<Text, NoMemory>
    ensures { IfOk result (λ text. text ≡ letter.now ++ numbered_word (with_word (kept_word words.now) number)) }
{
    worded(alloc, letter, u64::from(number), find(words, number))
}
