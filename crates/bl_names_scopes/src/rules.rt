//! The rules Duplicate, Unknown and Kind.

ghost use Rattle.std.specs.Prelude.{◌≡◌, IfErr, IfOk, OnOk};
ghost use Rattle.bl_names_scopes.specs.Cause.{IsCause, IsCauseBehind};
ghost use Rattle.bl_names_scopes.specs.inner.Judged.{first_failure};
ghost use Rattle.bl_names_scopes.specs.Marks.{marks_of};
ghost use Rattle.bl_names_scopes.specs.Rules.{Passes, PassesBehind};
ghost use Rattle.bl_names_scopes.specs.Scopes.{opened_by};

use crate::heading::Heading;
use crate::item::items;
use crate::judge::Judge;
use bl_parse_tree::Raw;
use bl_tree::{Failure, NoMemory, Refusal};
use std::alloc::Global;

/// Judges the rules Duplicate, Unknown and Kind. An error tells the first of them that fails, at its first places, or that there
/// was no memory.
pub fn check(alloc: Global, raw: &Raw) -> Result<(), Refusal>
    ensures passes { OnOk result (Passes raw.now.items) }
    ensures cause { IfErr result (IsCause raw.now.items) }
{
    check_behind(alloc, &[], raw)
}

/// Judges the three rules of a program alone, where the headings are declared before it: a use may bind to one of them.
pub fn check_behind(alloc: Global, headings: &[Heading], raw: &Raw) -> Result<(), Refusal>
    ensures passes { OnOk result (PassesBehind (opened_by headings.now) (marks_of raw.now.items)) }
    ensures cause { IfErr result (IsCauseBehind (opened_by headings.now) (marks_of raw.now.items)) }
{
    match first_failure(alloc, headings, raw) {
        Ok(first) => verdict(alloc, headings, raw, first),
        Err(NoMemory) => Err(Refusal::NoMemory),
    }
}

/// The first failure of the three rules.
fn first_failure(
    alloc: Global,
    headings: &[Heading],
    raw: &Raw,
) -> Result<Option<Failure>, NoMemory>
    ensures { IfOk result (λ first. first ≡ first_failure (opened_by headings.now) (marks_of raw.now.items)) }
{
    let mut judge = Judge::behind(alloc, headings)?;
    items(alloc, &raw.items, &mut judge)?;
    Ok(judge.first)
}

/// What the first failure says of the program.
fn verdict(
    alloc: Global,
    headings: &[Heading],
    raw: &Raw,
    first: Option<Failure>,
) -> Result<(), Refusal>
    requires { first ≡ first_failure (opened_by headings.now) (marks_of raw.now.items) }
    ensures passes { OnOk result (PassesBehind (opened_by headings.now) (marks_of raw.now.items)) }
    ensures cause { IfErr result (IsCauseBehind (opened_by headings.now) (marks_of raw.now.items)) }
{
    match first {
        None => Ok(()),
        Some(first) => Err(first.refusal(alloc)),
    }
}
