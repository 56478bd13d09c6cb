//! What reads the variables that a body only sets, since compilers warn of them.

ghost use Rattle.std.specs.Prelude.{◌≡◌, ◌++◌, IfOk};
ghost use Rattle.bl_tree.specs.Words.{is_among};
ghost use Rattle.bl_emit_acts.specs.Sites.{site_in};
ghost use Rattle.bl_emit_acts.specs.Types.{variable_name};
ghost use Rattle.bl_emit_functions.specs.Functions as functions;
ghost use Rattle.bl_emit_functions.specs.inner.Again.{unread_again};

use crate::names::Names;
use crate::reads::names_read;
use crate::variables::{has_local, is_held};
use bl_emit_acts::parts::{joined, named, read, set, single};
use bl_emit_acts::{UnitSite, hidden, scalar_of_variable, variable};
use bl_tree::c::CStmt;
use bl_tree::tree::{Unit, Var};
use bl_tree::{List, NoMemory};
use std::alloc::Global;

/// The statements that read what the body only sets. Fails only for want of memory.
pub fn again(
    alloc: Global,
    site: &UnitSite,
    unit: &Unit,
    body: &[CStmt],
) -> Result<List<CStmt>, NoMemory>
    ensures { IfOk result (λ made. made ≡ functions.again_code (site_in site.entry.now) unit.now body.now) }
{
    let names = names_read(alloc, body)?;
    let held = first_held(site, &unit.vars)?;
    let memory = memory_again(alloc, site, held, names.has("m"))?;
    joined(memory, locals_again(alloc, site, &names, &unit.vars)?)
}

// ---- the struct

/// The position of the first variable that the unit holds.
fn first_held(site: &UnitSite, vars: &[Var]) -> Result<Option<u32>, NoMemory>
    ensures { IfOk result (λ held. held ≡ functions.first_held (site_in site.entry.now) 0 vars.now) }
{
    let mut k: u32 = 0;
    for var in vars {
        if is_held(site, var) {
            return Ok(Some(k));
        }
        k = k.checked_add(1).ok_or(NoMemory)?;
    }
    Ok(None)
}

/// A statement that reads the struct of the variables, where there is one and no other statement does.
fn memory_again(
    alloc: Global,
    site: &UnitSite,
    held: Option<u32>,
    reads: bool,
) -> Result<List<CStmt>, NoMemory>
    ensures { IfOk result (λ made. made ≡ functions.read_code (site_in site.entry.now) held reads) }
{
    match held {
        Some(k) if !reads => single(alloc, set_again(alloc, site, k)?),
        _ => Ok(List::new(alloc)),
    }
}

/// The variable is set to what it has.
fn set_again(alloc: Global, site: &UnitSite, k: u32) -> Result<CStmt, NoMemory>
    ensures { IfOk result (λ s. s ≡ functions.c_set_again (site_in site.entry.now) k) }
{
    let to = variable(alloc, site, k, List::new(alloc))?;
    let from = variable(alloc, site, k, List::new(alloc))?;
    set(alloc, to, read(from))
}

// ---- locals

/// The statements that read the locals whose names aren't among these.
fn locals_again(
    alloc: Global,
    site: &UnitSite,
    names: &Names,
    vars: &[Var],
) -> Result<List<CStmt>, NoMemory>
    ensures { IfOk result (λ made. made ≡ unread_again (site_in site.entry.now) names.now 0 vars.now) }
{
    let mut made = List::new(alloc);
    let mut k: u32 = 0;
    for var in vars {
        made = with_local_again(alloc, made, site, names, k, var)?;
        k = k.checked_add(1).ok_or(NoMemory)?;
    }
    Ok(made)
}

/// Statements, and behind them that of a variable, where it has a local whose name isn't among these.
fn with_local_again(
    alloc: Global,
    code: List<CStmt>,
    site: &UnitSite,
    names: &Names,
    k: u32,
    var: &Var,
) -> Result<List<CStmt>, NoMemory>
    ensures { IfOk result (λ made. made ≡ code
        ++ functions.local_again (site_in site.entry.now) k (functions.has_local (site_in site.entry.now) var.now)
        (is_among (variable_name (site_in site.entry.now).vars k) names.now)) }
{
    let mut made = code;
    if has_local(site, var) {
        let name = named(alloc, "v", site.vars, k as usize)?;
        if !names.has(name.as_str()) {
            made.push(local_again(alloc, site, k)?)?;
        }
    }
    Ok(made)
}

/// The local is set to what it has, in a form of which compilers don't warn.
fn local_again(alloc: Global, site: &UnitSite, k: u32) -> Result<CStmt, NoMemory>
    ensures { IfOk result (λ s. s ≡ functions.c_local_again (site_in site.entry.now) k) }
{
    let to = variable(alloc, site, k, List::new(alloc))?;
    let from = variable(alloc, site, k, List::new(alloc))?;
    let value = hidden(alloc, scalar_of_variable(site.vars, k), read(from))?;
    set(alloc, to, value)
}
