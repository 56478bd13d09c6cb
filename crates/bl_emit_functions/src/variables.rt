//! The variables of a function in C: members of its struct, and locals.

ghost use Rattle.std.specs.Prelude.{◌≡◌, ◌||◌, ◌++◌, IfOk, Some};
ghost use Rattle.bl_tree.specs.Typing.{is_fixed, is_variable};
ghost use Rattle.bl_emit_acts.specs.Places.{home_of};
ghost use Rattle.bl_emit_acts.specs.Sites.{site_in};
ghost use Rattle.bl_emit_functions.specs.Functions as functions;

use bl_emit_acts::parts::{joined, named, prefixed};
use bl_emit_acts::{Home, UnitSite, c_type, home_of_var, is_alone};
use bl_tree::c::{CLocal, CMember, CType};
use bl_tree::tree::{Role, Unit, Var};
use bl_tree::{List, NoMemory, Text};
use std::alloc::Global;

/// Whether the unit holds the variable.
pub fn is_held(site: &UnitSite, var: &Var) -> bool
    ensures { result ≡ functions.is_held (home_of (site_in site.entry.now) (Some var.now)) }
{
    matches!(home_of_var(site, var), Home::Held)
}

fn is_declared_role(role: Role) -> bool
    ensures { result ≡ (is_variable role || is_fixed role) }
{
    matches!(role, Role::Variable | Role::Fixed)
}

/// Whether the variable is a local that the function declares.
pub fn has_local(site: &UnitSite, var: &Var) -> bool
    ensures { result ≡ functions.has_local (site_in site.entry.now) var.now }
{
    is_alone(site, &var.ty) && is_declared_role(var.role)
}

// ---- members

/// The members of the variables that the unit holds. Fails only for want of memory.
pub fn members(alloc: Global, site: &UnitSite, vars: &[Var]) -> Result<List<CMember>, NoMemory>
    ensures { IfOk result (λ made. made ≡ functions.members_from (site_in site.entry.now) 0 vars.now) }
{
    let mut made = List::new(alloc);
    let mut k: usize = 0;
    for var in vars {
        made = with_member(alloc, made, site, k, var)?;
        k = k.checked_add(1).ok_or(NoMemory)?;
    }
    Ok(made)
}

/// Members, and behind them that of a variable, where the unit holds it.
fn with_member(
    alloc: Global,
    members: List<CMember>,
    site: &UnitSite,
    k: usize,
    var: &Var,
) -> Result<List<CMember>, NoMemory>
    ensures { IfOk result (λ made. made ≡ members
        ++ functions.member_of (functions.is_held (home_of (site_in site.entry.now) (Some var.now)))
        (site_in site.entry.now).structs (site_in site.entry.now).vars k var.now) }
{
    let mut made = members;
    if is_held(site, var) {
        made.push(member(alloc, site, k, var)?)?;
    }
    Ok(made)
}

fn member(alloc: Global, site: &UnitSite, k: usize, var: &Var) -> Result<CMember, NoMemory>
    ensures { IfOk result (λ made. made
        ≡ functions.held_member (site_in site.entry.now).structs (site_in site.entry.now).vars k var.now) }
{
    let ty = c_type(alloc, site.structs, &var.ty)?;
    let name = named(alloc, "v", site.vars, k)?;
    Ok(CMember {
        ty,
        name,
        length: None,
    })
}

// ---- locals

/// The locals of a function's variables. Fails only for want of memory.
pub fn variable_locals(
    alloc: Global,
    site: &UnitSite,
    unit: &Unit,
) -> Result<List<CLocal>, NoMemory>
    ensures { IfOk result (λ made. made ≡ functions.variable_locals (site_in site.entry.now) unit.now) }
{
    let memory = memory_local(alloc, unit, holds_any(site, &unit.vars))?;
    joined(memory, locals(alloc, site, &unit.vars)?)
}

fn holds_any(site: &UnitSite, vars: &[Var]) -> bool
    ensures { result ≡ functions.holds_any (site_in site.entry.now) vars.now }
{
    for var in vars {
        if is_held(site, var) {
            return true;
        }
    }
    false
}

/// The struct of the variables that the function holds.
fn memory_local(alloc: Global, unit: &Unit, holds: bool) -> Result<List<CLocal>, NoMemory>
    ensures { IfOk result (λ made. made ≡ functions.memory_local unit.now.name holds) }
{
    let mut made = List::new(alloc);
    if holds {
        made.push(CLocal {
            ty: CType::Struct(prefixed(alloc, "m_", unit.name.as_str())?),
            name: Text::copy_of(alloc, "m")?,
        })?;
    }
    Ok(made)
}

/// The locals of the variables that have one.
fn locals(alloc: Global, site: &UnitSite, vars: &[Var]) -> Result<List<CLocal>, NoMemory>
    ensures { IfOk result (λ made. made ≡ functions.locals_from (site_in site.entry.now) 0 vars.now) }
{
    let mut made = List::new(alloc);
    let mut k: usize = 0;
    for var in vars {
        made = with_local(alloc, made, site, k, var)?;
        k = k.checked_add(1).ok_or(NoMemory)?;
    }
    Ok(made)
}

/// Locals, and behind them that of a variable, where it has one.
fn with_local(
    alloc: Global,
    locals: List<CLocal>,
    site: &UnitSite,
    k: usize,
    var: &Var,
) -> Result<List<CLocal>, NoMemory>
    ensures { IfOk result (λ made. made ≡ locals
        ++ functions.local_of (functions.has_local (site_in site.entry.now) var.now)
        (site_in site.entry.now).structs (site_in site.entry.now).vars k var.now) }
{
    let mut made = locals;
    if has_local(site, var) {
        made.push(local(alloc, site, k, var)?)?;
    }
    Ok(made)
}

fn local(alloc: Global, site: &UnitSite, k: usize, var: &Var) -> Result<CLocal, NoMemory>
    ensures { IfOk result (λ made. made
        ≡ functions.variable_local (site_in site.entry.now).structs (site_in site.entry.now).vars k var.now) }
{
    let ty = c_type(alloc, site.structs, &var.ty)?;
    let name = named(alloc, "v", site.vars, k)?;
    Ok(CLocal { ty, name })
}
