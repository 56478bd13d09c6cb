//! Acts: assignments, declarations, and calls of functions without a result.

ghost use Rattle.std.specs.Prelude.{◌≡◌, IfOk, option_map, slice_get};
ghost use Rattle.bl_tree.specs.Types as types;
ghost use Rattle.bl_emit_acts.specs.Acts as acts;
ghost use Rattle.bl_emit_acts.specs.Sites.{site_in};

use crate::expressions::{arguments, expression, place};
use crate::operators::code;
use crate::parts::{clear, literal, named, prefixed, read, set, single, statement, whole};
use crate::places::{type_of_variable, variable};
use crate::site::UnitSite;
use crate::types::{name_of_type, scalar_in, scalar_in_c};
use bl_tree::c::{CArg, CCall, CPlace, CStmt, CStmtKind};
use bl_tree::slices::element;
use bl_tree::tree::{Expr, Path, Stmt, StmtKind, StructDef, Ty};
use bl_tree::{List, NoMemory, Text};
use std::alloc::Global;

/// Sets a place of a type to 0 or false everywhere.
fn zero_set(alloc: Global, structs: &[StructDef], at: CPlace, ty: &Ty) -> Result<CStmt, NoMemory>
    ensures { IfOk result (λ s. s ≡ acts.c_zeroed structs.now at ty.now (types.scalar_in ty.now)) }
{
    match scalar_in(ty) {
        Some(s) => set(alloc, at, literal(scalar_in_c(s), 0)),
        None => clear(alloc, at, name_of_type(alloc, structs, ty)?),
    }
}

/// The same of a place whose type may be known.
fn zeroed(
    alloc: Global,
    structs: &[StructDef],
    at: CPlace,
    ty: Option<&Ty>,
) -> Result<List<CStmt>, NoMemory>
    ensures { IfOk result (λ code. code ≡ acts.zeroed structs.now at (option_map (λ ty. ty.now) ty.entry)) }
{
    let mut made = List::new(alloc);
    if let Some(ty) = ty {
        made.push(zero_set(alloc, structs, at, ty)?)?;
    }
    Ok(made)
}

/// Sets a place to what an expression gives.
fn assigned(alloc: Global, site: &UnitSite, at: CPlace, e: &Expr) -> Result<CStmt, NoMemory>
    ensures { IfOk result (λ s. s ≡ acts.c_set at (acts.code_made (site_in site.entry.now) e.now)) }
{
    let value = expression(alloc, site, e)?;
    set(alloc, at, code(value))
}

/// Sets the variable at a position to its initial value.
fn initial(
    alloc: Global,
    site: &UnitSite,
    k: u32,
    e: &Option<Expr>,
) -> Result<List<CStmt>, NoMemory>
    ensures { IfOk result (λ code. code ≡ acts.initial_code (site_in site.entry.now) k e.now) }
{
    let at = variable(alloc, site, k, List::new(alloc))?;
    match e {
        Some(e) => single(alloc, assigned(alloc, site, at, e)?),
        None => zeroed(alloc, site.structs, at, type_of_variable(site, k)),
    }
}

/// The statement that sets the copy of the variable at a position to what the variable is, as a tick begins. Fails only for
/// want of memory.
pub fn copied(alloc: Global, site: &UnitSite, k: u32) -> Result<CStmt, NoMemory>
    ensures { IfOk result (λ s. s ≡ acts.c_copied (site_in site.entry.now) k) }
{
    let copy = whole(alloc, false, named(alloc, "p", site.vars, k as usize)?);
    let from = variable(alloc, site, k, List::new(alloc))?;
    set(alloc, copy, read(from))
}

/// A declaration: the initial value, and that of the copy, where the variable has one.
fn declared(
    alloc: Global,
    site: &UnitSite,
    copies: &[bool],
    k: u32,
    e: &Option<Expr>,
) -> Result<List<CStmt>, NoMemory>
    ensures { IfOk result (λ code. code ≡ acts.declared_code (site_in site.entry.now) copies.now k e.now) }
{
    let mut made = initial(alloc, site, k, e)?;
    if let Some(true) = element(copies, k as usize) {
        made.push(copied(alloc, site, k)?)?;
    }
    Ok(made)
}

/// The name of the function at a position.
fn callee(alloc: Global, site: &UnitSite, f: u32) -> Result<Text, NoMemory>
    ensures { IfOk result (λ name. name ≡ acts.name_of_callee (slice_get (site_in site.entry.now).earlier f)) }
{
    match element(site.earlier, f as usize) {
        Some(unit) => prefixed(alloc, "a_", unit.name.as_str()),
        None => prefixed(alloc, "a_", ""),
    }
}

/// The arguments of a call: those of the inputs, then those of the outputs.
fn all_arguments(
    alloc: Global,
    site: &UnitSite,
    inputs: &[Expr],
    outputs: &[Path],
) -> Result<List<CArg>, NoMemory>
    ensures { IfOk result (λ args. args ≡ acts.call_args (site_in site.entry.now) inputs.now outputs.now) }
{
    let mut args = arguments(alloc, site, inputs)?;
    for path in outputs {
        args.push(CArg::Address(place(alloc, site, path)?))?;
    }
    Ok(args)
}

fn called(
    alloc: Global,
    site: &UnitSite,
    f: u32,
    inputs: &[Expr],
    outputs: &[Path],
) -> Result<CStmt, NoMemory>
    ensures { IfOk result (λ s. s ≡ acts.c_calling (acts.call_made (site_in site.entry.now) f inputs.now outputs.now)) }
{
    let name = callee(alloc, site, f)?;
    let args = all_arguments(alloc, site, inputs, outputs)?;
    Ok(statement(CStmtKind::Call(CCall { name, args })))
}

/// The C of an assignment, a declaration or a call that stands at the site; other statements give nothing. `copies` says
/// by its position of each variable whether the C keeps a copy of what it was when the tick began. Fails only for want of
/// memory.
pub fn act(
    alloc: Global,
    site: &UnitSite,
    copies: &[bool],
    s: &Stmt,
) -> Result<List<CStmt>, NoMemory>
    ensures { IfOk result (λ code. code ≡ acts.act_code (site_in site.entry.now) copies.now s.now) }
{
    match &s.what {
        StmtKind::Declare(k, e) => declared(alloc, site, copies, *k, e),
        StmtKind::Assign(path, e) => {
            let at = place(alloc, site, path)?;
            single(alloc, assigned(alloc, site, at, e)?)
        }
        StmtKind::Call(f, inputs, outputs) => {
            single(alloc, called(alloc, site, *f, inputs, outputs)?)
        }
        _ => Ok(List::new(alloc)),
    }
}
