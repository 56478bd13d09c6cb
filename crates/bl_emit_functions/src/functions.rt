//! The C functions of functions, and the structs of their variables.

ghost use Rattle.std.specs.Prelude.{◌≡◌, ◌++◌, IfOk, option_map, take};
ghost use Rattle.bl_tree.specs.Program.{is_output, parameters_of};
ghost use Rattle.bl_tree.specs.Typing.{inputs_of, site_of};
ghost use Rattle.bl_emit_acts.specs.Sites.{site_in};
ghost use Rattle.bl_emit_acts.specs.Types.{c_scalar};
ghost use Rattle.bl_emit_functions.specs.Functions as functions;
ghost use Rattle.bl_emit_functions.specs.Trees.{c_return_zero};

use crate::again::again;
use crate::coded::{Coded, Free};
use crate::parts::returning;
use crate::statements::block;
use crate::variables::{is_held, members, variable_locals};
use bl_ctext_semantics::check::block_returns;
use bl_emit_acts::parts::{
    NOWHERE, joined, literal, named, numbered, prefixed, read, set, single, whole,
};
use bl_emit_acts::{UnitSite, c_type, scalar_in, scalar_in_c, variable};
use bl_tree::c::{CFunc, CLocal, CParam, CStmt, CStruct, CType};
use bl_tree::tree::{Role, StructDef, Unit, Var};
use bl_tree::{List, NoMemory, Scalar};
use std::alloc::Global;

/// The first so many variables.
fn first(vars: &[Var], count: usize) -> &[Var]
    ensures { result.now ≡ take count vars.now }
{
    if count <= vars.len() {
        &vars[..count]
    } else {
        vars
    }
}

/// The C function of a function. `earlier` are the units before it. Fails only for want of memory.
pub fn function(
    alloc: Global,
    structs: &[StructDef],
    earlier: &[Unit],
    unit: &Unit,
) -> Result<CFunc, NoMemory>
    ensures { IfOk result (λ made. made ≡ functions.function_code structs.now earlier.now unit.now) }
{
    let site = site(structs, earlier, unit);
    let coded = body_coded(alloc, &site, unit)?;
    let flags = coded.free.flags;
    let name = prefixed(alloc, "a_", unit.name.as_str())?;
    let params = params(alloc, structs, unit)?;
    let locals = locals(alloc, &site, unit, flags)?;
    let body = body(alloc, &site, unit, coded.code)?;
    let body = whole_body(alloc, &site, unit, body)?;
    Ok(CFunc {
        place: NOWHERE,
        fixed: true,
        result: type_in_c(unit.result),
        name,
        params,
        locals,
        body,
    })
}

/// What the statements of a unit see.
fn site<'a>(structs: &'a [StructDef], earlier: &'a [Unit], unit: &'a Unit) -> UnitSite<'a>
    ensures { site_in result ≡ site_of structs.now earlier.now unit.now }
{
    UnitSite {
        structs,
        earlier,
        kind: unit.kind,
        vars: unit.vars.as_slice(),
        result: unit.result,
    }
}

fn type_in_c(ty: Option<Scalar>) -> Option<Scalar>
    ensures { result ≡ option_map c_scalar ty }
{
    match ty {
        Some(s) => Some(scalar_in_c(s)),
        None => None,
    }
}

// ---- parameters

fn is_output_role(role: Role) -> bool
    ensures { result ≡ is_output role }
{
    matches!(role, Role::Output)
}

/// The parameter of the variable at a position among all of its unit's: a scalar input is given by value, all others by
/// pointer.
fn param(
    alloc: Global,
    structs: &[StructDef],
    vars: &[Var],
    k: usize,
    var: &Var,
) -> Result<CParam, NoMemory>
    ensures { IfOk result (λ made. made ≡ functions.param_of structs.now vars.now k var.now) }
{
    let ty = c_type(alloc, structs, &var.ty)?;
    let name = named(alloc, "v", vars, k)?;
    Ok(CParam {
        ty,
        pointer: is_output_role(var.role) || scalar_in(&var.ty).is_none(),
        name,
    })
}

/// The parameters of a unit's function for its inputs and outputs. Fails only for want of memory.
pub fn params(alloc: Global, structs: &[StructDef], unit: &Unit) -> Result<List<CParam>, NoMemory>
    ensures { IfOk result (λ made. made ≡ functions.params_from structs.now unit.now.vars 0 (parameters_of unit.now)) }
{
    let count = unit.inputs as usize + unit.outputs as usize;
    params_of(alloc, structs, &unit.vars, first(&unit.vars, count))
}

/// The parameters of a unit's first variables.
fn params_of(
    alloc: Global,
    structs: &[StructDef],
    vars: &[Var],
    parameters: &[Var],
) -> Result<List<CParam>, NoMemory>
    ensures { IfOk result (λ made. made ≡ functions.params_from structs.now vars.now 0 parameters.now) }
{
    let mut made = List::new(alloc);
    for k in 0..parameters.len() {
        made.push(param(alloc, structs, vars, k, &parameters[k])?)?;
    }
    Ok(made)
}

// ---- variables

/// The struct of the variables that a function holds; none where it holds none. Fails only for want of memory.
pub fn memory(
    alloc: Global,
    structs: &[StructDef],
    earlier: &[Unit],
    unit: &Unit,
) -> Result<List<CStruct>, NoMemory>
    ensures { IfOk result (λ made. made ≡ functions.memory_struct structs.now earlier.now unit.now) }
{
    let members = members(alloc, &site(structs, earlier, unit), &unit.vars)?;
    let mut made = List::new(alloc);
    if !members.is_empty() {
        made.push(CStruct {
            place: NOWHERE,
            name: prefixed(alloc, "m_", unit.name.as_str())?,
            members,
        })?;
    }
    Ok(made)
}

/// The locals of the variables, and so many flags.
fn locals(alloc: Global, site: &UnitSite, unit: &Unit, flags: u64) -> Result<List<CLocal>, NoMemory>
    ensures { IfOk result (λ made. made ≡ functions.variable_locals (site_in site.entry.now) unit.now ++ functions.flag_locals flags) }
{
    let made = variable_locals(alloc, site, unit)?;
    with_flags(alloc, made, flags)
}

fn with_flags(alloc: Global, locals: List<CLocal>, flags: u64) -> Result<List<CLocal>, NoMemory>
    ensures { IfOk result (λ made. made ≡ locals ++ functions.flag_locals flags) }
{
    let mut made = locals;
    for k in 0..flags {
        made.push(CLocal {
            ty: CType::Scalar(Scalar::Bool),
            name: numbered(alloc, "q", k)?,
        })?;
    }
    Ok(made)
}

// ---- bodies

const NONE_TAKEN: Free = Free { flags: 0, turns: 0 };

fn body_coded(alloc: Global, site: &UnitSite, unit: &Unit) -> Result<Coded, NoMemory>
    ensures { IfOk result (λ coded. coded ≡ functions.body_coded (site_in site.entry.now) unit.now) }
{
    block(alloc, site, &unit.body, NONE_TAKEN)
}

/// The copies of inputs, the C of the statements, and a `return` where one is missing.
fn body(
    alloc: Global,
    site: &UnitSite,
    unit: &Unit,
    statements: List<CStmt>,
) -> Result<List<CStmt>, NoMemory>
    ensures { IfOk result (λ made. made ≡ functions.copies_from (site_in site.entry.now) 0 (inputs_of unit.now)
        ++ (statements ++ functions.end_code unit.now.result (functions.code_returns statements))) }
{
    let copies = copies(alloc, site, first(&unit.vars, unit.inputs as usize))?;
    let end = end(alloc, unit.result, block_returns(&statements))?;
    joined(copies, joined(statements, end)?)
}

/// The copies of the inputs that the unit holds.
fn copies(alloc: Global, site: &UnitSite, inputs: &[Var]) -> Result<List<CStmt>, NoMemory>
    ensures { IfOk result (λ made. made ≡ functions.copies_from (site_in site.entry.now) 0 inputs.now) }
{
    let mut made = List::new(alloc);
    let mut k: u32 = 0;
    for var in inputs {
        if is_held(site, var) {
            made.push(copy(alloc, site, k)?)?;
        }
        k = k.checked_add(1).ok_or(NoMemory)?;
    }
    Ok(made)
}

/// The variable becomes what its parameter points to.
fn copy(alloc: Global, site: &UnitSite, k: u32) -> Result<CStmt, NoMemory>
    ensures { IfOk result (λ s. s ≡ functions.c_input_copied (site_in site.entry.now) k) }
{
    let to = variable(alloc, site, k, List::new(alloc))?;
    let from = whole(alloc, true, named(alloc, "v", site.vars, k as usize)?);
    set(alloc, to, read(from))
}

/// The body, and before it what reads what it only sets.
fn whole_body(
    alloc: Global,
    site: &UnitSite,
    unit: &Unit,
    body: List<CStmt>,
) -> Result<List<CStmt>, NoMemory>
    ensures { IfOk result (λ made. made ≡ functions.again_code (site_in site.entry.now) unit.now body ++ body) }
{
    let before = again(alloc, site, unit, &body)?;
    joined(before, body)
}

/// A `return` of 0 or false for a function with a result, where its statements don't surely return.
fn end(alloc: Global, ty: Option<Scalar>, returns: bool) -> Result<List<CStmt>, NoMemory>
    ensures { IfOk result (λ made. made ≡ functions.end_code ty returns) }
{
    match ty {
        Some(s) if !returns => single(alloc, return_zero(alloc, scalar_in_c(s))?),
        _ => Ok(List::new(alloc)),
    }
}

fn return_zero(alloc: Global, s: Scalar) -> Result<CStmt, NoMemory>
    ensures { IfOk result (λ made. made ≡ c_return_zero s) }
{
    returning(alloc, Some(literal(s, 0)))
}
