//! Expressions, and the places of paths.

ghost use Rattle.std.specs.Prelude.{◌≡◌, false, [], IfOk, map, option_map};
ghost use Rattle.bl_tree.specs.Typing.{var_at};
ghost use Rattle.bl_emit_acts.specs.declared.made.Made.TheVariants.{Number};
ghost use Rattle.bl_emit_acts.specs.Expressions.{arg_of, made_of, name_of_field, scalar_at, stands, step_typing, steps_of};
ghost use Rattle.bl_emit_acts.specs.Sites.{site_in};
ghost use Rattle.bl_emit_acts.specs.Trees.{c_place, c_read, c_step};
ghost use Rattle.bl_emit_acts.specs.Types.{copy_name, field_name};

use crate::made::Made;
use crate::operators::{argument, both, call, cast, code, one, standing, type_made};
use crate::parts::{element, literal, named, prefixed, read, step, whole};
use crate::places::{element_type, field, length, scalar_of_variable, type_of_variable, variable};
use crate::site::UnitSite;
use crate::types::{is_int, scalar_in, scalar_in_c};
use bl_tree::c::{CArg, CPlace, CStep};
use bl_tree::tree::{Expr, ExprKind, Field, Part, Path, Ty};
use bl_tree::{List, NoMemory};
use std::alloc::Global;

/// A step into a value of a type.
#[derive(Drop)]
struct Stepped<'a> {
    step: CStep,
    /// The type of what it leads to.
    ty: Option<&'a Ty>,
}

/// The C of an expression that stands at the site. Fails only for want of memory.
#[cycle(expressions)]
pub fn expression(alloc: Global, site: &UnitSite, e: &Expr) -> Result<Made, NoMemory>
    ensures { IfOk result (λ made. made ≡ made_of (site_in site.entry.now) e.now) }
{
    match &e.what {
        ExprKind::Literal(n, s) => { Ok(Made::Number(*s, literal(scalar_in_c(*s), *n))) }
        ExprKind::Read(path) => {
            let at = place(alloc, site, path)?;
            Ok(standing(scalar_in(&path.ty), at))
        }
        ExprKind::Prev(k) => previous(alloc, site, *k),
        ExprKind::One(op, a) => {
            let a = expression(alloc, site, a)?;
            one(alloc, *op, type_made(&a), code(a))
        }
        ExprKind::Two(op, a, b) => {
            let a = expression(alloc, site, a)?;
            let b = expression(alloc, site, b)?;
            both(alloc, *op, type_made(&a), code(a), code(b))
        }
        ExprKind::Cast(to, a) => {
            let a = expression(alloc, site, a)?;
            let number = cast(alloc, type_made(&a), *to, code(a))?;
            Ok(Made::Number(*to, number))
        }
        ExprKind::Call(f, inputs) => {
            let args = arguments(alloc, site, inputs)?;
            call(alloc, site, *f, args)
        }
    }
}

/// The arguments for the inputs of a function.
#[cycle(expressions)]
pub fn arguments(alloc: Global, site: &UnitSite, inputs: &[Expr]) -> Result<List<CArg>, NoMemory>
    ensures { IfOk result (λ args. args ≡ map arg_of (map (made_of (site_in site.entry.now)) inputs.now)) }
{
    let mut args = List::new(alloc);
    for e in inputs {
        args.push(argument(expression(alloc, site, e)?))?;
    }
    Ok(args)
}

/// The C place of a path that stands at the site. Fails only for want of memory.
#[cycle(expressions)]
pub fn place(alloc: Global, site: &UnitSite, path: &Path) -> Result<CPlace, NoMemory>
    ensures { IfOk result (λ place. place ≡ (stands (site_in site.entry.now) path.now).place) }
{
    let first = type_of_variable(site, path.root);
    let steps = steps(alloc, site, &path.parts, first)?;
    variable(alloc, site, path.root, steps)
}

/// The steps of parts into a value of a type.
#[cycle(expressions)]
fn steps<'a>(
    alloc: Global,
    site: &UnitSite<'a>,
    parts: &[Part],
    first: Option<&'a Ty>,
) -> Result<List<CStep>, NoMemory>
    ensures { IfOk result (λ steps. steps
        ≡ steps_of (map (step_typing (site_in site.entry.now)) parts.now) (option_map (λ ty. ty.now) first.entry)) }
{
    let mut steps = List::new(alloc);
    let mut ty = first;
    for part in parts {
        let stepped = step_into(alloc, site, part, ty)?;
        steps.push(stepped.step)?;
        ty = stepped.ty;
    }
    Ok(steps)
}

/// The step of a part into a value of a type.
#[cycle(expressions)]
fn step_into<'a>(
    alloc: Global,
    site: &UnitSite<'a>,
    part: &Part,
    ty: Option<&'a Ty>,
) -> Result<Stepped<'a>, NoMemory>
    ensures step { IfOk result (λ stepped. stepped.step ≡ (step_typing (site_in site.entry.now) part.now (option_map (λ ty. ty.now) ty.entry)).step) }
    ensures ty { IfOk result (λ stepped. option_map (λ ty. ty.now) stepped.ty
        ≡ (step_typing (site_in site.entry.now) part.now (option_map (λ ty. ty.now) ty.entry)).ty) }
{
    match part {
        Part::Field(k) => to_field(alloc, field(site.structs, *k, ty)),
        Part::Index(e) => {
            let at = expression(alloc, site, e)?;
            let signed = is_int(type_made(&at));
            Ok(Stepped {
                step: element(alloc, "e", signed, code(at), length(ty))?,
                ty: element_type(ty),
            })
        }
    }
}

/// The step to a field, and the field's type.
fn to_field<'a>(alloc: Global, field: Option<&'a Field>) -> Result<Stepped<'a>, NoMemory>
    ensures step { IfOk result (λ stepped. stepped.step ≡ c_step (field_name (name_of_field (option_map (λ field. field.now) field.entry)))) }
    ensures ty { IfOk result (λ stepped. option_map (λ ty. ty.now) stepped.ty
        ≡ option_map (λ field. field.ty) (option_map (λ field. field.now) field.entry)) }
{
    match field {
        Some(field) => Ok(Stepped {
            step: step(prefixed(alloc, "m_", field.name.as_str())?),
            ty: Some(&field.ty),
        }),
        None => Ok(Stepped {
            step: step(prefixed(alloc, "m_", "")?),
            ty: None,
        }),
    }
}

/// What a variable was when the tick began.
fn previous(alloc: Global, site: &UnitSite, k: u32) -> Result<Made, NoMemory>
    ensures { IfOk result (λ made. made
        ≡ Number (scalar_at (var_at (site_in site.entry.now) k)) (c_read (c_place false (copy_name (site_in site.entry.now).vars k) []))) }
{
    let at = whole(alloc, false, named(alloc, "p", site.vars, k as usize)?);
    Ok(Made::Number(scalar_of_variable(site.vars, k), read(at)))
}
