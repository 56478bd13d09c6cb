//! Which functions have a spelling, and how deep their brackets go.

ghost use Rattle.std.specs.Prelude.{◌≡◌, List, map, true};
ghost use Rattle.bl_tree.specs.Reduce.{all_of, greatest};
ghost use Rattle.bl_ctext.specs.Spellable.{has_any, is_c_scalar as c_scalar, is_spellable, spells_func, spells_local, spells_param, spells_returned};
ghost use Rattle.bl_ctext.specs.Spellable.{spells_struct, spells_type};
ghost use Rattle.bl_ctext.specs.inner.Depths.{func_depth};
ghost use Rattle.bl_ctext_spelled.specs.Deep.{Spelled};

use crate::depth::{at_least, deeper, flat, within};
use crate::stmts::of_block;
use bl_cparse_syntax::words::{is_function_name, is_name, is_struct_name};
use bl_tree::c::{CFunc, CLocal, CParam, CStruct, CType};
use bl_tree::scalar::Scalar;

/// How many brackets may be open at once (docs/C_SUBSET.md, "Grammar").
const MOST_OPEN: usize = 2_000;

/// Whether C has the type.
fn is_c_scalar(ty: Scalar) -> bool
    ensures { result ≡ c_scalar ty }
{
    !matches!(ty, Scalar::Bits(_))
}

fn is_returned(ty: Option<Scalar>) -> bool
    ensures { result ≡ spells_returned ty }
{
    match ty {
        None => true,
        Some(ty) => is_c_scalar(ty),
    }
}

fn is_type(ty: &CType) -> bool
    ensures { result ≡ spells_type ty.now }
{
    match ty {
        CType::Scalar(scalar) => is_c_scalar(*scalar),
        CType::Struct(name) => is_struct_name(name.as_str().as_bytes()),
    }
}

fn are_params(params: &[CParam]) -> bool
    ensures { result ≡ all_of (map spells_param params.now) }
{
    let mut spell = true;
    for param in params {
        spell = spell && is_type(&param.ty) && is_name(param.name.as_str().as_bytes());
    }
    spell
}

fn are_locals(locals: &[CLocal]) -> bool
    ensures { result ≡ all_of (map spells_local locals.now) }
{
    let mut spell = true;
    for local in locals {
        spell = spell && is_type(&local.ty) && is_name(local.name.as_str().as_bytes());
    }
    spell
}

fn of_function(function: &CFunc) -> Option<usize>
    ensures { Spelled (spells_func function.now) (func_depth function.now) result }
{
    let result = flat(is_returned(function.result));
    let name = flat(is_function_name(function.name.as_str().as_bytes()));
    let params = flat(are_params(&function.params));
    let locals = flat(are_locals(&function.locals));
    let front = deeper(deeper(result, name), deeper(params, locals));
    deeper(front, within(at_least(of_block(&function.body), 1), 1))
}

fn of_functions(functions: &[CFunc]) -> Option<usize>
    ensures { Spelled (all_of (map spells_func functions.now)) (greatest (map func_depth functions.now)) result }
{
    let mut depth = Some(0);
    for function in functions {
        depth = deeper(depth, of_function(function));
    }
    depth
}

/// Whether the functions surely have a spelling behind structs that have one.
pub fn spell(functions: &[CFunc]) -> bool
    ensures { result ≡ true →
        (structs : List CStruct) → has_any structs ≡ true → all_of (map spells_struct structs) ≡ true → is_spellable structs functions.now ≡ true }
{
    match of_functions(functions) {
        Some(depth) => !functions.is_empty() && depth <= MOST_OPEN,
        None => false,
    }
}
