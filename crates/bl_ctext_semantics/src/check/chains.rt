//! How many cells the variables of functions have, and those of the deepest chain of calls.

ghost use Rattle.std.specs.Prelude.{◌≡◌, IfOk, length, map};
ghost use Rattle.bl_tree.specs.Reduce.{total};
ghost use Rattle.bl_ctext_semantics.specs.Loops.{turns_in_block};
ghost use Rattle.bl_ctext_semantics.specs.inner.Maps.{text_at};
ghost use Rattle.bl_ctext_semantics.specs.Saturated.{saturated};
ghost use Rattle.bl_ctext_semantics.specs.Sizes.{chain_cells, deepest_chain as deepest_chain_of, own_cells, size_of_param, size_of_type};

use crate::check::calls::most_in_block;
use crate::check::loops::add_turns;
use crate::maps::{Numbers, add};
use crate::sizes::type_size;
use bl_tree::NoMemory;
use bl_tree::c::{CFunc, CLocal, CParam, CStmt};
use std::alloc::Global;
use std::collections::HashMap;

/// The cells of a parameter; a pointer is one.
fn param_size(sizes: &Numbers<'_>, param: &CParam) -> u64
    ensures { result ≡ size_of_param (text_at sizes.now) param.now }
{
    if param.pointer {
        1
    } else {
        type_size(sizes, &param.ty)
    }
}

fn params_size(sizes: &Numbers<'_>, params: &[CParam]) -> u64
    ensures { result ≡ saturated (total (map (size_of_param (text_at sizes.now)) params.now)) }
{
    let mut size = 0u64;
    for param in params {
        size = size.saturating_add(param_size(sizes, param));
    }
    size
}

fn locals_size(sizes: &Numbers<'_>, locals: &[CLocal]) -> u64
    ensures { result ≡ saturated (total (map (λ l. size_of_type (text_at sizes.now) l.ty) locals.now)) }
{
    let mut size = 0u64;
    for local in locals {
        size = size.saturating_add(type_size(sizes, &local.ty));
    }
    size
}

/// How many loops stand in a block; each has a counter.
fn count_loops(alloc: Global, block: &[CStmt]) -> Result<u64, NoMemory>
    ensures { IfOk result (λ count. count ≡ length (turns_in_block block.now)) }
{
    let mut turns = Vec::new(alloc);
    add_turns(&mut turns, block)?;
    Ok(turns.len() as u64)
}

/// The cells of a function's own parameters and locals.
fn own_size(alloc: Global, sizes: &Numbers<'_>, of: &CFunc) -> Result<u64, NoMemory>
    ensures { IfOk result (λ size. size ≡ saturated (own_cells (text_at sizes.now) of.now)) }
{
    let loops = count_loops(alloc, &of.body)?;
    let locals = locals_size(sizes, &of.locals).saturating_add(loops);
    Ok(params_size(sizes, &of.params).saturating_add(locals))
}

/// The cells of the deepest chain of calls that begins with a function.
fn chain_size(
    alloc: Global,
    sizes: &Numbers<'_>,
    chains: &Numbers<'_>,
    of: &CFunc,
) -> Result<u64, NoMemory>
    ensures { IfOk result (λ size. size ≡ saturated (chain_cells (text_at sizes.now) (text_at chains.now) of.now)) }
{
    let own = own_size(alloc, sizes, of)?;
    Ok(own.saturating_add(most_in_block(chains, &of.body)))
}

/// The cells of the deepest chain of calls, also of functions that nobody calls.
pub fn deepest_chain(alloc: Global, sizes: &Numbers<'_>, list: &[CFunc]) -> Result<u64, NoMemory>
    ensures { IfOk result (λ size. size ≡ saturated (deepest_chain_of (text_at sizes.now) list.now)) }
{
    let mut chains: Numbers<'_> = HashMap::new(alloc);
    let mut deepest = 0u64;
    for of in list {
        let chain = chain_size(alloc, sizes, &chains, of)?;
        deepest = deepest.max(chain);
        add(&mut chains, of.name.as_str(), chain)?;
    }
    Ok(deepest)
}
