//! Whether all calls in functions may be made.

ghost use Rattle.std.specs.Prelude.{◌≡◌, IfOk, List, not};
ghost use Rattle.std.specs.List.{list_all};
ghost use Rattle.bl_tree.specs.declared.text.Text.{Text};
ghost use Rattle.bl_ctext_semantics.specs.inner.Maps.{text_at};
ghost use Rattle.bl_simplify_laws.specs.Spots.{is_own as own};
ghost use Rattle.bl_simplify_laws.specs.Tables.{function_stands, owns};
ghost use Rattle.bl_ctext_places.specs.Names.{HasNames};
ghost use Rattle.bl_simplify_calls.specs.Framed.{HasSomeNames};

use crate::apart::is_own;
use crate::stmts::in_block;
use bl_ctext_semantics::maps::{add, has};
use bl_tree::NoMemory;
use bl_tree::c::{CFunc, CParam};
use std::alloc::Global;
use std::collections::HashMap;

/// The names of functions that take a frame first.
pub type Framed<'a> = HashMap<&'a str, ()>;

/// Whether the first parameter has an own pointer's name.
fn takes_frame(params: &[CParam]) -> bool {
    match params {
        [first, ..] => is_own(&first.name),
        [] => false,
    }
}

/// The names of those functions whose first parameter is named `f` or `s`.
pub fn framed_names<'a>(alloc: Global, functions: &'a [CFunc]) -> Result<Framed<'a>, NoMemory>
    ensures { IfOk result (λ framed. HasSomeNames (text_at framed)) }
{
    let mut framed = HashMap::new(alloc);
    for function in functions {
        if takes_frame(&function.params) {
            add(&mut framed, function.name.as_str(), ())?;
        }
    }
    Ok(framed)
}

/// Whether none of some parameters has an own pointer's name.
fn are_plain(params: &[CParam]) -> bool
    ensures { result ≡ list_all (λ q. not (own q.name)) params.now }
{
    let mut plain = true;
    for param in params {
        plain &= !is_own(&param.name);
    }
    plain
}

/// Whether pointers with own pointers' names are a function's own.
fn is_owner(framed: &Framed<'_>, function: &CFunc) -> bool
    ensures { (names : List Text) → HasNames (text_at framed.now) names → result ≡ owns names function.now }
{
    match function.params.as_slice() {
        [first, others @ ..] => (has(framed, &function.name) || !is_own(&first.name))
            && are_plain(others),
        [] => true,
    }
}

/// Whether all calls in a function may be made, and pointers with own pointers' names are its own.
pub fn stands(framed: &Framed<'_>, function: &CFunc) -> bool
    ensures { (names : List Text) → HasNames (text_at framed.now) names → result ≡ function_stands names function.now }
{
    is_owner(framed, function) & in_block(framed, &function.body)
}
