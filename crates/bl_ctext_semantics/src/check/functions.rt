//! Functions: where one of them fails first.

ghost use Rattle.std.specs.Prelude.{◌≡◌, ◌++◌, false, if◌then◌else◌, IfOk, is_none, map, not};
ghost use Rattle.bl_ctext_semantics.specs.inner.Checked.{checked_structs, functions_of};
ghost use Rattle.bl_ctext_semantics.specs.Faults.{all_distinct, block_faults, context_in, depth_of_function, faults_in_function, faults_in_head};
ghost use Rattle.bl_ctext_semantics.specs.Faults.{faults_in_stmt, first_place, function_faults_after, keeps_all as keeps_everything, names_table, repeated};
ghost use Rattle.bl_ctext_semantics.specs.Faults.{variable_names};
ghost use Rattle.bl_ctext_semantics.specs.Loops.{turns_in_block};
ghost use Rattle.bl_ctext_semantics.specs.inner.Maps.{bytes_of, text_at};
ghost use Rattle.bl_ctext_semantics.specs.Tables.{no_entries};

use crate::check::calls::most_in_block;
use crate::check::context::{Context, Structs};
use crate::check::first::{both, earlier, either, unless};
use crate::check::loops::add_turns;
use crate::check::names::{differ, first_repeated};
use crate::check::stmt::{block_returns, judge_block};
use crate::check::structs::one_longer;
use crate::check::variables::{
    as_keys, locals_are_declared, names_of, params_are_declared, params_are_scalar, variables_in,
};
use crate::maps::{Numbers, add, has};
use crate::prelude::Builtins;
use bl_tree::c::CFunc;
use bl_tree::{NoMemory, Place};
use std::alloc::Global;
use std::collections::HashMap;

/// What is declared before a function.
#[derive(Clone, Copy)]
pub struct Known<'c, 'a> {
    pub builtins: &'c Builtins,
    pub structs: &'c Structs<'a>,
    pub functions: &'c HashMap<&'a str, &'a CFunc>,
    /// The longest chain of calls that each of the functions heads.
    pub depths: &'c Numbers<'a>,
}

/// Whether a function may change nothing through a pointer.
fn keeps_all(of: &CFunc) -> bool
    ensures { result ≡ keeps_everything of.now }
{
    both(of.result.is_some(), of.name.as_str() != "bl_tick")
}

/// The longest chain of calls that a function heads.
fn function_depth(depths: &Numbers<'_>, of: &CFunc) -> u64
    ensures { result ≡ depth_of_function (text_at depths.now) of.now }
{
    one_longer(most_in_block(depths, &of.body))
}

/// Whether a function without a `static` is one of the last two, and one with it is none.
fn is_fixed_rightly(of: &CFunc, last: bool) -> bool
    ensures { result ≡ (if last then not of.now.fixed else of.now.fixed) }
{
    if last { !of.fixed } else { of.fixed }
}

fn gives_nothing(of: &CFunc) -> bool
    ensures { result ≡ is_none of.now.result }
{
    of.result.is_none()
}

/// Where a function fails before its statements; `apart` says whether its variables' names differ.
fn judge_head(known: &Known<'_, '_>, of: &CFunc, apart: bool, last: bool) -> Option<Place>
    requires { apart ≡ all_distinct no_entries (variable_names of.now) }
    ensures { result ≡ first_place
        (faults_in_head (checked_structs known.now.structs.now) (functions_of known.now.functions.now) (text_at known.now.depths.now) last of.now) }
{
    let at = of.place;
    let new = !has(known.functions, &of.name);
    let declared = both(
        params_are_declared(known.structs, &of.params),
        locals_are_declared(known.structs, &of.locals),
    );
    let shallow = function_depth(known.depths, of) <= 300;
    let returns = either(gives_nothing(of), block_returns(&of.body));
    let late = earlier(
        unless(is_fixed_rightly(of, last), at),
        earlier(unless(shallow, at), unless(returns, at)),
    );
    let middle = earlier(
        unless(declared, at),
        earlier(unless(params_are_scalar(&of.params), at), late),
    );
    earlier(unless(new, at), earlier(unless(apart, at), middle))
}

/// Where something in a function's statements fails first.
fn judge_body<'a>(
    alloc: Global,
    known: &Known<'_, 'a>,
    of: &'a CFunc,
    names: &[&'a str],
) -> Result<Option<Place>, NoMemory>
    requires { bytes_of names.now ≡ variable_names of.now }
    ensures { IfOk result (λ first. first ≡ first_place (repeated (names_table (variable_names of.now)) (turns_in_block of.now.body)
        ++ block_faults (map faults_in_stmt of.now.body) (context_in (checked_structs known.now.structs.now)
        (functions_of known.now.functions.now) of.now) false)) }
{
    let mut turns = Vec::new(alloc);
    add_turns(&mut turns, &of.body)?;
    let mut keys = as_keys(alloc, names)?;
    let repeated = first_repeated(&mut keys, &turns)?;
    let variables = variables_in(alloc, of)?;
    let context = Context {
        builtins: known.builtins,
        structs: known.structs,
        functions: known.functions,
        variables: &variables,
        result: of.result,
        is_read_only: keeps_all(of),
    };
    Ok(earlier(repeated, judge_block(&context, &of.body, false)))
}

/// Where a function fails first; `last` says whether it is one of the last two.
fn judge_function<'a>(
    alloc: Global,
    known: &Known<'_, 'a>,
    of: &'a CFunc,
    last: bool,
) -> Result<Option<Place>, NoMemory>
    ensures { IfOk result (λ first. first ≡ first_place
        (faults_in_function (checked_structs known.now.structs.now) (functions_of known.now.functions.now) (text_at known.now.depths.now) last of.now)) }
{
    let names = names_of(alloc, of)?;
    let apart = differ(alloc, &names)?;
    let body = judge_body(alloc, known, of, &names)?;
    Ok(earlier(judge_head(known, of, apart, last), body))
}

/// Where one of the functions of a file fails first.
pub fn judge_functions<'a>(
    alloc: Global,
    builtins: &Builtins,
    structs: &Structs<'a>,
    list: &'a [CFunc],
) -> Result<Option<Place>, NoMemory>
    ensures { IfOk result (λ first. first ≡ first_place (function_faults_after (checked_structs structs.now) no_entries no_entries list.now)) }
{
    let mut functions: HashMap<&'a str, &'a CFunc> = HashMap::new(alloc);
    let mut depths: Numbers<'a> = HashMap::new(alloc);
    let mut first = None;
    for (k, of) in list.iter().enumerate() {
        let known = Known {
            builtins,
            structs,
            functions: &functions,
            depths: &depths,
        };
        let here = judge_function(alloc, &known, of, list.len() - k <= 2)?;
        let depth = function_depth(&depths, of);
        first = earlier(first, here);
        add(&mut depths, of.name.as_str(), depth)?;
        add(&mut functions, of.name.as_str(), of)?;
    }
    Ok(first)
}
