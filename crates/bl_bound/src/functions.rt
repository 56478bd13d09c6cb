//! The costs of functions, each over those before it.

ghost use Rattle.std.specs.Prelude.{◌≡◌, IfOk};
ghost use Rattle.bl_ctext_semantics.specs.Cost.{cost_of_function};
ghost use Rattle.bl_bound.specs.inner.Capped.{costs_in};
ghost use Rattle.bl_bound.specs.Told.{reported_cost, told_costs};

use crate::calls::Known;
use crate::cost::Cost;
use crate::statements::of_block;
use bl_ctext::CFile;
use bl_ctext_semantics::maps::add;
use bl_tree::c::CFunc;
use bl_tree::{List, NoMemory};
use std::alloc::Global;
use std::collections::HashMap;

/// What each function of a file can execute, in order.
pub fn costs(alloc: Global, file: &CFile) -> Result<List<Cost>, NoMemory>
    ensures { IfOk result (λ costs. costs ≡ told_costs file.now.funcs) }
{
    costs_of(alloc, &file.funcs)
}

/// The cost of a function, over those of the functions that are known. A number lies in the range of its type, which the
/// match shows.
fn of_function(known: &Known<'_>, function: &CFunc) -> Cost
    ensures { result ≡ reported_cost (cost_of_function (costs_in known.now) function.now) }
{
    match of_block(known, &function.body) {
        Cost::Number(number) => Cost::Number(number),
        Cost::Over => Cost::Over,
    }
}

/// The same of a list of functions.
pub fn costs_of(alloc: Global, functions: &[CFunc]) -> Result<List<Cost>, NoMemory>
    ensures { IfOk result (λ costs. costs ≡ told_costs functions.now) }
{
    let mut known: Known<'_> = HashMap::new(alloc);
    let mut costs = List::new(alloc);
    for function in functions {
        let cost = of_function(&known, function);
        add(&mut known, function.name.as_str(), cost)?;
        costs.push(cost)?;
    }
    Ok(costs)
}
