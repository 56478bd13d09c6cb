//! Rule Cells: types that are nested too deep.

ghost use Rattle.std.specs.Prelude.{◌≡◌, drop};
ghost use Rattle.bl_limits_measures.specs.Tells.{MeasuresTell};
ghost use Rattle.bl_tree.specs.declared.rule.Rule.TheVariants as rule;
ghost use Rattle.bl_tree.specs.Rules.{first_of};
ghost use Rattle.bl_limits.specs.inner.Failures.{nesting_failures, numbered, struct_failures, unit_variable_failures, variable_failures};

use crate::limit::Limit;
use bl_limits_measures::Measures;
use bl_tree::tree::{StructDef, Unit, Var};
use bl_tree::{Failure, Rule};

/// How deep a type may be nested.
const NESTING: Limit = Limit {
    rule: Rule::Cells,
    most: 100,
};

/// The first so far, or that of the structs from the position on and of the units' variables that are nested too deep, each
/// at its name.
pub fn of_parts(
    measures: &Measures,
    structs: &[StructDef],
    from: usize,
    units: &[Unit],
    first: Option<Failure>,
) -> Option<Failure>
    requires tells { MeasuresTell measures.now structs.now units.now }
    ensures { result ≡ first_of first (nesting_failures from structs.now units.now) }
{
    let first = of_structs(measures, structs, from, units, first);
    of_variables(measures, structs, units, first)
}

/// The first so far, or that of the structs from the position on.
fn of_structs(
    measures: &Measures,
    structs: &[StructDef],
    from: usize,
    units: &[Unit],
    first: Option<Failure>,
) -> Option<Failure>
    requires tells { MeasuresTell measures.now structs.now units.now }
    ensures { result ≡ first_of first (struct_failures from structs.now) }
{
    let nestings = behind(&measures.struct_nestings, from);
    of_nestings(behind(structs, from), nestings, first)
}

/// The elements from the position on.
fn behind<T>(items: &[T], from: usize) -> &[T]
    ensures { result.now ≡ drop from items.now }
{
    if from <= items.len() {
        &items[from..]
    } else {
        &[]
    }
}

fn of_nestings(structs: &[StructDef], nestings: &[u64], first: Option<Failure>) -> Option<Failure>
    ensures { result ≡ first_of first (numbered rule.Cells 100 (λ def. def.place) structs.now nestings.now) }
{
    let mut first = first;
    for (def, nesting) in structs.iter().zip(nestings.iter()) {
        first = NESTING.judge(*nesting, def.place, first);
    }
    first
}

/// The first so far, or that of the units' variables.
fn of_variables(
    measures: &Measures,
    structs: &[StructDef],
    units: &[Unit],
    first: Option<Failure>,
) -> Option<Failure>
    requires tells { MeasuresTell measures.now structs.now units.now }
    ensures { result ≡ first_of first (variable_failures structs.now units.now) }
{
    let mut first = first;
    for unit in units {
        first = of_unit(measures, structs, units, &unit.vars, first);
    }
    first
}

fn of_unit(
    measures: &Measures,
    structs: &[StructDef],
    units: &[Unit],
    vars: &[Var],
    first: Option<Failure>,
) -> Option<Failure>
    requires tells { MeasuresTell measures.now structs.now units.now }
    ensures { result ≡ first_of first (unit_variable_failures structs.now vars.now) }
{
    let mut first = first;
    for var in vars {
        let nesting = measures.nesting(&var.ty);
        first = NESTING.judge(nesting, var.place, first);
    }
    first
}
