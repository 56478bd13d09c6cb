//! Rule Cells: too large a state.

ghost use Rattle.std.specs.Prelude.{◌≡◌};
ghost use Rattle.bl_limits_measures.specs.Tells.{MeasuresTell};
ghost use Rattle.bl_tree.specs.Rules.{first_of};
ghost use Rattle.bl_limits.specs.inner.Failures.{large_state};

use crate::limit::Limit;
use bl_limits_measures::Measures;
use bl_tree::tree::{StructDef, Unit};
use bl_tree::{Failure, Rule};

/// The most cells that the entry may have.
const CELLS: Limit = Limit {
    rule: Rule::Cells,
    most: 1_000_000,
};

/// The first so far, or that of the entry's cells, at its name.
pub fn of_entry(
    measures: &Measures,
    structs: &[StructDef],
    units: &[Unit],
    entry: u32,
    first: Option<Failure>,
) -> Option<Failure>
    requires tells { MeasuresTell measures.now structs.now units.now }
    ensures { result ≡ first_of first (large_state structs.now units.now entry) }
{
    CELLS.judge_unit(measures.cells(entry), units, entry, first)
}
