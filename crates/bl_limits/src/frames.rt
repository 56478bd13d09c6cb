//! Rule Frames: too many activity instances, and too long a chain of units that call or run one another.

ghost use Rattle.std.specs.Prelude.{◌≡◌};
ghost use Rattle.bl_limits_measures.specs.Tells.{MeasuresTell};
ghost use Rattle.bl_tree.specs.Rules.{first_of};
ghost use Rattle.bl_limits.specs.inner.Failures.{chain_failures, many_instances};

use crate::limit::Limit;
use bl_limits_measures::Measures;
use bl_tree::tree::{StructDef, Unit};
use bl_tree::{Failure, Rule};

/// The most activity instances that the entry may expand to.
const INSTANCES: Limit = Limit {
    rule: Rule::Frames,
    most: 4096,
};

/// The most units that a chain may have.
const UNITS: Limit = Limit {
    rule: Rule::Frames,
    most: 100,
};

/// The first so far, or that of the entry's instances, at its name.
pub fn of_entry(
    measures: &Measures,
    structs: &[StructDef],
    units: &[Unit],
    entry: u32,
    first: Option<Failure>,
) -> Option<Failure>
    requires tells { MeasuresTell measures.now structs.now units.now }
    ensures { result ≡ first_of first (many_instances units.now entry) }
{
    INSTANCES.judge_unit(measures.instances(entry), units, entry, first)
}

/// The first so far, or that of the units that head too long a chain, each at its name.
pub fn of_chains(
    measures: &Measures,
    structs: &[StructDef],
    units: &[Unit],
    first: Option<Failure>,
) -> Option<Failure>
    requires tells { MeasuresTell measures.now structs.now units.now }
    ensures { result ≡ first_of first (chain_failures units.now) }
{
    let mut first = first;
    for (unit, chain) in units.iter().zip(measures.chains.iter()) {
        first = UNITS.judge(*chain, unit.place, first);
    }
    first
}
