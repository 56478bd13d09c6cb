//! Each law is the contract of a function that does nothing.

ghost use Rattle.bl_limits_measures_laws.specs.Laws.{InstancesAreCounted, UnitsUseEarlierOnes};

use bl_limits_measures::laws::{missing_units_count_nothing, units_add_up};

/// The units of a typed program call and run earlier ones alone.
pub fn units_use_earlier_ones()
    ensures { UnitsUseEarlierOnes }
{}

/// The number of instances is how many the list of them has.
pub fn instances_are_counted()
    ensures { InstancesAreCounted }
{
    units_add_up();
    missing_units_count_nothing();
}
