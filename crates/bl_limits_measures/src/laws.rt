//! Laws of measures, each the contract of a function that does nothing.

ghost use Rattle.bl_limits_measures.specs.Laws.{ApartRunsCountEach, CellsAdd, InstancesAdd, LimitsAreTold, MissingIsNothing, NoChainIsLonger, SomeChainIsAsLong};

/// Where a number counts as the greatest that 64 bits hold, every lower limit is told all the same.
pub fn limits_are_told()
    ensures { LimitsAreTold }
{}

/// A unit that isn't there has no instances, no chain and no cells.
pub fn missing_units_count_nothing()
    ensures { MissingIsNothing }
{}

/// Where units call and run earlier ones alone, the number of instances and the cells of a unit go by those of the units that
/// it runs and calls.
pub fn units_add_up()
    ensures instances { InstancesAdd }
    ensures cells { CellsAdd }
{}

/// The number of a unit's chain is the length of the longest one.
pub fn chains_are_longest()
    ensures longer { NoChainIsLonger }
    ensures as_long { SomeChainIsAsLong }
{}

/// Where no two `run` statements of a unit have one place, each of them counts.
pub fn apart_runs_count_each()
    ensures { ApartRunsCountEach }
{}
