//! The laws, as the contract of a function that does nothing.

ghost use Rattle.bl_limits_measures_laws_peeled.specs.Laws.{CellsAreOfSource, ChainsAreOfSource, InstancesAreOfSource};

/// What rules Frames and Cells count of peeled units is what the source has, statements aside.
pub fn numbers_are_of_the_source()
    ensures instances { InstancesAreOfSource }
    ensures chains { ChainsAreOfSource }
    ensures cells { CellsAreOfSource }
{}
