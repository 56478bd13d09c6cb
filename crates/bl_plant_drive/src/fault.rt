//! Why a drive stops.

use bl_plant::PlantName;
use std::alloc::{AllocError, AllocFailed};

/// Why a drive stops.
#[derive(Clone, Copy, PartialEq, Eq, Debug)]
pub enum DriveFault {
    /// The plant that the name means has failed, and counted it.
    Failed { name: PlantName },
    /// No plant has the name. It is the first such name.
    Absent { name: PlantName },
    /// The name was named before. It is the first such name.
    Twice { name: PlantName },
    /// The plants that are named have so many columns together, at most 2^64 - 1, and so many inputs are wanted.
    Width { given: u64, wanted: u32 },
    /// The number given for this input, counted from 1, isn't in the range of its type.
    Range { column: u32, number: i128 },
    NoMemory,
}

impl From<AllocError> for DriveFault {
    ghost use Rattle.std.specs.Prelude.{◌≡◌};
    ghost use Rattle.bl_plant_drive.specs.declared.fault.DriveFault.TheVariants.{NoMemory};

    ghost from_gives = { λ _ e. e ≡ NoMemory };

    fn from(_e: AllocError) -> DriveFault {
        DriveFault::NoMemory
    }
}

impl<T: Drop> From<AllocFailed<T>> for DriveFault {
    ghost use Rattle.std.specs.Prelude.{◌≡◌};
    ghost use Rattle.bl_plant_drive.specs.declared.fault.DriveFault.TheVariants.{NoMemory};

    ghost from_gives = { λ _ e. e ≡ NoMemory };

    fn from(_e: AllocFailed<T>) -> DriveFault {
        DriveFault::NoMemory
    }
}

impl From<bl_tree::NoMemory> for DriveFault {
    ghost use Rattle.std.specs.Prelude.{◌≡◌};
    ghost use Rattle.bl_plant_drive.specs.declared.fault.DriveFault.TheVariants.{NoMemory};

    ghost from_gives = { λ _ e. e ≡ NoMemory };

    fn from(_e: bl_tree::NoMemory) -> DriveFault {
        DriveFault::NoMemory
    }
}
