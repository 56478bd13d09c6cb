//! The law of nested types.

ghost use Rattle.bl_limits_laws_places.specs.Laws.{NestingMoves, NestingStays};

/// Where places are mapped, structs and variables are nested too deep at the images of the places at which they were.
pub fn nesting_moves()
    ensures failures { NestingMoves }
    ensures passing { NestingStays }
{}
