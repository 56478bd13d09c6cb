//! What the statements of peeled units do by their places.

ghost use Rattle.bl_peel_laws.specs.Places.{PeeledPlacesDecide, PeeledRunsDecide};

/// Where the statements of units and the conditions of their loops begin one after another, places decide in peeled units: on effects,
/// and on which `run` is which.
pub fn places_of_peeled_units_decide()
    ensures effects { PeeledPlacesDecide }
    ensures runs { PeeledRunsDecide }
{}
