//! The laws of bodies with first turns.

ghost use Rattle.bl_peel_laws_places.specs.Laws.{CountsStay, PeeledBodiesMove};

/// Where places are mapped, a body has the first turns that it had, and as many statements.
pub fn peeled_bodies_move()
    ensures peeled { PeeledBodiesMove }
    ensures counts { CountsStay }
{}
