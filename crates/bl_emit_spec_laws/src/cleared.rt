//! What the start of a `run` clears. One lemma (`specs/Cleared.antt`): each instance that a `run` began is what its
//! caller finds at the place of the `run`, since no two instances have both one caller and one place. So what is
//! cleared as an instance begins lies inside that instance (`ClearingIsInside`).

ghost use Rattle.bl_emit_spec_laws.specs.Cleared.{ClearingIsInside};

/// What is cleared as an instance begins lies inside it.
pub fn clearing_is_inside()
    ensures { ClearingIsInside }
{}
