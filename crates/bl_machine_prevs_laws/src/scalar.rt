//! What stands under a `prev` is a scalar variable. A law, as the contract of a function that does nothing: where a typed program's body asks what a
//! variable of its unit was, the variable is there, and of a scalar type (`specs/Scalar.antt`, `PrevsAreScalar`).

ghost use Rattle.bl_machine_prevs_laws.specs.Scalar.{PrevsAreScalar};

/// A variable of which a body asks what it was is a scalar.
pub fn prevs_are_scalar()
    ensures { PrevsAreScalar }
{}
