//! The numbers in the names of an activity's C. A flag, a mark and a `run` have the number of a node each, so those of
//! a kind differ if the nodes' numbers do (`specs/Numbers.antt`, `NumbersFollow`). The nodes' numbers differ where the
//! order of the blocks has each position of a node once (`NodesNumbered`).

ghost use Rattle.bl_emit_spec_laws_wellformed.specs.Numbers.{NodesNumbered, NumbersFollow};

/// No two flags, marks or `run`s of an activity have one number where no two of its nodes have.
pub fn numbers_follow()
    ensures { NumbersFollow }
{}

/// No two nodes of a body have one number by an order that has each position once.
pub fn nodes_numbered()
    ensures { NodesNumbered }
{}
