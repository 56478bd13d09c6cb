//! Typed stores. A law, as the contract of a function that does nothing: where all values of a store are of their variables'
//! types, so are those that the statements of an instance see, outputs' at their homes among them (`specs/Views.antt`).

ghost use Rattle.bl_ctree_laws_typing.specs.Views.{ViewsAreTyped};

use bl_ctree_laws_confluence::deeds::instances_have_callers;

/// What is seen in a typed store is typed.
pub fn views_are_typed()
    ensures { ViewsAreTyped }
{
    instances_have_callers();
}
