//! The law that the statements of a typed program and the conditions of its loops begin one after another, as the contract of a
//! function that does nothing.

ghost use Rattle.std.specs.Prelude.{ℕ, List, IsTrue};
ghost use Rattle.bl_parse_tree.specs.declared.item.RawItem.{RawItem};
ghost use Rattle.bl_parse_tree.specs.WellFormed.{RawIsWellFormed};
ghost use Rattle.bl_parse_tree.specs.Starts.{ascends};
ghost use Rattle.bl_names_scopes.specs.Rules.{Passes as NamesPass};
ghost use Rattle.bl_names.specs.Named.{named_program};
ghost use Rattle.bl_types.specs.Programs.{typed_program};
ghost use Rattle.bl_types.specs.Rules.{Passes as TypesPass};
ghost use Rattle.bl_types_laws.specs.Starts.{all_starts};

use crate::named::what_is_named_suits;
use crate::shapes::what_is_made_keeps_shape;
use bl_names_laws::kept::what_is_named_keeps;

/// The statements of a program in which no rule fails, and the conditions of its loops, begin one after another: no two of them have
/// one place.
pub fn statements_begin_in_order()
    ensures { (items : List RawItem) (bytes : ℕ) → RawIsWellFormed items → NamesPass items → TypesPass (named_program items bytes) →
        IsTrue (ascends (all_starts (typed_program (named_program items bytes)).units)) }
{
    what_is_named_keeps();
    what_is_named_suits();
    what_is_made_keeps_shape();
}
