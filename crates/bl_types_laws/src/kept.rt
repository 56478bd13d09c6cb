//! Laws of typed programs, each the contract of a function that does nothing.

ghost use Rattle.std.specs.Prelude.{◌≡◌, ℕ, List, true};
ghost use Rattle.bl_tree.specs.Program.{IsWellTyped};
ghost use Rattle.bl_parse_tree.specs.declared.item.RawItem.{RawItem};
ghost use Rattle.bl_parse_tree.specs.WellFormed.{RawIsWellFormed};
ghost use Rattle.bl_names_scopes.specs.Rules.{Passes as NamesPass};
ghost use Rattle.bl_names.specs.Named.{named_program};
ghost use Rattle.bl_types.specs.Programs.{typed_program};
ghost use Rattle.bl_types.specs.Rules.{Passes as TypesPass};
ghost use Rattle.bl_types_laws.specs.Standing.{are_shallow};

use crate::named::what_is_named_suits;
use crate::shapes::what_is_made_keeps_shape;
use bl_names_laws::kept::what_is_named_keeps;

/// What the structs and units with their types keep of a program in which no rule fails, and its entry. Its blocks nest no deeper than
/// those of a source.
pub fn what_is_typed_keeps()
    ensures keeps { (items : List RawItem) (bytes : ℕ) →
        RawIsWellFormed items → NamesPass items → TypesPass (named_program items bytes) →
        IsWellTyped (typed_program (named_program items bytes)).structs (typed_program (named_program items bytes)).units
        (typed_program (named_program items bytes)).entry }
    ensures shallow { (items : List RawItem) (bytes : ℕ) →
        RawIsWellFormed items → NamesPass items → TypesPass (named_program items bytes) →
        are_shallow (typed_program (named_program items bytes)).units ≡ true }
{
    what_is_named_keeps();
    what_is_named_suits();
    what_is_made_keeps_shape();
}
