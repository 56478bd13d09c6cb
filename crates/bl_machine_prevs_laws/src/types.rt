//! The law of typed programs that variables are declared where they are named, as the contract of a function that does nothing: where
//! none of the rules 6 to 17 fails, a body names only parameters, and variables that are declared before in the same block or in one
//! around it (`specs/Types/Declared.antt`, `unit_declared`).

ghost use Rattle.std.specs.Prelude.{ℕ, List, IsTrue};
ghost use Rattle.std.specs.List.{list_all};
ghost use Rattle.bl_parse_tree.specs.declared.item.RawItem.{RawItem};
ghost use Rattle.bl_parse_tree.specs.WellFormed.{RawIsWellFormed};
ghost use Rattle.bl_names_scopes.specs.Rules.{Passes as NamesPass};
ghost use Rattle.bl_names.specs.Named.{named_program};
ghost use Rattle.bl_types.specs.Programs.{typed_program};
ghost use Rattle.bl_types.specs.Rules.{Passes as TypesPass};
ghost use Rattle.bl_machine_prevs_laws.specs.Types.Declared.{unit_declared};

use crate::names::what_is_named_is_declared;
use bl_names_laws::kept::what_is_named_keeps;
use bl_types_laws::named::what_is_named_suits;

/// Where no rule on names or types fails, the bodies of all units with their types name what is declared before.
pub fn what_is_typed_is_declared()
    ensures { (items : List RawItem) (bytes : ℕ) → RawIsWellFormed items → NamesPass items → TypesPass (named_program items bytes) →
        IsTrue (list_all unit_declared (typed_program (named_program items bytes)).units) }
{
    what_is_named_keeps();
    what_is_named_suits();
    what_is_named_is_declared();
}
