//! The law of named trees that variables are declared where they are named, as the contract of a function that does nothing: where no
//! rule on names fails, a body names only parameters, and variables that are declared before in the same block or in one around it
//! (`specs/Names/Declared.antt`, `body_declared`).

ghost use Rattle.std.specs.Prelude.{ℕ, List, IsTrue};
ghost use Rattle.std.specs.List.{list_all};
ghost use Rattle.bl_parse_tree.specs.declared.item.RawItem.{RawItem};
ghost use Rattle.bl_names_scopes.specs.Rules.{Passes};
ghost use Rattle.bl_names.specs.Named.{named_program};
ghost use Rattle.bl_machine_prevs_laws.specs.Names.Declared.{body_declared};

/// Where no rule on names fails, the bodies of all units name what is declared before.
pub fn what_is_named_is_declared()
    ensures { (items : List RawItem) (bytes : ℕ) → Passes items → IsTrue (list_all body_declared (named_program items bytes).units) }
{}
