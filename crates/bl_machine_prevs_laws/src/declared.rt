//! The law of `prev` behind declarations (`FromText` of `bl_machine_prevs`), as the contract of a function that does nothing: where none of
//! the rules 6 to 17 fails, a body asks what a variable was only behind its declaration.

ghost use Rattle.std.specs.Prelude.{ℕ, List};
ghost use Rattle.bl_parse_tree.specs.declared.item.RawItem.{RawItem};
ghost use Rattle.bl_parse_tree.specs.WellFormed.{RawIsWellFormed};
ghost use Rattle.bl_names_scopes.specs.Rules.{Passes as NamesPass};
ghost use Rattle.bl_names.specs.Named.{named_program};
ghost use Rattle.bl_types.specs.Programs.{typed_program};
ghost use Rattle.bl_types.specs.Rules.{Passes as TypesPass};
ghost use Rattle.bl_machine_prevs.specs.Declared.{FromText};

use crate::types::what_is_typed_is_declared;
use bl_graph_nodes::plain_statements;
use bl_types_laws::kept::what_is_typed_keeps;

/// Where no rule on names or types fails, the units with their types keep what programs of texts keep.
pub fn typed_texts_declare()
    ensures { (items : List RawItem) (bytes : ℕ) → RawIsWellFormed items → NamesPass items → TypesPass (named_program items bytes) →
        FromText (typed_program (named_program items bytes)).units }
{
    plain_statements();
    what_is_typed_keeps();
    what_is_typed_is_declared();
}
