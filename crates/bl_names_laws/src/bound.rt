//! The law that each position is that of a bound declaration, as the contract of a function that does nothing.

ghost use Rattle.std.specs.Prelude.{ℕ, List};
ghost use Rattle.bl_parse_tree.specs.declared.item.RawItem.{RawItem};
ghost use Rattle.bl_names_scopes.specs.Rules.{Passes};
ghost use Rattle.bl_names.specs.Named.{named_program};
ghost use Rattle.bl_names_laws.specs.Bound.{UsesAreBound};

/// Where no rule on names fails, each use of a raw tree is bound to a declaration, and its position in the named tree leads to what is
/// declared there. The named tree is the one that `resolve` of `bl_names` answers, by its clauses `passes` and `named`.
pub fn positions_are_bound()
    ensures { (items : List RawItem) (bytes : ℕ) → Passes items → UsesAreBound items (named_program items bytes) }
{}
