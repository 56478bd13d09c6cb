//! Laws of named trees, each the contract of a function that does nothing.

ghost use Rattle.std.specs.Prelude.{◌≡◌, ℕ, List, IsTrue};
ghost use Rattle.std.specs.List.{list_all};
ghost use Rattle.bl_tree.specs.Words.{are_distinct, is_name};
ghost use Rattle.bl_parse_tree.specs.declared.item.RawItem.{RawItem};
ghost use Rattle.bl_parse_tree.specs.WellFormed.{RawIsWellFormed};
ghost use Rattle.bl_parse_tree.specs.Starts.{all_starts as raw_starts};
ghost use Rattle.bl_names_scopes.specs.Rules.{Passes};
ghost use Rattle.bl_names_tree.specs.Starts.{all_starts};
ghost use Rattle.bl_names.specs.Named.{named_program};
ghost use Rattle.bl_names_laws.specs.WellFormed.{NamedIsWellFormed, all_names, body_apart, body_filled, body_shallow, fields_differ, fields_named, parameters_differ};
ghost use Rattle.bl_names_laws.specs.WellFormed.{variables_named};

/// What a named tree keeps: names, filled lists, depth and the order of places follow from what its raw tree keeps, the rest from the
/// rules on names.
pub fn what_is_named_keeps()
    ensures names { (items : List RawItem) (bytes : ℕ) → RawIsWellFormed items → IsTrue (list_all is_name (all_names (named_program items bytes))) }
    ensures fields { (items : List RawItem) (bytes : ℕ) → RawIsWellFormed items → IsTrue (list_all fields_named (named_program items bytes).structs) }
    ensures variables { (items : List RawItem) (bytes : ℕ) → RawIsWellFormed items → IsTrue (list_all variables_named (named_program items bytes).units) }
    ensures filled { (items : List RawItem) (bytes : ℕ) → RawIsWellFormed items → IsTrue (list_all body_filled (named_program items bytes).units) }
    ensures shallow { (items : List RawItem) (bytes : ℕ) → RawIsWellFormed items → IsTrue (list_all body_shallow (named_program items bytes).units) }
    ensures distinct { (items : List RawItem) (bytes : ℕ) → Passes items → IsTrue (are_distinct (all_names (named_program items bytes))) }
    ensures distinct_fields { (items : List RawItem) (bytes : ℕ) → Passes items → IsTrue (list_all fields_differ (named_program items bytes).structs) }
    ensures distinct_parameters { (items : List RawItem) (bytes : ℕ) → Passes items →
        IsTrue (list_all parameters_differ (named_program items bytes).units) }
    ensures apart { (items : List RawItem) (bytes : ℕ) → Passes items → IsTrue (list_all body_apart (named_program items bytes).units) }
    ensures starts { (items : List RawItem) (bytes : ℕ) → all_starts (named_program items bytes) ≡ raw_starts items }
    ensures keeps { (items : List RawItem) (bytes : ℕ) → RawIsWellFormed items → Passes items → NamedIsWellFormed (named_program items bytes) }
{}
