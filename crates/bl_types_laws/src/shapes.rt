//! Laws of the shape of what is made of named trees, each the contract of a function that does nothing.

ghost use Rattle.std.specs.Prelude.{◌≡◌, List, true};
ghost use Rattle.std.specs.List.{list_all};
ghost use Rattle.bl_tree.specs.Apart.{is_apart};
ghost use Rattle.bl_tree.specs.Depths.{is_shallow};
ghost use Rattle.bl_names_tree.specs.declared.item.NamedConstant.{NamedConstant};
ghost use Rattle.bl_names_tree.specs.declared.item.NamedVar.{NamedVar};
ghost use Rattle.bl_names_tree.specs.declared.stmt.NamedStmt.{NamedStmt};
ghost use Rattle.bl_names_laws.specs.Apart.{is_apart as names_apart};
ghost use Rattle.bl_names_laws.specs.Depths.{is_shallow as names_shallow};
ghost use Rattle.bl_types.specs.declared.environment.Environment.{Environment};
ghost use Rattle.bl_types.specs.Statements.{walked_block};

/// What is made of the statements of a unit is nested at most as deep as they may be where they are, and its branches keep apart where
/// theirs do, whatever is known and whatever fails: what fails isn't made, a constant that is read becomes a literal, and outputs lead by fields alone.
pub fn what_is_made_keeps_shape()
    ensures shallow { (constants : List NamedConstant) (vars : List NamedVar) (body : List NamedStmt) (env : Environment) → names_shallow body ≡ true →
        is_shallow 100 (walked_block constants vars body env).made ≡ true }
    ensures apart { (constants : List NamedConstant) (vars : List NamedVar) (body : List NamedStmt) (env : Environment) →
        list_all names_apart body ≡ true →
        list_all is_apart (walked_block constants vars body env).made ≡ true }
{}
