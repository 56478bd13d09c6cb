//! Laws of the rules, each the contract of a function that does nothing.

ghost use Rattle.std.specs.Prelude.{◌≡◌, List, ◌∷◌};
ghost use Rattle.bl_names_scopes.specs.Marks.{Marks};
ghost use Rattle.bl_names_scopes.specs.Rules.{FailsFirstBehind, PassesBehind};
ghost use Rattle.bl_names_scopes.specs.Scopes.{Scopes};
ghost use Rattle.bl_tree.specs.declared.place.Place.{Place};
ghost use Rattle.bl_tree.specs.declared.rule.Rule.{Rule};

/// Behind a start, marks fail first by one rule and at one list of places, or by none.
pub fn first_failure_is_one()
    ensures one { (start : Scopes) (marks : Marks) (rule other : Rule) (place elsewhere : Place) (also further : List Place)
        → FailsFirstBehind start marks rule place also → FailsFirstBehind start marks other elsewhere further
        → (rule ≡ other) × ((place ∷ also) ≡ (elsewhere ∷ further)) }
    ensures none { (start : Scopes) (marks : Marks) (rule : Rule) (place : Place) (also : List Place) → PassesBehind start marks
        → ¬ FailsFirstBehind start marks rule place also }
{}
