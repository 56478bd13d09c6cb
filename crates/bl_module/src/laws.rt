//! Laws of texts behind a start, each the contract of a function that does nothing.

ghost use Rattle.std.specs.Prelude.{◌≡◌, false, ℕ, List};
ghost use Rattle.bl_face.specs.declared.face.Face.{Face};
ghost use Rattle.bl_module.specs.declared.behind.Behind.{Behind};
ghost use Rattle.bl_module.specs.declared.taken.Taken.{Taken};
ghost use Rattle.bl_module.specs.Own.{IsFaceOf};
ghost use Rattle.bl_module.specs.Rules.{FirstFailingIn, PassesIn};
ghost use Rattle.bl_tree.specs.declared.place.Place.{Place};
ghost use Rattle.bl_tree.specs.declared.rule.Rule.{Rule};
ghost use Rattle.bl_tree.specs.Rules.{tells_walk};

use bl_lex::laws::tokens_are_one;
use bl_parse_laws::spelled::a_text_has_one_tree;

/// Behind a start a text has at most one first failing rule, with one place; its further places are determined too, unless they are a
/// walk. A text that passes has none.
pub fn first_failing_is_one()
    ensures one { (behind : Behind) (taken : Taken) (text : List ℕ) (rule other : Rule) (place elsewhere : Place) (also further : List Place)
        → FirstFailingIn behind taken text rule place also → FirstFailingIn behind taken text other elsewhere further
        → (rule ≡ other) × (place ≡ elsewhere) }
    ensures further { (behind : Behind) (taken : Taken) (text : List ℕ) (rule other : Rule) (place elsewhere : Place) (also further : List Place)
        → FirstFailingIn behind taken text rule place also → FirstFailingIn behind taken text other elsewhere further
        → tells_walk rule ≡ false → also ≡ further }
    ensures none { (behind : Behind) (taken : Taken) (text : List ℕ) (rule : Rule) (place : Place) (also : List Place)
        → PassesIn behind taken text → ¬ FirstFailingIn behind taken text rule place also }
{}

/// Behind a start a text has at most one face.
pub fn a_text_has_one_face()
    ensures { (behind : Behind) (text : List ℕ) (face other : Face) → IsFaceOf behind text face → IsFaceOf behind text other
        → face.items ≡ other.items }
{
    tokens_are_one();
    a_text_has_one_tree();
}
