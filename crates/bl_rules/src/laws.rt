//! Laws of the rules, each the contract of a function that does nothing.

ghost use Rattle.std.specs.Prelude.{◌≡◌, false, ℕ, List};
ghost use Rattle.bl_parse_tree.specs.declared.raw.Raw.{Raw};
ghost use Rattle.bl_rules.specs.Accepted.{HasProgram, HasTree, IsOfTree};
ghost use Rattle.bl_rules.specs.Laws.{PeeledKeepGraphRules, PeeledKeepUnitRules, PeeledStayTyped};
ghost use Rattle.bl_rules.specs.Rules.{FirstFailing, Parses, Passes, TreePasses};
ghost use Rattle.bl_tree.specs.declared.place.Place.{Place};
ghost use Rattle.bl_tree.specs.declared.program.Program.{Program};
ghost use Rattle.bl_tree.specs.declared.rule.Rule.{Rule};
ghost use Rattle.bl_tree.specs.Rules.{tells_walk};
ghost use Rattle.bl_types_program.specs.Programs.{IsProgramOf};

use bl_cause_trees::laws::{peeled_units_are_judged, units_are_peeled};
use bl_lex::laws::tokens_are_one;
use bl_parse_laws::kept::what_is_spelled_keeps;
use bl_parse_laws::spelled::a_text_has_one_tree;
use bl_peel_laws::places::places_of_peeled_units_decide;
use bl_peel_laws::rules::peeled_units_keep_the_rules;
use bl_peel_laws_typing::programs::peeled_programs_keep_typing;

/// A text has at most one first failing rule, with one place; its further places are determined too, unless they are a
/// walk, of which there are many. A text that passes has none.
pub fn first_failing_is_one()
    ensures one { (text : List ℕ) (rule other : Rule) (place elsewhere : Place) (also further : List Place)
        → FirstFailing text rule place also → FirstFailing text other elsewhere further → (rule ≡ other) × (place ≡ elsewhere) }
    ensures further { (text : List ℕ) (rule other : Rule) (place elsewhere : Place) (also further : List Place)
        → FirstFailing text rule place also → FirstFailing text other elsewhere further → tells_walk rule ≡ false → also ≡ further }
    ensures none { (text : List ℕ) (rule : Rule) (place : Place) (also : List Place) → Passes text → ¬ FirstFailing text rule place also }
{}

/// A text that is accepted has one tree, which passes.
pub fn an_accepted_text_has_one_tree()
    ensures one { (text : List ℕ) (raw other : Raw) → HasTree text raw → HasTree text other → raw ≡ other }
    ensures passes { (text : List ℕ) (raw : Raw) → HasTree text raw → TreePasses raw }
{
    tokens_are_one();
    a_text_has_one_tree();
}

/// A text of any size whose tokens pass spells a well-formed tree, so that its program is one of a tree. An accepted text
/// is such a text.
pub fn programs_of_texts_are_of_trees()
    ensures spelled { (text : List ℕ) (raw : Raw) (program : Program) → Parses text raw → TreePasses raw → IsProgramOf raw program
        → IsOfTree program }
    ensures accepted { (text : List ℕ) (program : Program) → HasProgram text program → IsOfTree program }
{
    what_is_spelled_keeps();
}

/// The peeled units of a source's program are the units of a typed program.
pub fn peeled_units_stay_typed()
    ensures { PeeledStayTyped }
{
    units_are_peeled();
    places_of_peeled_units_decide();
    peeled_programs_keep_typing();
}

/// The peeled units of units for which no rule on units and none on tick graphs fails pass these rules by themselves.
pub fn peeled_units_pass_the_rules()
    ensures units { PeeledKeepUnitRules }
    ensures graphs { PeeledKeepGraphRules }
{
    units_are_peeled();
    peeled_units_are_judged();
    peeled_units_keep_the_rules();
}
