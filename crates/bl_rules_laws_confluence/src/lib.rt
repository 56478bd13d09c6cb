//! Ticks of accepted programs are confluent. Lemmas only. Two ticks over one row, from a tree and a store that a run of the
//! program reaches, are two interleavings of the branches: both trap, or both leave one tree and one store
//! (`specs/Confluent.antt`, `TicksEndAlike`). This holds of each tree in which no rule fails, and of each source text.
#![tactic(auto)]

ghost use Rattle.bl_rules_laws_confluence.specs.Confluent.{ProgramsAreConfluent, TextsAreConfluent};

use bl_ctree::laws::trees_stay_left;
use bl_ctree_laws::runs::ticks_have_one_end;
use bl_ctree_laws_confluence::deeds::accepted_programs_are_orderly;
use bl_ctree_laws_confluence::independent::accepted_programs_are_independent;
use bl_ctree_laws_plain::plain_trees_tell;
use bl_rules::laws::programs_of_texts_are_of_trees;
use bl_types_laws::kept::what_is_typed_keeps;

/// All interleavings of a tick end alike in the program of a tree, or of a source text, in which no rule fails.
pub fn accepted_programs_are_confluent()
    ensures programs { ProgramsAreConfluent }
    ensures texts { TextsAreConfluent }
{
    trees_stay_left();
    plain_trees_tell();
    what_is_typed_keeps();
    accepted_programs_are_orderly();
    accepted_programs_are_independent();
    ticks_have_one_end();
    programs_of_texts_are_of_trees();
}
