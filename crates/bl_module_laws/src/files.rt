//! The laws of good files.

ghost use Rattle.bl_module_laws.specs.Laws.{GoodFilesPass, PassingFilesAreGood};

use bl_cause_trees::laws::units_are_peeled_in_one_way;
use bl_cause_trees_laws_places::rules as graph_rules;
use bl_effects_laws_places::rules as unit_rules;
use bl_joined_laws::items::{joined_tokens_pass, joined_tokens_spell_joined_items};
use bl_joined_laws::tokens::joined_texts_have_joined_tokens;
use bl_lex::laws::tokens_are_one;
use bl_limits_laws_places::rules::nesting_moves;
use bl_module_laws_faces::faces::{faces_declare, trees_have_faces};
use bl_names_laws_files::constants::globals_in_turn;
use bl_names_laws_files::files::file_named;
use bl_names_laws_files::headings::{headings_open, items_are_placed};
use bl_names_laws_files::items::items_in_turn;
use bl_names_laws_files::marks::marks_in_turn;
use bl_names_scopes_laws_places::marks::marks_move;
use bl_names_scopes_laws_places::scopes::scopes_agree;
use bl_parse_laws::kept::what_is_spelled_keeps;
use bl_parse_laws::spelled::a_text_has_one_tree;
use bl_parse_syntax::laws::first_failure_is_one;
use bl_types_laws_places_units::items::{items_agree, items_are_known, items_follow};

/// Files that are good one behind another pass together, Frames and Cells aside. Files that can be read, with marks in the last alone, are good one
/// behind another if they pass together.
pub fn files_are_the_whole()
    ensures good { GoodFilesPass }
    ensures whole { PassingFilesAreGood }
{
    tokens_are_one();
    a_text_has_one_tree();
    first_failure_is_one();
    what_is_spelled_keeps();
    joined_texts_have_joined_tokens();
    joined_tokens_pass();
    joined_tokens_spell_joined_items();
    marks_move();
    scopes_agree();
    marks_in_turn();
    items_in_turn();
    headings_open();
    items_are_placed();
    file_named();
    globals_in_turn();
    items_follow();
    items_are_known();
    items_agree();
    unit_rules::failures_move();
    graph_rules::failures_move();
    nesting_moves();
    units_are_peeled_in_one_way();
    faces_declare();
    trees_have_faces();
}
