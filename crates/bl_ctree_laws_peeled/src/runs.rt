//! Runs of programs with first turns unrolled. None of these functions does anything: the contract is the law.

ghost use Rattle.bl_ctree_laws_peeled.specs.Runs.{UnrolledIsNeverStuck, UnrolledMeans};

use bl_ctree::laws::{lists_of_steps, trees_stay_left};
use bl_ctree_laws::bridge::{
    answers_are_plain, statements_are_plain, steps_are_plain, waking_is_plain,
};
use bl_ctree_laws::runs::reached_trees_are_armed;

/// What a program may show over rows of inputs it may show with first turns of its loops unrolled. Where that is never stuck, it is never
/// stuck itself.
pub fn unrolled_programs_run_alike()
    ensures means { UnrolledMeans }
    ensures stuck { UnrolledIsNeverStuck }
{
    answers_are_plain();
    lists_of_steps();
    reached_trees_are_armed();
    statements_are_plain();
    steps_are_plain();
    trees_stay_left();
    waking_is_plain();
}
