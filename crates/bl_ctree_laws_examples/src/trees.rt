//! Definitions and laws of steps at three small programs. There is no code here: each contract is an example. Two branches that
//! need each other in one tick (`specs/Trees/TwoWay.antt`, `TwoWayTrees.antt`): a read waits for what may still be written, and of
//! the steps that could be taken one may, and no other. A reset beside a loop (`specs/Trees/Reset.antt`): two steps of different
//! branches lead to one tree in either order. An activity that runs two others (`specs/Trees/Calls.antt`): its instances, and how
//! many steps a tick can have.

ghost use Rattle.std.specs.Prelude.{◌≡◌, ◌⊎◌, ◌∷◌, Bool, [], false, true};
ghost use Rattle.bl_tree.specs.Effects.{reads, writes};
ghost use Rattle.bl_tree.specs.Static.{mentions, whole};
ghost use Rattle.bl_graph_nodes.specs.Plain.{plain_body};
ghost use Rattle.bl_graph_nodes.specs.Steps.{StepLabel};
ghost use Rattle.bl_ctree.specs.Instances.{instances_of};
ghost use Rattle.bl_ctree.specs.Measure.{steps};
ghost use Rattle.bl_ctree.specs.Store.{whole_of};
ghost use Rattle.bl_ctree_laws.specs.Commutes.{OneStep, Swapped};
ghost use Rattle.bl_ctree_laws.specs.Pending.{Deed, may_write, meets};
ghost use Rattle.bl_ctree_laws.specs.Steps.{Moves, Unmet};
ghost use Rattle.bl_ctree_laws.specs.Trees.{Tree, is_settled};
ghost use Rattle.bl_ctree_laws_examples.specs.Trees.Calls.{instances, units};
ghost use Rattle.bl_ctree_laws_examples.specs.Trees.Reset as reset;
ghost use Rattle.bl_ctree_laws_examples.specs.Trees.Made.{always};
ghost use Rattle.bl_ctree_laws_examples.specs.Trees.TwoWay.{body, i, label_inside, left_position, o, plain_statements, right_position, sets_o, sets_x, sets_y};
ghost use Rattle.bl_ctree_laws_examples.specs.Trees.TwoWay.{x, y};
ghost use Rattle.bl_ctree_laws_examples.specs.Trees.TwoWayTrees.{acting, before_o, before_x, before_y, both, left_done, program, right_done};
ghost use Rattle.bl_ctree_laws_examples.specs.Trees.TwoWayTrees.{left_paused, o_is_set, pausing, reaches_pause, right_paused, x_is_set, y_is_set};

use bl_ctree_laws::commuting::steps_commute;

/// The statements that the examples of two branches speak of are those of the activity.
pub fn two_branches_are_plain()
    ensures { plain_body body ≡ plain_statements }
{}

/// What the acts and conditions of the two branches read and write.
pub fn acts_read_and_write()
    ensures x_reads { reads sets_x ≡ whole i ∷ [] }
    ensures x_writes { writes sets_x ≡ whole x ∷ [] }
    ensures o_reads { reads sets_o ≡ whole y ∷ [] }
    ensures o_writes { writes sets_o ≡ whole o ∷ [] }
    ensures y_reads { reads sets_y ≡ whole x ∷ [] }
    ensures y_writes { writes sets_y ≡ whole y ∷ [] }
    ensures pauses { mentions always ≡ [] }
{}

/// `y = x * 2` waits as long as the other branch may still write x, and `o = y` as long as the other may still write y.
pub fn reads_wait_for_writers()
    ensures y_waits { meets program 0 before_x y_is_set ≡ true }
    ensures y_goes_on { meets program 0 before_o y_is_set ≡ false }
    ensures o_waits { meets program 0 before_y o_is_set ≡ true }
{}

/// So the tick takes `x = i + 1`, `y = x * 2` and `o = y` in this order. Where it begins no other step may be taken, and it
/// isn't stuck, though one of the two branches waits. The pauses may come in either order; then nothing is left to do.
pub fn branches_take_turns()
    ensures first { Moves Unmet program 0 (both before_x before_y) true x_is_set (acting (label_inside left_position 0) sets_x) (both before_o before_y) }
    ensures second { Moves Unmet program 0 (both before_o before_y) true y_is_set (acting (label_inside right_position 0) sets_y) (both before_o right_done) }
    ensures third { Moves Unmet program 0 (both before_o right_done) true o_is_set (acting (label_inside left_position 1) sets_o) (both left_done right_done) }
    ensures fourth { Moves Unmet program 0 (both left_done right_done) true (reaches_pause 3) (pausing (label_inside left_position 2) 3)
        (both left_paused right_done) }
    ensures fifth { Moves Unmet program 0 (both left_paused right_done) true (reaches_pause 5) (pausing (label_inside right_position 1) 5)
        (both left_paused right_paused) }
    ensures settled { is_settled (both left_paused right_paused) ≡ true }
    ensures unsettled { is_settled (both before_x before_y) ≡ false }
    ensures alone { (d : Bool) (a : Deed) (n : StepLabel) (c : Tree) → Moves Unmet program 0 (both before_x before_y) d a n c → a ≡ x_is_set }
{}

/// What a branch may still write shrinks with its steps.
pub fn writes_shrink()
    ensures before { may_write program 0 before_x (whole_of 0 x) ≡ true }
    ensures after { may_write program 0 before_o (whole_of 0 x) ≡ false }
{}

/// The test of a guard that begins its body anew, and the `await` of the other branch, lead to one tree in either order.
pub fn a_reset_and_an_await_commute()
    ensures { Swapped reset.program 0 (reset.both reset.to_check reset.to_wake) true true reset.tests_guard reset.wakes reset.at_guard reset.at_await
        (reset.both reset.begun_anew reset.to_wake) (reset.both reset.to_check reset.woken_up) }
{}

/// As all steps do there: two are one, or lead to one tree in either order.
pub fn all_steps_commute_there()
    ensures { (d e : Bool) (a b : Deed) (n m : StepLabel) (after after' : Tree)
        → Moves Unmet reset.program 0 (reset.both reset.to_check reset.to_wake) d a n after
        → Moves Unmet reset.program 0 (reset.both reset.to_check reset.to_wake) e b m after'
        → OneStep Tree d e a b n m after after'
        ⊎ Swapped reset.program 0 (reset.both reset.to_check reset.to_wake) d e a b n m after after' }
{
    steps_commute();
}

/// An activity that runs two others has three instances. With 5, 3 and 3 statements, of which those of the called ones are one
/// deeper, they come to 6 * 5 + 12 * 3 + 12 * 3 steps.
pub fn ticks_have_at_most_so_many_steps()
    ensures instances { instances_of units 2 ≡ instances }
    ensures steps { steps [] units 2 ≡ 102 }
{}
