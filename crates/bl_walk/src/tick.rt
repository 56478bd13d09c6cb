//! Ticks of a walk, and their steps.

ghost use Rattle.std.specs.Prelude.{◌≡◌, ◌<◌, ℕ, [], length, if◌then◌else◌, IfOk, OnOk};
ghost use Rattle.bl_ctree.specs.Control.{is_nil};
ghost use Rattle.bl_ctree.specs.Points.{points};
ghost use Rattle.bl_ctree.specs.Store.{outputs_row};
ghost use Rattle.bl_ctree_run.specs.Outputs.{count_of_outputs};
ghost use Rattle.bl_ctree_run.specs.Running.{setting, state};
ghost use Rattle.bl_walk.specs.Choices.{word_moved};
ghost use Rattle.bl_walk.specs.inner.Ticks.{Begun, Reacted, Steady, Ticked, Took, WalkBetweenTicks};

use crate::choice::Choice;
use crate::laws::picked_lists_are_steps;
use bl_ctree::laws::{points_are_steps, settled_trees_are_still};
use bl_ctree_run::Tree;
use bl_eval::Did;
use bl_tree::{Last, List, NoMemory, Place, Row};
use std::alloc::Global;

/// Does a tick over the row. Appends its outputs, of which there are as many as `width` says, unless it traps, and the places
/// of its steps.
pub fn tick(
    alloc: Global,
    tree: &mut Tree,
    choice: &mut Choice,
    width: u32,
    row: &Row,
    outs: &mut List<Row>,
    steps: &mut List<List<Place>>,
) -> Result<Last, NoMemory>
    ghost most: { ℕ }
    requires steady { Steady most (setting tree.old) }
    requires between { WalkBetweenTicks (setting tree.old) (state tree.old) }
    requires width { width ≡ count_of_outputs (setting tree.old) }
    ensures setting { setting tree.new ≡ setting tree.old }
    ensures ticked { IfOk result (Ticked (setting tree.old) choice.old row.now (state tree.old) choice.new (state tree.new)
        outs.old outs.new steps.old steps.new) }
{
    points_are_steps();
    settled_trees_are_still();
    picked_lists_are_steps();
    let mut places = List::new(alloc);
    tree.wake(row)?;
    let did = react(tree, choice, &mut places)?;
    steps.push(places)?;
    match did {
        Did::Trap => Ok(Last::Trap),
        Did::Done => {
            outs.push(outputs(alloc, tree, width)?)?;
            Ok(stand(tree))
        }
    }
}

// Does steps until none may be done, or one traps. Then nothing is left to do, since no tick is stuck.
fn react(tree: &mut Tree, choice: &mut Choice, places: &mut List<Place>) -> Result<Did, NoMemory>
    ghost most: { ℕ }
    requires steady { Steady most (setting tree.old) }
    requires begun { Begun (setting tree.old) (state tree.old) }
    requires none { places.old ≡ [] }
    ensures setting { setting tree.new ≡ setting tree.old }
    ensures reacted { IfOk result (Reacted (setting tree.old) choice.old (state tree.old) choice.new (state tree.new) places.new) }
{
    points_are_steps();
    picked_lists_are_steps();
    let mut left = tree.count()?;
    'steps: while left > 0 {
        let did = step(tree, choice, left, places)?;
        match did {
            Did::Trap => return Ok(did),
            Did::Done => {}
        }
        left = tree.count()?;
    }
    Ok(Did::Done)
}

// Does the step that is picked of so many.
fn step(
    tree: &mut Tree,
    choice: &mut Choice,
    count: usize,
    places: &mut List<Place>,
) -> Result<Did, NoMemory>
    requires some { 0 < count }
    requires count { count ≡ length (points (setting tree.old) 0 (state tree.old).control) }
    ensures setting { setting tree.new ≡ setting tree.old }
    ensures choice { OnOk result (choice.new ≡ word_moved choice.old) }
    ensures took { IfOk result (Took (setting tree.old) choice.new (state tree.old) (state tree.new) places.old places.new) }
{
    *choice = choice.next();
    let at = choice.index(count);
    let Ok(number) = u32::try_from(at) else {
        return Err(NoMemory);
    };
    let done = tree.step(number)?;
    places.push(done.action.place)?;
    Ok(done.did)
}

// How the run stands after a tick that didn't trap.
fn stand(tree: &Tree) -> Last
    ensures { result ≡ (if is_nil (state tree.now).control then Last.Ended else Last.Open) }
{
    if tree.ended() {
        Last::Ended
    } else {
        Last::Open
    }
}

fn outputs(alloc: Global, tree: &Tree, width: u32) -> Result<Row, NoMemory>
    requires { width ≡ count_of_outputs (setting tree.now) }
    ensures { IfOk result (λ row. row ≡ outputs_row (setting tree.now) (state tree.now).store) }
{
    let mut row = Row::new(alloc, width)?;
    tree.outs(&mut row);
    Ok(row)
}
