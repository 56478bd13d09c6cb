//! One pass over an instance, on control trees alone. Definitions: the numbers of a tree (`specs/Numbers/Numbers.antt`,
//! `numbers_of`), and what waits in it, or has rested, for its node (`specs/Numbers/Waiting.antt`, `Waits`, `Sleeps`).
//! A pass consists of turns of nodes (`specs/Numbers/Turns.antt`, `Turns`, `Passes`). Lemmas only.
//!
//! An activity takes its width of counters (`specs/Numbers/Width.antt`). Turns and passes consist of steps that could
//! be taken one after another, and what has a turn waits for it (`specs/Numbers/Steps.antt`). What rested when the tick
//! began waits, and no turn makes more of it (`specs/Numbers/Sleeping.antt`).

ghost use Rattle.std.specs.Prelude.{List as Elements};
ghost use Rattle.bl_tree.specs.declared.tree.Stmt.{Stmt as AStmt};
ghost use Rattle.bl_machine_laws.specs.Numbers.Sleeping.{SleepersWait, TurnsOnlyWake};
ghost use Rattle.bl_machine_laws.specs.Numbers.Steps.{TurnsAreWalks, TurnsWait};
ghost use Rattle.bl_machine_laws.specs.Numbers.Width.{TakesItsWidth};

use bl_graph_nodes::plain_statements;

/// An activity takes as many counters as its width, and uses each of them.
pub fn activities_take_their_width()
    ensures { (body : Elements AStmt) → TakesItsWidth body }
{
    plain_statements();
}

/// Turns and passes are steps of the tree, with their deeds and answers in order.
pub fn turns_are_walks()
    ensures { TurnsAreWalks }
{}

/// A node has a turn only where something waits for it.
pub fn turns_wait()
    ensures { TurnsWait }
{}

/// What rested when the tick began, and has not gone on, waits.
pub fn sleepers_wait()
    ensures { SleepersWait }
{}

/// After a turn nothing sleeps that did not before it.
pub fn turns_only_wake()
    ensures { TurnsOnlyWake }
{}
