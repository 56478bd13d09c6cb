//! Marks and joins of a pass by registers. Lemmas only (`specs/Joins/Laws.antt`). A tree is the residual of the
//! statements of its body, no two of which have a node in common, and stays so (`specs/Joins/Stems.antt`, `Stemmed`).
//! Marks tell which `cobegin` and `when` of the tree have begun in this tick, as a pass begins and after each turn. A
//! rule that asks for the ends of branches is due iff something waits at its node: what an `await` or a `run` left in a
//! counter is the number of no end. Where the invariant holds, the same
//! is true of each rule that has not been passed.

ghost use Rattle.bl_machine_pass_laws_turns.specs.Joins.Laws.{JoinsWait, MarksBegin, RulesWait, StaysStemmed, TurnsKeepMarks};

use bl_machine_pass_laws::numbers::counters_linger;

/// A tree is left of its body, and stays so.
pub fn stays_stemmed()
    ensures { StaysStemmed }
{}

/// Nothing is marked as a pass begins, and all that stands in the tree stood when the tick began.
pub fn marks_begin()
    ensures { MarksBegin }
{}

/// Where a construct begins it is marked, and no other has its mark.
pub fn turns_keep_marks()
    ensures { TurnsKeepMarks }
{}

/// A join is due exactly where its `cobegin` stands in the tree, is as old as the join asks, and has as many ended branches as
/// are needed.
pub fn joins_wait()
    ensures { JoinsWait }
{
    counters_linger();
}

/// What is due is what waits, whatever its rule asks.
pub fn rules_wait()
    ensures { RulesWait }
{
    counters_linger();
}
