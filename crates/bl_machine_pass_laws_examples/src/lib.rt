//! Worked programs, tick by tick. Lemmas only. Each program is given by its body as plain statements, the numbers of
//! its resting places, the trees between its ticks, and the deeds of each tick (`specs/Worked.antt`, and a file for
//! each program). The lemmas (`specs/Laws.antt`) say that the counters have these numbers in these trees
//! (`NumbersOfRows`). One pass a tick leads from each tree to the next, with these deeds and answers (`PassesOfRows`).
//! The nodes of each body stand in the listed order (`NodesOfRows`). The answers of conditions are listed too, so no
//! store is needed.
#![tactic(auto)]

ghost use Rattle.bl_machine_pass_laws_examples.specs.Laws.{NodesOfRows, NumbersOfRows, PassesOfRows};

/// What the counters hold after each tick, by computation.
pub fn numbers_of_rows()
    ensures { NumbersOfRows }
{}

/// What is done in each tick, turn by turn.
pub fn passes_of_rows()
    ensures { PassesOfRows }
{}

/// The nodes of each body, by computation.
pub fn nodes_of_rows()
    ensures { NodesOfRows }
{}
