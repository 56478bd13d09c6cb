//! The C of expressions, paths and acts simulates them. Lemmas only. The premise is that each variable of a unit has
//! its value at its place in C's memory (`specs/Encodes.antt`, `VariablesEncoded`). The C of an expression gives the
//! expression's value, or traps iff the expression does. The C place of a path is that of the part to which the path
//! leads (`specs/Simulation.antt`, `ExpressionSimulates` and `PlaceSimulates`). A write to that place has the effect of
//! the source assignment (`specs/Laws.antt`, `WritesEncode`).
//!
//! Where no output of a call overlaps another or an aggregate input, the C of an act traps iff the act traps. Otherwise
//! memory has the values after the act, and is unchanged outside of variables that may be written and their copies
//! (`specs/Acts.antt`, `Simulates` and `RepresentsAfter`; `specs/Laws.antt`, `ActsSimulate`). The arguments of a call
//! pass its inputs' values and the places to which its outputs' paths lead, which don't overlap
//! (`specs/Arguments.antt`, `ArgumentsPass`). The C that sets copies at the start of a tick gives each copy its
//! variable's value (`CopiesBegin`).
//!
//! The lemmas require that earlier functions agree in C and in the program (`FunctionsAgree`, `ProceduresAgree`). They
//! also require that what may be written doesn't overlap other variables and copies (`VariablesApart`, `CopiesApart`),
//! which holds where the unit's pointers are valid (`specs/Frames.antt`, `PointersAreValid`; `FramesApart`).
#![tactic(auto)]

ghost use Rattle.bl_tree.specs.declared.program.Program.{Program};
ghost use Rattle.bl_emit_acts_laws_simulation.specs.Arguments.{ArgumentsPass};
ghost use Rattle.bl_emit_acts_laws_simulation.specs.Laws.{ActsSimulate, CopiesBegin, ExpressionsSimulate, FramesApart, PlacesSimulate, WritesEncode};

/// What is made of an expression of a typed program does in C what the expression means.
pub fn expressions_simulate()
    ensures { (program : Program) → ExpressionsSimulate program.structs program.units program.entry }
{}

/// The place that is made of a path of a typed program leads in C to the part of its variable to which the path leads.
pub fn places_simulate()
    ensures { (program : Program) → PlacesSimulate program.structs program.units program.entry }
{}

/// Once a part of a variable is set in C's memory to what holds a value, each variable holds what the program's put leaves.
pub fn writes_encode()
    ensures { (program : Program) → WritesEncode program.structs program.units program.entry }
{}

/// The C of an assignment, a declaration or a call of a typed program does in memory what the act does to the variables.
pub fn acts_simulate()
    ensures { (program : Program) → ActsSimulate program.structs program.units program.entry }
{}

/// The arguments of a call of a typed program trap in C exactly where an input does; else they pass what a function is to be given.
pub fn arguments_pass()
    ensures { (program : Program) → ArgumentsPass program.structs program.units program.entry }
{}

/// The variables of a unit that may be written, and the copies, keep apart where the pointers that it was given lead to what
/// keeps apart.
pub fn frames_apart()
    ensures { FramesApart }
{}

/// Once the C that copies them has run, the copies of variables have what the variables have, as when a tick begins.
pub fn copies_begin()
    ensures { CopiesBegin }
{}
