//! What deeds of branches write apart from each other. Laws, as contracts of functions that do nothing: a deed stays inside the
//! instance of its tree, and what it writes is seen in what its tree may still write, or lies in a call (`specs/Apart/Seen.antt`).
//! A deed of what is left of a body is that of a statement of it, or lies in a call by one of its `run` statements (`specs/Apart/Owned.antt`),
//! and what it names or declares the body does (`specs/Apart/Named.antt`).
//! So no deed of one branch of a `cobegin` names what another branch declares (`specs/Apart/Forks.antt`),
//! and steps that are done in either order are of two branches that keep so apart (`specs/Apart/Parted.antt`).
//! No `return` stands in a branch (`specs/Apart/Returns.antt`), no two branches run at one place (`specs/Apart/Running.antt`),
//! and none writes over what another writes (`specs/Apart/Writing.antt`).
//! Calls in trees that runs reach stand as their `run` statements do (`specs/Apart/Outputs.antt`).
//! The frames that the deeds of a body change as a whole, and the results that they look at, are of what the body calls (`specs/Apart/Frames.antt`).

ghost use Rattle.bl_ctree_laws_confluence.specs.Apart.Forks.{BranchesKeepApart};
ghost use Rattle.bl_ctree_laws_confluence.specs.Apart.Frames.{FramesAreOfCalls, ResultsAreOfCalls};
ghost use Rattle.bl_ctree_laws_confluence.specs.Apart.Named.{BodiesDeclareWhatTheyDo, BodiesNameWhatTheyDo};
ghost use Rattle.bl_ctree_laws_confluence.specs.Apart.Outputs.{ResidualCallsMatch, TypedRunsHaveOutputs};
ghost use Rattle.bl_ctree_laws_confluence.specs.Apart.Owned.{DeedsAreOfBodies};
ghost use Rattle.bl_ctree_laws_confluence.specs.Apart.Parted.{AcceptedKeepsApart, ApartIsTwoBranches};
ghost use Rattle.bl_ctree_laws_confluence.specs.Apart.Returns.{AcceptedReturnsLast, NoBranchReturns};
ghost use Rattle.bl_ctree_laws_confluence.specs.Apart.Running.{AcceptedRunsApart, BranchesRunApart, RunsAreOfStatements};
ghost use Rattle.bl_ctree_laws_confluence.specs.Apart.Seen.{DeedsStayInside, WritesAreSeen};
ghost use Rattle.bl_ctree_laws_confluence.specs.Apart.Writing.{AcceptedWritesApart};

/// Where calls stand the instance of each deed of a tree is the tree's own, or is inside a call of it.
pub fn deeds_stay_inside()
    ensures { DeedsStayInside }
{}

/// There what overlaps a home that a deed writes is what its tree may still write, or the home lies in a call.
pub fn writes_are_seen()
    ensures { WritesAreSeen }
{}

/// A deed of what is left of a body is that of a statement of it, or is done inside a call by one of its `run` statements.
pub fn deeds_are_of_bodies()
    ensures { DeedsAreOfBodies }
{}

/// The variables that an effect of a statement in a body names are among those that the body names.
pub fn bodies_name_what_they_do()
    ensures { BodiesNameWhatTheyDo }
{}

/// And the variables that it declares are among those that the body declares.
pub fn bodies_declare_what_they_do()
    ensures { BodiesDeclareWhatTheyDo }
{}

/// Where statements keep apart no effect in one branch of a `cobegin` names what is declared in another.
pub fn branches_keep_apart()
    ensures { BranchesKeepApart }
{}

/// There steps of different branches are of two branches of one `cobegin`, and neither reads what the other's branch may still write.
pub fn apart_is_two_branches()
    ensures { ApartIsTwoBranches }
{}

/// In an accepted program the branches of each `cobegin` of a unit that has an instance keep apart: none names what another declares,
/// none returns, no two run at one place, and none writes over what another writes.
pub fn accepted_programs_keep_apart()
    ensures { AcceptedKeepsApart }
{}

/// Where only the last statement of a body may be a `return` none stands in a branch of a `cobegin`, at any depth.
pub fn branches_do_not_return()
    ensures { NoBranchReturns }
{}

/// In an accepted program none does in a unit that has an instance.
pub fn accepted_programs_return_last()
    ensures { AcceptedReturnsLast }
{}

/// A `run` at a place in the plain block of a body is that of a `run` statement with this place, at any depth.
pub fn runs_are_of_statements()
    ensures { RunsAreOfStatements }
{}

/// Where no `run` statements of one place stand in two branches of a statement the plain branches don't run at one place either.
pub fn branches_run_apart()
    ensures { BranchesRunApart }
{}

/// In an accepted program this holds of the branches of each `cobegin` of a unit that has an instance.
pub fn accepted_programs_run_apart()
    ensures { AcceptedRunsApart }
{}

/// No path that a branch writes in such a unit, by an act, a declaration or a `run`, overlaps one that another branch of its `cobegin` writes.
pub fn accepted_programs_write_apart()
    ensures { AcceptedWritesApart }
{}

/// A frame that an effect of a body changes as a whole is its own, by a `return`, or that of an instance that a `run` of the body begins.
pub fn frames_are_of_calls()
    ensures { FramesAreOfCalls }
{}

/// A result that an effect of a body looks at is that of an instance that a `run` of the body begins.
pub fn results_are_of_calls()
    ensures { ResultsAreOfCalls }
{}

/// In a typed program each `run` of a unit that has an instance has the outputs that the instance which it begins was begun with.
pub fn typed_runs_have_outputs()
    ensures { TypedRunsHaveOutputs }
{}

/// So the calls in what is left of its body stand as its `run` statements do.
pub fn residual_calls_match()
    ensures { ResidualCallsMatch }
{}
