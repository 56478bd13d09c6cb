//! Programs whose activities are peeled. None of these functions does anything: the contract is the law.

ghost use Rattle.bl_ctree_laws_peeled.specs.Bodies.{PeeledIsNeverStuck, PeeledIsSameProgram, PeeledMeans, PeeledRuns, PeeledUnrolls};

use crate::runs::unrolled_programs_run_alike;

/// A peeled body is the body with first turns of loops unrolled, and has its `run`s, one for each place.
pub fn peeled_bodies_unroll()
    ensures unrolls { PeeledUnrolls }
    ensures runs { PeeledRuns }
{}

/// A program and the program with activities peeled have one list of instances, and steps have the same effects in both.
pub fn peeled_programs_are_alike()
    ensures { PeeledIsSameProgram }
{}

/// What a program may show over rows of inputs it may show with activities peeled. Where that is never stuck, it is never stuck itself.
pub fn peeled_programs_run_alike()
    ensures means { PeeledMeans }
    ensures stuck { PeeledIsNeverStuck }
{
    unrolled_programs_run_alike();
}
