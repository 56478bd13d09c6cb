//! Which function of a program's C file stands for an activity, which names its counters, and what its body is. Lemmas
//! only (`specs/Counters/Laws.antt`). In the file of an accepted program (`FilesOwn`), each activity A that has an
//! instance has exactly one function `a_A` and one struct `f_A` (`specs/Counters/Own.antt`,
//! `EachHasOneFunctionAndFrame`). A place that names a counter, a member `c` and digits, is `(*f).cN` in the function
//! `a_A` whose `f` points to `struct f_A` (`CountersAreOwn`). So a counter of `struct f_A` is named in `a_A` alone
//! (`CountersStandInOne`). The body of `a_A` is assignments, and then as many `if`s as the machine has blocks for A
//! (`FilesHaveIfs`; `specs/Counters/Ifs.antt`, `HasIfForEach`). There is one flag for each block whose first node waits
//! by its flag, and the `if` of that block asks for it (`specs/Counters/Flags.antt`, `HasFlagForEach`). The `if` of a
//! block to which the block before leaves the call of a `run` asks first for the flag of that block. Nothing in these
//! `if`s asks for a flag.

ghost use Rattle.bl_tree.specs.declared.program.Program.{Program};
ghost use Rattle.bl_emit_laws.specs.Counters.Laws.{FilesHaveIfs, FilesOwn};

use crate::kept::{files_end, frames_are_declared};
use bl_ctree_laws_confluence::deeds::accepted_programs_are_orderly;
use bl_emit_spec_laws::tables::activities_built;
use bl_emit_spec_laws_wellformed::closed::instances_needed;
use bl_machine_pass_laws::numbers::trees_stay_placed;
use bl_machine_transitions_laws::rules_are_listed;

/// In the file that is written each activity has one function and one struct, and no other function names its counters.
pub fn files_own()
    ensures { (program : Program) → FilesOwn program }
{
    accepted_programs_are_orderly();
    activities_built();
    instances_needed();
    frames_are_declared();
    files_end();
}

/// In the body of the function of each activity stand as many `if`s as the machine has blocks for it, and they ask for
/// its flags.
pub fn files_have_ifs()
    ensures { (program : Program) → FilesHaveIfs program }
{
    accepted_programs_are_orderly();
    activities_built();
    trees_stay_placed();
    rules_are_listed();
    instances_needed();
    files_end();
}
