//! The instances of an accepted program with the numbers of its machine. One lemma (`specs/Machines.antt`). The
//! premises of the laws of a pass hold for each instance of a program that passes the rules (`MachinesGiveContexts`).
//! Resting places have the machine's numbers, and nodes their positions in its blocks.

ghost use Rattle.bl_machine_pass_laws_execution.specs.Machines.{MachinesGiveContexts};

use bl_ctree_laws_confluence::deeds::accepted_programs_are_orderly;
use bl_machine_laws::traces::machines_give_orders;
use bl_machine_pass_laws::slots::{numbers_are_laid, typed_have_branches};

/// What the laws of a pass take as given holds of the instances of each machine.
pub fn machines_give_contexts()
    ensures { MachinesGiveContexts }
{
    accepted_programs_are_orderly();
    machines_give_orders();
    numbers_are_laid();
    typed_have_branches();
}
