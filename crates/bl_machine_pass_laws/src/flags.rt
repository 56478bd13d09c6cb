//! Which rules of a pass set the flag of a node. Lemmas only (`specs/Flags.antt`). Where a node could stand in one
//! block with the node before it, only that node's rule sets its flag (`FlagsComeFromBefore`), and its own rule asks
//! for the flag (`FlagsAreAsked`). A control edge leads wherever a rule may set a flag (`FlagsAreReached`).

ghost use Rattle.bl_machine_pass_laws.specs.Flags.{FlagsAreAsked, FlagsAreReached, FlagsComeFromBefore};

/// The flag of a node that could follow another one in its block is set by the rule of that one alone.
pub fn flags_come_from_before()
    ensures { FlagsComeFromBefore }
{}

/// Its rule asks for that flag.
pub fn flags_are_asked()
    ensures { FlagsAreAsked }
{}

/// Control edges lead to all nodes whose flags rules may set.
pub fn flags_are_reached()
    ensures { FlagsAreReached }
{}
