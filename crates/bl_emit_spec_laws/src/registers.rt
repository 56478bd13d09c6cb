//! The registers of a pass in C. In the frame of a call of an activity's C function, memory holds the registers:
//! counters, what they held when the tick began, flags, marks, and, if the body may end, whether it has ended
//! (`specs/Registers/Registers.antt`, `RegistersEncoded`). Their places are apart from one another, from variables and
//! from copies, where the function's pointers are valid (`RegistersKeepApart`). There the C of changes goes on, leaves
//! memory with the changed registers, and keeps all other memory (`specs/Registers/Laws.antt`, `ChangesSimulate`).
//! Where no counter exceeded its greatest value as the tick began, the C of a guard doesn't trap. Its value is 1 iff what
//! it asks holds, or the block before has left its call (`GuardsEvaluate`).

ghost use Rattle.bl_emit_spec_laws.specs.Registers.Laws.{ChangesSimulate, GuardsEvaluate, RegistersKeepApart};

/// The C of changes does to the registers in memory what the changes do to registers.
pub fn changes_simulate()
    ensures { ChangesSimulate }
{}

/// The C of a guard has the value of what it asks of the registers in memory, the flag of the block before included.
pub fn guards_show()
    ensures { GuardsEvaluate }
{}

/// The places of registers keep apart from one another, from variables and from copies.
pub fn registers_apart()
    ensures { RegistersKeepApart }
{}
