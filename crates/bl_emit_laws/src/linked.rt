//! The C functions in the file of a program. The file leaves out functions of units that the entry doesn't need. Those
//! that it has call none of them, so each means what it means among the functions of all units (`specs/Linked.antt`,
//! `NeededAreKnown`). The function of a needed activity simulates passes of its instances (`NeededSimulate`). The two
//! functions of the interface, which are called from outside, stand behind them (`FilesEnter`).

ghost use Rattle.bl_tree.specs.declared.program.Program.{Program};
ghost use Rattle.bl_emit_laws.specs.Linked.{FilesEnter, NeededAreKnown, NeededSimulate};

use bl_ctext_semantics_laws_calls::known::calls_decide;
use bl_emit_spec_laws::tables::{tables_know_all, written_is_kept};
use bl_emit_spec_laws_wellformed::chains::activities_call_few;
use bl_emit_spec_laws_wellformed::closed::needed_closed;

/// The functions of needed units do in the file what they do among those of all units.
pub fn needed_are_known()
    ensures { (program : Program) → NeededAreKnown program.structs program.units program.entry }
{
    calls_decide();
    activities_call_few();
    needed_closed();
}

/// The functions of needed activities do in the file what passes of their instances do.
pub fn needed_simulate()
    ensures { (program : Program) → NeededSimulate program.structs program.units program.entry }
{
    needed_are_known();
    tables_know_all();
}

/// What the functions of the interface do where the file is entered.
pub fn files_enter()
    ensures { FilesEnter }
{
    calls_decide();
    written_is_kept();
}
