//! The C functions of all units of a program, in order. `activities_of` (`specs/Tables/Tables.antt`) gives each
//! activity as its C is made, from the machine (`ActivitiesBuilt`). The table of the C functions of all units knows
//! them all, each over those before it (`TablesKnowAll`). The file has those functions of the needed units, in the same
//! order, and then those of its interface (`WrittenIsKept`).

ghost use Rattle.bl_emit_spec_laws.specs.Tables.Laws.{ActivitiesBuilt, TablesKnowAll, WrittenIsKept};

/// What the C of the activities of a machine is made of.
pub fn activities_built()
    ensures { ActivitiesBuilt }
{}

/// The table of the C functions of all units knows all of them.
pub fn tables_know_all()
    ensures { TablesKnowAll }
{}

/// The functions of the written file are those of the units that are needed.
pub fn written_is_kept()
    ensures { WrittenIsKept }
{}
