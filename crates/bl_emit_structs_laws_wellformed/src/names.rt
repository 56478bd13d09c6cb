//! The names and types in the C structs of a program. No two structs have one name (`specs/Names.antt`, `NamesDiffer`),
//! and no two members of one do (`MembersDiffer`). Each member is of a scalar type or of an earlier struct
//! (`UsesEarlier`). Where the type of a variable is a struct in C, that is among them (`TypesDeclared`). Different
//! types have different names (`TypesApart`).

ghost use Rattle.bl_tree.specs.declared.program.Program.{Program};
ghost use Rattle.bl_emit_structs_laws_wellformed.specs.Names.{MembersDiffer, NamesDiffer, TypesApart, TypesDeclared, UsesEarlier};

/// No two of the C structs of a program have one name.
pub fn names_differ()
    ensures { (program : Program) → NamesDiffer program.structs program.units }
{}

/// No two members of one C struct of a program have one name.
pub fn members_differ()
    ensures { (program : Program) → MembersDiffer program.structs program.units program.entry }
{}

/// A member of a C struct of a program is of a scalar type or of a struct that stands before.
pub fn uses_earlier()
    ensures { (program : Program) → UsesEarlier program.structs program.units program.entry }
{}

/// Where the type of a variable is a struct in C, this is among the structs of the program.
pub fn types_declared()
    ensures { (program : Program) → TypesDeclared program.structs program.units program.entry }
{}

/// Types of a program that differ have different names in C.
pub fn types_apart()
    ensures { (program : Program) → TypesApart program.structs program.units program.entry }
{}
