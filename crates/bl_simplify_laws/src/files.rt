//! Files of which each function does the same (`specs/Files.antt`). Lemmas only.

ghost use Rattle.bl_simplify_laws.specs.Files.{FunctionsOfFilesAlike, SameFunctionsChain, SameTrace};

/// Functions that do the same form chains.
pub fn same_functions()
    ensures { SameFunctionsChain }
{}

/// Files of which each function does the same have the same trace, where all calls in the first may be made.
pub fn same_trace()
    ensures functions { FunctionsOfFilesAlike }
    ensures trace { SameTrace }
{}
