//! Laws of the code of C texts.

ghost use Rattle.std.specs.Prelude.{List};
ghost use Rattle.bl_tree.specs.declared.c.CFunc.{CFunc};
ghost use Rattle.bl_tree.specs.declared.c.CStruct.{CStruct};
ghost use Rattle.bl_crun_code.specs.Laws.{NamedFunctionsRun};

/// In the code of a file the machine does what each function's routine does, well formed or not. So it ends there, and
/// needs no more temporaries and waiting functions than the code tells.
pub fn functions_run()
    ensures { (structs : List CStruct) (functions : List CFunc) → NamedFunctionsRun structs functions }
{}
