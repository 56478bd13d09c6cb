//! Calls of a file's functions from outside.

ghost use Rattle.std.specs.Prelude.{ℕ, ℤ};
ghost use Rattle.bl_ctext_semantics_laws.specs.Flat.{FlatAnswer};
ghost use Rattle.bl_crun.specs.inner.CallsDone.{CallDone, Comes};

use bl_crun_code::instruction::Instruction;
use bl_crun_code_compiler::Entry;
use bl_crun_code_vm::Vm;
use bl_ctext::CFile;

/// What a call comes to.
#[derive(Clone, Copy)]
pub struct Called {
    /// The function's result, 0 where it has none. `None` where it trapped.
    pub answer: Option<i128>,
    /// How many statements were executed, at most 2^128 - 1.
    pub count: u128,
}

/// Calls the function at an entry of a file's code. A function that isn't there traps.
pub fn call(
    _file: &CFile,
    machine: &mut Vm,
    code: &[Instruction],
    entry: Option<Entry>,
    base: u32,
    args: &[i128],
) -> Called
    ghost steps: { ℕ }
    requires { (l : FlatAnswer ℤ) × Comes steps code.now entry base args.now machine.old l }
    ensures { (l : FlatAnswer ℤ) → Comes steps code.now entry base args.now machine.old l → CallDone l machine.old result machine.new }
{
    match entry {
        None => Called {
            answer: None,
            count: 0,
        },
        Some(function) => {
            let answer = machine.run(code, function.entry as usize, function.frame, base, args);
            Called {
                answer,
                count: machine.count(),
            }
        }
    }
}
