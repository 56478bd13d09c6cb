//! Rows of inputs and outputs in a machine's cells.

ghost use Rattle.std.specs.Prelude.{◌≡◌, ℕ, ◌+◌, ◌≤◌, ◌<◌, drop, length, take};
ghost use Rattle.bl_ctext_semantics_laws.specs.Flat.{with_args};
ghost use Rattle.bl_crun_code_vm.specs.Steps.{with_cells};

use bl_crun_code_vm::Vm;
use bl_tree::Row;

/// Sets the cells from one on to the numbers of a row.
pub fn set_inputs(machine: &mut Vm, at: usize, ins: &Row)
    requires within { (k : ℕ) → k < length ins.now → at + k < length machine.old.cells }
    requires small { at ≤ 4294967296 }
    ensures { machine.new ≡ with_cells machine.old (with_args at ins.now machine.old.cells) }
{
    for k in 0..ins.len() {
        machine.set(at + k as usize, ins.at(k));
    }
}

/// Fills a row with the numbers of the cells from one on.
pub fn read_outputs(machine: &Vm, at: usize, outs: &mut Row)
    requires within { (k : ℕ) → k < length outs.old → at + k < length machine.now.cells }
    requires small { at ≤ 4294967296 }
    ensures { outs.new ≡ take (length outs.old) (drop at machine.now.cells) }
{
    for k in 0..outs.len() {
        outs.set(k, machine.get(at + k as usize));
    }
}
