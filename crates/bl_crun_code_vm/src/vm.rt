//! The machine and its runs.

ghost use Rattle.std.specs.Prelude.{ℕ, ◌≡◌, ◌≤◌, [], pos, length, replicate, slice_set, IfOk};
ghost use Rattle.bl_ctext_semantics_laws.specs.Flat.{cell_at};
ghost use Rattle.bl_crun_code.specs.Laws.{Arrives, entry_state};
ghost use Rattle.bl_crun_code.specs.Vm.{StepResult};

use crate::cells;
use crate::run::run_function;
use crate::waiting::Waiting;
use bl_crun_code::instruction::Instruction;
use bl_tree::NoMemory;
use std::alloc::Global;
use std::marker::Model;

/// A machine that runs code. It takes memory only as it is made.
#[derive(Drop)]
pub struct Vm {
    cells: Vec<i128>,
    temps: Vec<i128>,
    waiting: Waiting,
    /// How many statements have begun in the last run, or the greatest number.
    count: u128,
}

impl Model for Vm {
    ghost use Rattle.std.specs.Prelude.{◌≤◌, length};
    ghost use Rattle.bl_crun_code.specs.Vm.{VmState};
    ghost use Rattle.bl_crun_code_vm.specs.inner.State.{rested};

    ghost Value = { VmState };

    ghost view = { λ m. rested m.count m.cells.items m.temps.items m.waiting };

    ghost invariant = { λ m. length m.cells.items ≤ 4294967295 };
}

impl Vm {
    ghost use Rattle.bl_crun_code_vm.specs.Ends.{Ended, Halts, IsEnd};
    ghost use Rattle.bl_crun_code_vm.specs.Steps.{with_cells, shown_count};

    /// All cells are 0. There are so many temporaries, and there is room for so many waiting functions.
    /// For 2^32 cells or more the answer is want of memory: a cell's number has 32 bits.
    pub fn new(alloc: Global, cells: usize, temps: usize, calls: usize) -> Result<Vm, NoMemory>
        ensures cells { IfOk result (λ m. m.cells ≡ replicate cells (pos 0)) }
        ensures temps { IfOk result (λ m. length m.temps ≡ temps) }
        ensures room { IfOk result (λ m. m.room ≡ calls) }
    {
        if cells > 0xffff_ffff {
            return Err(NoMemory);
        }
        Ok(Vm {
            cells: Vec::from_elem(alloc, 0, cells)?,
            temps: Vec::from_elem(alloc, 0, temps)?,
            waiting: Waiting::new(alloc, calls)?,
            count: 0,
        })
    }

    /// Runs a function of the code, whose frame begins at a cell, and gives its result, `None` where it traps. It takes
    /// no memory. The function comes to its end in a number of steps that only the contract names.
    pub fn run(
        &mut self,
        code: &[Instruction],
        entry: usize,
        frame: u32,
        base: u32,
        args: &[i128],
    ) -> Option<i128>
        ghost steps: { ℕ }
        requires { Halts code.now steps (entry_state (record { entry = entry; frame = frame }) base args.now self.old.cells self.old.temps [] self.old.room 0) }
        ensures { (end : StepResult) →
            Arrives code.now (entry_state (record { entry = entry; frame = frame }) base args.now self.old.cells self.old.temps [] self.old.room 0) end →
            IsEnd end → Ended self.old end result self.new }
    {
        let end = run_function(
            code,
            entry,
            frame,
            base,
            args,
            &mut self.cells,
            &mut self.temps,
            &mut self.waiting,
        );
        self.count = end.count;
        end.answer
    }

    pub fn cells(&self) -> &[i128]
        ensures { result.now ≡ self.now.cells }
    {
        self.cells.as_slice()
    }

    /// How many statements have begun, or the greatest number.
    pub fn count(&self) -> u128
        ensures { result ≡ shown_count self.now.count }
    {
        self.count
    }

    /// Sets a cell, where there is one.
    #[inline(always)]
    pub fn set(&mut self, cell: usize, n: i128)
        ensures { self.new ≡ with_cells self.old (slice_set self.old.cells cell n) }
    {
        cells::set(&mut self.cells, cell, n);
    }

    /// What a cell has; 0 behind the last.
    #[inline(always)]
    pub fn get(&self, cell: usize) -> i128
        ensures { result ≡ cell_at self.now.cells cell }
    {
        cells::get(&self.cells, cell)
    }
}
