//! The runner of a file.

ghost use Rattle.std.specs.Prelude.{◌≡◌, ◌<◌, Some, true, length, slice_get, IfErr, IfOk, OnOk};
ghost use Rattle.bl_tree.specs.declared.scalar.Scalar.{Scalar as Kind};
ghost use Rattle.bl_tree.specs.Scalar.{in_range};
ghost use Rattle.bl_tree.specs.Ports.{row_fits};
ghost use Rattle.bl_ctext_semantics.specs.Cells.{cells_of, inputs_of, outputs_of};
ghost use Rattle.bl_crun_ports.specs.Layout.{kinds_of};

use crate::answer::{goes_on, tick_of};
use crate::fault::LoadFault;
use crate::fits::fit_all;
use crate::prepared::{Prepared, do_tick, prepare, start, tell};
use crate::tick::TickAnswer;
use bl_ctext::CFile;
use bl_tree::{Column, List, Row, Scalar};
use std::alloc::Global;
use std::marker::Model;

/// A file that runs. All memory that it needs was taken as it was loaded.
#[derive(Drop)]
pub struct Runner {
    file: CFile,
    prepared: Prepared,
    ready: bool,
    live: bool,
}

impl Model for Runner {
    ghost use Rattle.std.specs.Coded.{codes};
    ghost use Rattle.bl_tree.specs.contracts.c.CStmt as stmt;
    ghost use Rattle.bl_tree.specs.contracts.c.CStmtKind as kind;
    ghost use Rattle.bl_ctext_semantics.specs.Parts.{parts_of};
    ghost use Rattle.bl_crun.specs.Prepared.{RunnerInvariant, cell_numbers};
    ghost use Rattle.bl_crun.specs.Running.{Running};

    ghost Value = { Running };

    ghost coded = { Prim.hlevel (codes, stmt.the_row.coded, kind.the_row.coded) };

    ghost view = { λ r. record { parts = parts_of r.file; cells = cell_numbers r.prepared; ready = r.ready; live = r.live } };

    ghost invariant = { λ r. RunnerInvariant (parts_of r.file) r.prepared r.ready };
}

impl Runner {
    ghost use Rattle.bl_ctext_semantics.specs.Parts.{parts_of};
    ghost use Rattle.bl_ctext_semantics.specs.Trace.{start_succeeds};
    ghost use Rattle.bl_crun.specs.Cause.{IsCause, IsRunnable};
    ghost use Rattle.bl_crun.specs.Running.{OutputsFit, after_tick, answer_of, count_after, loaded, outputs_after, reply_at, with_cell};

    /// Loads a file: clears its cells and does its start. After a fault the file comes back.
    pub fn load(alloc: Global, file: CFile) -> Result<Runner, (CFile, LoadFault)>
        ensures loaded { IfOk result (λ r. r ≡ loaded (parts_of file)) }
        ensures runs { OnOk result (IsRunnable (parts_of file)) }
        ensures back { IfErr result (λ e. e.0 ≡ file) }
        ensures fault { IfErr result (λ e. IsCause (parts_of file) e.1) }
    {
        match prepare(alloc, &file) {
            Ok(mut prepared) => {
                let ready = start(&file, &mut prepared);
                Ok(Runner {
                    file,
                    prepared,
                    ready,
                    live: true,
                })
            }
            Err(fault) => Err((file, fault)),
        }
    }

    pub fn inputs(&self) -> &List<Column>
        ensures { result.now ≡ inputs_of self.now.parts }
    {
        &self.prepared.inputs
    }

    pub fn outputs(&self) -> &List<Column>
        ensures { result.now ≡ outputs_of self.now.parts }
    {
        &self.prepared.outputs
    }

    /// Whether a row has a number for each input, in the range of its type.
    pub fn fits(&self, ins: &Row) -> bool
        ensures { result ≡ row_fits (inputs_of self.now.parts) ins.now }
    {
        fit_all(&self.prepared.inputs, ins)
    }

    /// Whether no tick has ended the run or trapped.
    pub fn live(&self) -> bool
        ensures { result ≡ self.now.live }
    {
        self.live
    }

    /// Whether the start hasn't trapped.
    pub fn ready(&self) -> bool
        ensures shown { result ≡ self.now.ready }
        ensures start { result ≡ start_succeeds self.now.parts }
    {
        self.ready
    }

    /// Does a tick with a row of inputs, and fills the row of outputs unless it traps. Where the start has trapped, the
    /// first tick traps.
    pub fn tick(&mut self, ins: &Row, outs: &mut Row) -> TickAnswer
        requires fits { row_fits (inputs_of self.old.parts) ins.now ≡ true }
        requires long { length outs.old ≡ length (outputs_of self.old.parts) }
        requires live { self.old.live ≡ true }
        ensures answer { result ≡ answer_of (reply_at self.old ins.now) }
        ensures after { self.new ≡ after_tick self.old ins.now }
        ensures outputs { outs.new ≡ outputs_after self.old ins.now outs.old }
        ensures fit { OutputsFit (outputs_of self.old.parts) result outs.new }
    {
        let mut count = 0;
        self.tick_counted(ins, outs, &mut count)
    }

    /// Does a tick and tells how many statements it executed, at most 2^128 - 1.
    pub fn tick_counted(&mut self, ins: &Row, outs: &mut Row, count: &mut u128) -> TickAnswer
        requires fits { row_fits (inputs_of self.old.parts) ins.now ≡ true }
        requires long { length outs.old ≡ length (outputs_of self.old.parts) }
        requires live { self.old.live ≡ true }
        ensures answer { result ≡ answer_of (reply_at self.old ins.now) }
        ensures after { self.new ≡ after_tick self.old ins.now }
        ensures outputs { outs.new ≡ outputs_after self.old ins.now outs.old }
        ensures fit { OutputsFit (outputs_of self.old.parts) result outs.new }
        ensures count { count.new ≡ count_after self.old ins.now }
    {
        if !self.ready {
            self.live = false;
            *count = 0;
            return TickAnswer::Trap;
        }
        let called = do_tick(&self.file, &mut self.prepared, ins);
        *count = called.count;
        let answer = tick_of(called.answer);
        self.live = goes_on(answer);
        tell(&self.prepared, answer, outs);
        answer
    }

    /// How many cells the three objects have. Each has a number.
    pub fn cells(&self) -> u32
        ensures count { result ≡ length (cells_of self.now.parts) }
        ensures numbers { result ≡ length self.now.cells }
    {
        self.prepared.base
    }

    /// The type of a cell.
    pub fn kind(&self, k: u32) -> Scalar
        requires { k < length (cells_of self.now.parts) }
        ensures { slice_get (kinds_of self.now.parts) k ≡ Some result }
    {
        self.prepared.kinds[k as usize]
    }

    /// The number of a cell, also where the start or a tick has trapped.
    pub fn cell(&self, k: u32) -> i128
        requires { k < length (cells_of self.now.parts) }
        ensures number { slice_get self.now.cells k ≡ Some result }
        ensures range { (kind : Kind) → slice_get (kinds_of self.now.parts) k ≡ Some kind → in_range kind result ≡ true }
    {
        self.prepared.machine.get(k as usize)
    }

    /// Sets a cell alone.
    pub fn put(&mut self, k: u32, n: i128)
        requires within { k < length (cells_of self.old.parts) }
        requires range { (kind : Kind) → slice_get (kinds_of self.old.parts) k ≡ Some kind → in_range kind n ≡ true }
        ensures { self.new ≡ with_cell self.old k n }
    {
        self.prepared.machine.set(k as usize, n);
    }
}
