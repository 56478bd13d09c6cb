//! What a runner keeps of its file, and the calls of the start and of ticks.

ghost use Rattle.std.specs.Prelude.{◌≡◌, [], ◌∷◌, ℕ, ◌+◌, ◌<◌, pos, true, length, replicate, IfErr, IfOk};
ghost use Rattle.bl_tree.specs.Ports.{row_fits};
ghost use Rattle.bl_ctext_semantics.specs.Cells.{inputs_of};
ghost use Rattle.bl_ctext_semantics.specs.Parts.{parts_of};
ghost use Rattle.bl_ctext_semantics.specs.Sizes.{cells_needed};
ghost use Rattle.bl_ctext_semantics.specs.Trace.{start_cells, start_succeeds};
ghost use Rattle.bl_crun.specs.Cause.{IsCause, IsRunnable};
ghost use Rattle.bl_crun.specs.Prepared.{PreparedInvariant, cell_numbers};
ghost use Rattle.bl_crun.specs.inner.Ticked.{Ticked, outputs_in};
ghost use Rattle.bl_crun.specs.Running.{OutputsFit, unless_trapped};

use crate::call::{Called, call};
use crate::fault::{LoadFault, needed};
use crate::ports::{read_outputs, set_inputs};
use crate::tick::TickAnswer;
use bl_crun_code::instruction::Instruction;
use bl_crun_code_compiler::{Compiled, Entry, compile};
use bl_crun_code_vm::Vm;
use bl_crun_ports::laws::ports_stand;
use bl_crun_ports::{CellKinds, inputs, lay_out, outputs};
use bl_ctext::CFile;
use bl_ctext_semantics_laws::flat::{starts_agree, ticks_agree};
use bl_tree::{Column, List, NoMemory, Row, Scalar};
use std::alloc::Global;

/// What a runner keeps of its file.
#[derive(Drop)]
pub struct Prepared {
    pub code: Vec<Instruction>,
    pub init: Option<Entry>,
    pub tick: Option<Entry>,
    pub inputs: List<Column>,
    pub outputs: List<Column>,
    /// The types of the cells of the three objects.
    pub kinds: Vec<Scalar>,
    /// Where the cells of the input object begin.
    pub input_at: u32,
    /// Where the cells of the output object begin.
    pub output_at: u32,
    /// The first cell behind the objects.
    pub base: u32,
    pub machine: Vm,
}

/// Prepares a file, if it can be loaded. All cells of its machine are 0.
pub fn prepare(alloc: Global, file: &CFile) -> Result<Prepared, LoadFault>
    ensures keeps { IfOk result (PreparedInvariant (parts_of file.now)) }
    ensures cleared { IfOk result (λ p. p.machine.cells ≡ replicate (cells_needed (parts_of file.now)) (pos 0)) }
    ensures fault { IfErr result (IsCause (parts_of file.now)) }
{
    let cells = match needed(alloc, file) {
        Ok(cells) => cells,
        Err(fault) => return Err(fault),
    };
    match prepare_for(alloc, file, cells) {
        Ok(prepared) => Ok(prepared),
        Err(_) => Err(LoadFault::NoMemory),
    }
}

/// Prepares a file that needs so many cells.
fn prepare_for(alloc: Global, file: &CFile, cells: usize) -> Result<Prepared, NoMemory>
    requires runs { IsRunnable (parts_of file.now) }
    requires cells { cells ≡ cells_needed (parts_of file.now) }
    ensures keeps { IfOk result (PreparedInvariant (parts_of file.now)) }
    ensures cleared { IfOk result (λ p. p.machine.cells ≡ replicate (cells_needed (parts_of file.now)) (pos 0)) }
{
    let Compiled { code, init, tick } = compile(alloc, &file.structs, &file.funcs)?;
    let cells_of = lay_out(alloc, &file.structs)?;
    let inputs = inputs(alloc, &file.structs)?;
    let outputs = outputs(alloc, &file.structs)?;
    let machine = Vm::new(alloc, cells, code.len(), file.funcs.len())?;
    let CellKinds {
        kinds,
        inputs: input_at,
        outputs: output_at,
    } = cells_of;
    let base = kinds.len() as u32;
    Ok(Prepared {
        code,
        init,
        tick,
        inputs,
        outputs,
        kinds,
        input_at: input_at as u32,
        output_at: output_at as u32,
        base,
        machine,
    })
}

/// Does the start, and tells whether it hasn't trapped.
pub fn start(file: &CFile, prepared: &mut Prepared) -> bool
    requires keeps { PreparedInvariant (parts_of file.now) prepared.old }
    requires cleared { prepared.old.machine.cells ≡ replicate (cells_needed (parts_of file.now)) (pos 0) }
    ensures keeps { PreparedInvariant (parts_of file.now) prepared.new }
    ensures ready { result ≡ start_succeeds (parts_of file.now) }
    ensures cells { cell_numbers prepared.new ≡ start_cells (parts_of file.now) }
{
    starts_agree(file);
    let called = call(
        file,
        &mut prepared.machine,
        &prepared.code,
        prepared.init,
        prepared.base,
        &[0],
    );
    called.answer.is_some()
}

/// The arguments of a tick's function: where the three objects begin.
fn tick_args(input_at: u32, output_at: u32) -> [i128; 3]
    ensures { result ≡ pos 0 ∷ pos input_at ∷ pos output_at ∷ [] }
{
    [0, i128::from(input_at), i128::from(output_at)]
}

/// Does a tick with a row of inputs.
pub fn do_tick(file: &CFile, prepared: &mut Prepared, ins: &Row) -> Called
    requires keeps { PreparedInvariant (parts_of file.now) prepared.old }
    requires fits { row_fits (inputs_of (parts_of file.now)) ins.now ≡ true }
    ensures keeps { PreparedInvariant (parts_of file.now) prepared.new }
    ensures ticked { Ticked (parts_of file.now) (cell_numbers prepared.old) ins.now result prepared.new }
{
    ticks_agree(file);
    ports_stand(file);
    set_inputs(&mut prepared.machine, prepared.input_at as usize + 1, ins);
    let args = tick_args(prepared.input_at, prepared.output_at);
    call(
        file,
        &mut prepared.machine,
        &prepared.code,
        prepared.tick,
        prepared.base,
        &args,
    )
}

/// Fills the row of outputs after a tick with this answer, unless it has trapped.
pub fn tell(prepared: &Prepared, answer: TickAnswer, outs: &mut Row)
    requires within { (k : ℕ) → k < length prepared.now.outputs → prepared.now.output_at + 1 + k < length prepared.now.machine.cells }
    requires long { length outs.old ≡ length prepared.now.outputs }
    requires ranges { row_fits prepared.now.outputs (outputs_in prepared.now) ≡ true }
    ensures told { outs.new ≡ unless_trapped answer (outputs_in prepared.now) outs.old }
    ensures fit { OutputsFit prepared.now.outputs answer outs.new }
{
    match answer {
        TickAnswer::Trap => {}
        TickAnswer::Row | TickAnswer::Ended => {
            read_outputs(&prepared.machine, prepared.output_at as usize + 1, outs);
        }
    }
}
