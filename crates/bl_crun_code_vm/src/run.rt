//! Runs of the machine over its parts.

ghost use Rattle.std.specs.Prelude.{ℕ, ◌≡◌, [], Some};
ghost use Rattle.bl_crun_code.specs.Laws.{Arrives, entry_state};
ghost use Rattle.bl_crun_code.specs.Vm.{StepResult};
ghost use Rattle.bl_crun_code_vm.specs.Ends.{Ended, IsEnd};
ghost use Rattle.bl_crun_code_vm.specs.inner.State.{IsNear, IsReady, Queue, run_start, rested, state_of};
ghost use Rattle.bl_crun_code_vm.specs.inner.Running.{CanRun};
ghost use Rattle.bl_crun_code_vm.specs.inner.Stepping.{ActDone, Came, IsComputed, IsOther, IsRare, StepDone, shown_step};

use crate::flow::Flow;
use crate::registers::Registers;
use crate::waiting::Waiting;
use crate::{acts, address, calls, frame, rare};
use bl_crun_code::instruction::{Act, Instruction};

/// How a run ends.
#[derive(Clone, Copy)]
pub struct End {
    /// The result of the first function, and `None` where it trapped.
    pub answer: Option<i128>,
    /// How many statements have begun, or the greatest number.
    pub count: u128,
}

/// Runs a function of the code up to its end, where its frame begins at a cell.
pub fn run_function(
    code: &[Instruction],
    entry: usize,
    frame: u32,
    base: u32,
    args: &[i128],
    cells: &mut [i128],
    temps: &mut [i128],
    waiting: &mut Waiting,
) -> End
    ghost steps: { ℕ }
    requires { CanRun code.now steps (entry_state (record { entry = entry; frame = frame }) base args.now cells.old temps.old [] waiting.old.room 0) }
    ensures { (end : StepResult) →
        Arrives code.now (entry_state (record { entry = entry; frame = frame }) base args.now cells.old temps.old [] waiting.old.room 0) end →
        IsEnd end → Ended (rested 0 cells.old temps.old waiting.old) end result.answer (rested result.count cells.new temps.new waiting.new) }
{
    frame::begin(cells, base, frame, args);
    waiting.clear();
    run(code, entry, base, cells, temps, waiting)
}

/// Runs code from an entry up to its end, where a frame begins at a cell.
#[inline(never)]
fn run(
    code: &[Instruction],
    entry: usize,
    base: u32,
    cells: &mut [i128],
    temps: &mut [i128],
    waiting: &mut Waiting,
) -> End
    ghost steps: { ℕ }
    requires { CanRun code.now steps (run_start entry base cells.old temps.old waiting.old) }
    ensures { (end : StepResult) → Arrives code.now (run_start entry base cells.old temps.old waiting.old) end → IsEnd end →
        Ended (run_start entry base cells.old temps.old waiting.old) end result.answer (rested result.count cells.new temps.new waiting.new) }
{
    let first = address::first(base, cells);
    let mut registers = Registers::new(entry, base, first);
    loop {
        match step(code, &mut registers, cells, temps, waiting) {
            Flow::Goes => {}
            Flow::Done(answer) => return ended(Some(answer), &registers),
            Flow::Trapped => return ended(None, &registers),
        }
    }
}

/// The end of a run with an answer.
#[inline(always)]
fn ended(answer: Option<i128>, registers: &Registers) -> End
    ensures answer { result.answer ≡ answer }
    ensures count { result.count ≡ registers.now.count }
{
    End {
        answer,
        count: registers.count(),
    }
}

/// One step.
#[inline(always)]
fn step(
    code: &[Instruction],
    registers: &mut Registers,
    cells: &mut [i128],
    temps: &mut [i128],
    waiting: &mut Waiting,
) -> Flow
    requires { IsReady registers.old cells.old }
    ensures did { StepDone code.now (state_of registers.old cells.old temps.old waiting.old) result (state_of registers.new cells.new temps.new waiting.new) }
    ensures ready { IsReady registers.new cells.new }
{
    match code.get(registers.at()) {
        None => Flow::Trapped,
        Some(instruction) => obey(instruction, registers, cells, temps, waiting),
    }
}

/// An instruction is counted and done.
#[inline(always)]
fn obey(
    instruction: &Instruction,
    registers: &mut Registers,
    cells: &mut [i128],
    temps: &mut [i128],
    waiting: &mut Waiting,
) -> Flow
    requires near { IsNear registers.old }
    requires ready { IsReady registers.old cells.old }
    ensures did { Came (state_of registers.old cells.old temps.old waiting.old)
        (shown_step (state_of registers.old cells.old temps.old waiting.old) (Some instruction.now)) result (state_of registers.new cells.new temps.new waiting.new) }
    ensures ready { IsReady registers.new cells.new }
{
    registers.add_statements(instruction.statements);
    take(&instruction.act, registers, cells, temps, waiting)
}

/// What an instruction does once its statements are counted. One function with all of them is too large to be inlined into
/// the loop, so the most frequent ones stand here. The two functions for the others are inlined as they are called once.
#[inline(always)]
fn take(
    act: &Act,
    registers: &mut Registers,
    cells: &mut [i128],
    temps: &mut [i128],
    waiting: &mut Waiting,
) -> Flow
    requires near { IsNear registers.old }
    requires ready { IsReady registers.old cells.old }
    ensures did { ActDone act.now (state_of registers.old cells.old temps.old waiting.old) result (state_of registers.new cells.new temps.new waiting.new) }
    ensures ready { IsReady registers.new cells.new }
{
    match act {
        Act::Move(into, a) => acts::write_number(registers, cells, temps, into, a),
        Act::Constant(into, n) => acts::write_constant(registers, cells, temps, into, *n),
        Act::Test(a, yes, no) => acts::test(registers, cells, temps, a, *yes, *no),
        Act::Skip(n) => acts::skip(registers, *n),
        Act::Again(n) => acts::again(registers, *n),
        Act::Element(..) | Act::Negate(..) | Act::Two(..) | Act::One(..) | Act::Both(..) => {
            compute(act, registers, cells, temps)
        }
        Act::Copy(..)
        | Act::Zero(..)
        | Act::Compare(..)
        | Act::Turn(_)
        | Act::Call(_)
        | Act::Return(_)
        | Act::Stop => take_other(act, registers, cells, temps, waiting),
    }
}

/// Computes a number and writes it.
fn compute(act: &Act, registers: &mut Registers, cells: &mut [i128], temps: &mut [i128]) -> Flow
    requires near { IsNear registers.old }
    requires computed { IsComputed act.now }
    requires ready { IsReady registers.old cells.old }
    ensures did { (w : Queue) → ActDone act.now (state_of registers.old cells.old temps.old w) result (state_of registers.new cells.new temps.new w) }
    ensures ready { IsReady registers.new cells.new }
{
    match act {
        Act::Element(j, at, i, length, size) => {
            acts::write_element(registers, cells, temps, *j, at, i, *length, *size)
        }
        Act::Negate(into, a) => acts::negate(registers, cells, temps, into, a),
        Act::Two(op, into, a, b) => acts::two(registers, cells, temps, *op, into, a, b),
        Act::One(builtin, into, a) => acts::one(registers, cells, temps, *builtin, into, a),
        Act::Both(builtin, into, a, b) => {
            acts::both(registers, cells, temps, *builtin, into, a, b)
        }
        _ => unreachable!(),
    }
}

/// What the other instructions do.
fn take_other(
    act: &Act,
    registers: &mut Registers,
    cells: &mut [i128],
    temps: &mut [i128],
    waiting: &mut Waiting,
) -> Flow
    requires near { IsNear registers.old }
    requires other { IsOther act.now }
    requires ready { IsReady registers.old cells.old }
    ensures did { ActDone act.now (state_of registers.old cells.old temps.old waiting.old) result (state_of registers.new cells.new temps.new waiting.new) }
    ensures ready { IsReady registers.new cells.new }
{
    match act {
        Act::Copy(..) | Act::Zero(..) => rarely(act, registers, cells, temps),
        Act::Compare(op, a, b, yes, no) => {
            acts::compare(registers, cells, temps, *op, a, b, *yes, *no)
        }
        Act::Turn(j) => acts::turn(registers, cells, temps, *j),
        Act::Call(callee) => calls::call(callee, registers, cells, temps, waiting),
        Act::Return(a) => calls::end(a, registers, cells, temps, waiting),
        Act::Stop => Flow::Trapped,
        _ => unreachable!(),
    }
}

/// Does what a rare instruction does.
#[inline(always)]
fn rarely(act: &Act, registers: &mut Registers, cells: &mut [i128], temps: &[i128]) -> Flow
    requires near { IsNear registers.old }
    requires rare { IsRare act.now }
    requires ready { IsReady registers.old cells.old }
    ensures did { (w : Queue) → ActDone act.now (state_of registers.old cells.old temps.now w) result (state_of registers.new cells.new temps.now w) }
    ensures ready { IsReady registers.new cells.new }
{
    let base = registers.base();
    rare::write_rare(act, base, registers.first(), cells, temps);
    let first = address::first(base, cells);
    registers.lead_to(first);
    acts::go_on(registers)
}
