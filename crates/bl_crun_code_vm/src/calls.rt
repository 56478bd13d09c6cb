//! Calls of functions, and their ends.

ghost use Rattle.std.specs.Prelude.{◌≡◌, ◌≤◌, length};
ghost use Rattle.bl_ctext_semantics_laws.specs.Flat.{cell_at, cell_number};
ghost use Rattle.bl_crun_code.specs.Vm.{args_in};
ghost use Rattle.bl_crun_code.specs.declared.instruction.Act.TheVariants as act;
ghost use Rattle.bl_crun_code_vm.specs.inner.State.{IsNear, IsReady, state_of};
ghost use Rattle.bl_crun_code_vm.specs.inner.Stepping.{ActDone};

use crate::flow::Flow;
use crate::operands::{number, write};
use crate::registers::Registers;
use crate::waiting::Waiting;
use crate::{address, frame};
use bl_crun_code::instruction::{Callee, Caller, Operand};

/// A function that is called begins, where there is room for its caller.
#[inline(always)]
pub fn call(
    callee: &Callee,
    registers: &mut Registers,
    cells: &mut [i128],
    temps: &[i128],
    waiting: &mut Waiting,
) -> Flow
    requires near { IsNear registers.old }
    requires ready { IsReady registers.old cells.old }
    ensures did { ActDone (act.Call callee.now) (state_of registers.old cells.old temps.now waiting.old) result
        (state_of registers.new cells.new temps.now waiting.new) }
    ensures ready { IsReady registers.new cells.new }
{
    if waiting.len() >= waiting.room() {
        return Flow::Trapped;
    }
    let base = registers.base();
    let begins = address::behind(base, callee.passed);
    let passed = numbers(temps, callee.first, callee.args);
    frame::begin(cells, begins, callee.frame, passed);
    waiting.push(Caller {
        back: registers.at() + 1,
        base,
        into: callee.into,
    });
    let first = address::first(begins, cells);
    registers.enter(callee.entry as usize, begins, first);
    Flow::Goes
}

/// The running function ends with a result, and the last that waits goes on.
#[inline(always)]
pub fn end(
    a: &Operand,
    registers: &mut Registers,
    cells: &mut [i128],
    temps: &mut [i128],
    waiting: &mut Waiting,
) -> Flow
    requires { IsReady registers.old cells.old }
    ensures did { ActDone (act.Return a.now) (state_of registers.old cells.old temps.old waiting.old) result
        (state_of registers.new cells.new temps.new waiting.new) }
    ensures ready { IsReady registers.new cells.new }
{
    let answer = number(registers, cells, temps, a);
    match waiting.pop() {
        None => Flow::Done(answer),
        Some(caller) => {
            go_back(registers, cells, caller.back, caller.base);
            write(registers, cells, temps, &caller.into, answer);
            Flow::Goes
        }
    }
}

/// Goes back to a function that waited, at a position, with its frame at a cell.
#[inline(always)]
fn go_back(registers: &mut Registers, cells: &[i128], back: usize, base: u32)
    requires { length cells.now ≤ 4294967295 }
    ensures at { registers.new ≡ record { at = back; base = base; first = cell_number (cell_at cells.now base); count = registers.old.count } }
    ensures ready { IsReady registers.new cells.now }
{
    let first = address::first(base, cells);
    registers.enter(back, base, first);
}

/// So many numbers, from one on, as far as there are any.
#[inline(always)]
fn numbers(temps: &[i128], first: u32, n: u32) -> &[i128]
    ensures { result.now ≡ args_in temps.now first n }
{
    let start = (first as usize).min(temps.len());
    let end = start.saturating_add(n as usize).min(temps.len());
    &temps[start..end]
}
