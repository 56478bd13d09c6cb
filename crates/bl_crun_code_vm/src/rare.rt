//! Instructions that are rare, and change many cells.

ghost use Rattle.std.specs.Prelude.{◌≡◌, ◌≤◌, length};
ghost use Rattle.bl_crun_code.specs.Vm.{does};
ghost use Rattle.bl_crun_code.specs.declared.instruction.Act.TheVariants as act;
ghost use Rattle.bl_crun_code_vm.specs.inner.State.{IsReady, MovesOn};
ghost use Rattle.bl_crun_code_vm.specs.inner.Stepping.{IsRare};

use crate::operands::number;
use crate::registers::Registers;
use crate::{address, frame};
use bl_crun_code::instruction::{Act, Operand};

/// Does what a rare instruction does. The first cell of the frame at `base` tells the cell `first`.
#[inline(never)]
pub fn write_rare(act: &Act, base: u32, first: u32, cells: &mut [i128], temps: &[i128])
    requires rare { IsRare act.now }
    requires ready { IsReady (record { at = 0; base = base; first = first; count = 0 }) cells.old }
    ensures wrote { MovesOn (λ s. does s act.now) base cells.old temps.now cells.new temps.now }
    ensures few { length cells.new ≤ 4294967295 }
{
    let registers = Registers::new(0, base, first);
    match act {
        Act::Copy(at, from, size) => copy(&registers, cells, temps, at, from, *size),
        Act::Zero(at, size) => zero(&registers, cells, temps, at, *size),
        _ => unreachable!(),
    }
}

#[inline(always)]
fn copy(
    registers: &Registers,
    cells: &mut [i128],
    temps: &[i128],
    at: &Operand,
    from: &Operand,
    size: u32,
)
    requires { IsReady registers.now cells.old }
    ensures wrote { MovesOn (λ s. does s (act.Copy at.now from.now size)) registers.now.base cells.old temps.now cells.new temps.now }
    ensures few { length cells.new ≤ 4294967295 }
{
    let first = address::cell(number(registers, cells, temps, from));
    let to = address::cell(number(registers, cells, temps, at));
    frame::copy(cells, first as usize, to as usize, size);
}

#[inline(always)]
fn zero(registers: &Registers, cells: &mut [i128], temps: &[i128], at: &Operand, size: u32)
    requires { IsReady registers.now cells.old }
    ensures wrote { MovesOn (λ s. does s (act.Zero at.now size)) registers.now.base cells.old temps.now cells.new temps.now }
    ensures few { length cells.new ≤ 4294967295 }
{
    let first = address::cell(number(registers, cells, temps, at));
    frame::zero(cells, first as usize, size as usize);
}
