//! Operands that are read and written.

ghost use Rattle.std.specs.Prelude.{◌≡◌, ◌+◌, slice_set};
ghost use Rattle.bl_ctext_semantics_laws.specs.Flat.{cell_at, cell_number};
ghost use Rattle.bl_ctext_semantics_laws.specs.Layout.{capped};
ghost use Rattle.bl_crun_code.specs.Vm.{operand_number};
ghost use Rattle.bl_crun_code_vm.specs.inner.State.{IsReady, written_cells, written_temps};

use crate::registers::Registers;
use crate::{address, cells};
use bl_crun_code::instruction::Operand;

/// The cell whose number stands so far behind the base.
#[inline(always)]
#[tactic(auto, using(crate::proofs::Steps::led_first))]
fn led_to(registers: &Registers, cells: &[i128], p: u32) -> u32
    requires { IsReady registers.now cells.now }
    ensures { result ≡ cell_number (cell_at cells.now (registers.now.base + p)) }
{
    if p == 0 {
        registers.first()
    } else {
        address::led_to(registers.base(), cells, p)
    }
}

/// What a cell so far behind another one has; 0 where there is none.
#[inline(always)]
fn get(registers: &Registers, cells: &[i128], cell: u32, k: u32) -> i128
    requires { IsReady registers.now cells.now }
    ensures { result ≡ cell_at cells.now (capped (cell + k)) }
{
    cells::get(cells, cell as usize + k as usize)
}

/// What an operand has.
#[inline(always)]
pub fn number(registers: &Registers, cells: &[i128], temps: &[i128], operand: &Operand) -> i128
    requires { IsReady registers.now cells.now }
    ensures { result ≡ operand_number registers.now.base cells.now temps.now operand.now }
{
    match operand {
        Operand::Literal(n) => i128::from(*n),
        Operand::Temporary(j) => cells::get(temps, *j as usize),
        Operand::Near(k) => get(registers, cells, registers.base(), *k),
        Operand::Through(p, k) => {
            let first = led_to(registers, cells, *p);
            get(registers, cells, first, *k)
        }
        Operand::Indirect(j) => {
            let cell = address::cell(cells::get(temps, *j as usize));
            cells::get(cells, cell as usize)
        }
        Operand::NearAddress(k) => i128::from(address::behind(registers.base(), *k)),
        Operand::ThroughAddress(p, k) => {
            let first = led_to(registers, cells, *p);
            i128::from(address::behind(first, *k))
        }
    }
}

/// Writes a number; where nothing can be written, nothing happens.
#[inline(always)]
pub fn write(
    registers: &mut Registers,
    cells: &mut [i128],
    temps: &mut [i128],
    into: &Operand,
    n: i128,
)
    requires { IsReady registers.old cells.old }
    ensures cells { cells.new ≡ written_cells registers.old.base cells.old temps.old into.now n }
    ensures temps { temps.new ≡ written_temps temps.old into.now n }
    ensures ready { IsReady registers.new cells.new }
    ensures stays { registers.new ≡ record registers.old { first = registers.new.first } }
{
    match into {
        Operand::Temporary(j) => cells::set(temps, *j as usize, n),
        Operand::Near(k) => {
            let base = registers.base();
            set_behind(registers, cells, base, *k, n)
        }
        Operand::Through(p, k) => {
            let first = led_to(registers, cells, *p);
            set_behind(registers, cells, first, *k, n)
        }
        Operand::Indirect(j) => {
            let cell = address::cell(cells::get(temps, *j as usize));
            set(registers, cells, cell as usize, n)
        }
        Operand::Literal(_) | Operand::NearAddress(_) | Operand::ThroughAddress(..) => {}
    }
}

/// Sets the cell so far behind another one, where there is one.
#[inline(always)]
fn set_behind(registers: &mut Registers, cells: &mut [i128], cell: u32, k: u32, n: i128)
    requires { IsReady registers.old cells.old }
    ensures cells { cells.new ≡ slice_set cells.old (capped (cell + k)) n }
    ensures ready { IsReady registers.new cells.new }
    ensures stays { registers.new ≡ record registers.old { first = registers.new.first } }
{
    set(registers, cells, cell as usize + k as usize, n)
}

/// Sets a cell, where there is one; it may be the first of the frame.
#[inline(always)]
#[tactic(auto, using(crate::proofs::Steps::ready_elsewhere, crate::proofs::Steps::ready_anew))]
fn set(registers: &mut Registers, cells: &mut [i128], cell: usize, n: i128)
    requires { IsReady registers.old cells.old }
    ensures cells { cells.new ≡ slice_set cells.old cell n }
    ensures ready { IsReady registers.new cells.new }
    ensures stays { registers.new ≡ record registers.old { first = registers.new.first } }
{
    cells::set(cells, cell, n);
    let base = registers.base();
    if cell != base as usize {
        return;
    }
    let first = address::first_again(base, cells);
    registers.lead_to(first);
}
