//! Instructions that write a number or choose where to go on.

ghost use Rattle.std.specs.Prelude.{◌≡◌, ◌+◌, List, ℤ, Some, not, option_map, if◌then◌else◌};
ghost use Rattle.bl_tree.specs.Numbers.{is_one, number_of};
ghost use Rattle.bl_ctext_semantics_laws.specs.Flat.{Cells, compared};
ghost use Rattle.bl_crun_code.specs.Vm.{next_turn, written_if};
ghost use Rattle.bl_crun_code.specs.declared.instruction.Act.TheVariants as act;
ghost use Rattle.bl_crun_code_vm.specs.inner.State.{IsNear, IsReady, Queue, state_of};
ghost use Rattle.bl_crun_code_vm.specs.inner.Stepping.{ActDone, Came, PassesIf};
ghost use Rattle.bl_crun_code_vm.specs.declared.flow.Flow.TheVariants as flow;

use crate::flow::Flow;
use crate::operands::{number, write};
use crate::registers::Registers;
use crate::{address, cells, prelude};
use bl_crun_code::instruction::Operand;
use bl_ctext::Builtin;
use bl_tree::Op;

/// Goes on with the next instruction.
#[inline(always)]
pub fn go_on(registers: &mut Registers) -> Flow
    requires { IsNear registers.old }
    ensures flow { result ≡ flow.Goes }
    ensures moved { registers.new ≡ record registers.old { at = registers.old.at + 1 } }
{
    registers.go_to(registers.at() + 1);
    Flow::Goes
}

/// Writes an answer and goes on; traps where there is none.
#[inline(always)]
fn give_if(
    registers: &mut Registers,
    cells: &mut [i128],
    temps: &mut [i128],
    into: &Operand,
    answer: Option<i128>,
) -> Flow
    requires near { IsNear registers.old }
    requires ready { IsReady registers.old cells.old }
    ensures did { (w : Queue) → Came (state_of registers.old cells.old temps.old w)
        (written_if (state_of registers.old cells.old temps.old w) into.now answer) result (state_of registers.new cells.new temps.new w) }
    ensures ready { IsReady registers.new cells.new }
{
    match answer {
        None => Flow::Trapped,
        Some(n) => give(registers, cells, temps, into, n),
    }
}

/// Writes a number and goes on.
#[inline(always)]
fn give(
    registers: &mut Registers,
    cells: &mut [i128],
    temps: &mut [i128],
    into: &Operand,
    n: i128,
) -> Flow
    requires near { IsNear registers.old }
    requires ready { IsReady registers.old cells.old }
    ensures did { (w : Queue) → Came (state_of registers.old cells.old temps.old w)
        (written_if (state_of registers.old cells.old temps.old w) into.now (Some n)) result (state_of registers.new cells.new temps.new w) }
    ensures ready { IsReady registers.new cells.new }
{
    write(registers, cells, temps, into, n);
    go_on(registers)
}

#[inline(always)]
pub fn write_number(
    registers: &mut Registers,
    cells: &mut [i128],
    temps: &mut [i128],
    into: &Operand,
    a: &Operand,
) -> Flow
    requires near { IsNear registers.old }
    requires ready { IsReady registers.old cells.old }
    ensures did { (w : Queue) → ActDone (act.Move into.now a.now) (state_of registers.old cells.old temps.old w) result
        (state_of registers.new cells.new temps.new w) }
    ensures ready { IsReady registers.new cells.new }
{
    let n = number(registers, cells, temps, a);
    give(registers, cells, temps, into, n)
}

/// Writes whether a condition isn't true.
#[inline(always)]
pub fn negate(
    registers: &mut Registers,
    cells: &mut [i128],
    temps: &mut [i128],
    into: &Operand,
    a: &Operand,
) -> Flow
    requires near { IsNear registers.old }
    requires ready { IsReady registers.old cells.old }
    ensures did { (w : Queue) → ActDone (act.Negate into.now a.now) (state_of registers.old cells.old temps.old w) result
        (state_of registers.new cells.new temps.new w) }
    ensures ready { IsReady registers.new cells.new }
{
    let n = number(registers, cells, temps, a);
    give(registers, cells, temps, into, negated(n))
}

/// Whether a condition isn't true, as a number.
#[inline(always)]
fn negated(n: i128) -> i128
    ensures { result ≡ number_of (not (is_one n)) }
{
    i128::from(n != 1)
}

/// Writes a number that the instruction has.
#[inline(always)]
pub fn write_constant(
    registers: &mut Registers,
    cells: &mut [i128],
    temps: &mut [i128],
    into: &Operand,
    n: i128,
) -> Flow
    requires near { IsNear registers.old }
    requires ready { IsReady registers.old cells.old }
    ensures did { (w : Queue) → ActDone (act.Constant into.now n) (state_of registers.old cells.old temps.old w) result
        (state_of registers.new cells.new temps.new w) }
    ensures ready { IsReady registers.new cells.new }
{
    give(registers, cells, temps, into, n)
}

#[inline(always)]
pub fn two(
    registers: &mut Registers,
    cells: &mut [i128],
    temps: &mut [i128],
    op: Op,
    into: &Operand,
    a: &Operand,
    b: &Operand,
) -> Flow
    requires near { IsNear registers.old }
    requires ready { IsReady registers.old cells.old }
    ensures did { (w : Queue) → ActDone (act.Two op into.now a.now b.now) (state_of registers.old cells.old temps.old w) result
        (state_of registers.new cells.new temps.new w) }
    ensures ready { IsReady registers.new cells.new }
{
    let left = number(registers, cells, temps, a);
    let right = number(registers, cells, temps, b);
    let answer = compared(op, left, right);
    give_if(registers, cells, temps, into, answer)
}

#[inline(always)]
pub fn one(
    registers: &mut Registers,
    cells: &mut [i128],
    temps: &mut [i128],
    builtin: Builtin,
    into: &Operand,
    a: &Operand,
) -> Flow
    requires near { IsNear registers.old }
    requires ready { IsReady registers.old cells.old }
    ensures did { (w : Queue) → ActDone (act.One builtin into.now a.now) (state_of registers.old cells.old temps.old w) result
        (state_of registers.new cells.new temps.new w) }
    ensures ready { IsReady registers.new cells.new }
{
    let n = number(registers, cells, temps, a);
    let answer = prelude::of_one(builtin, n);
    give_if(registers, cells, temps, into, answer)
}

#[inline(always)]
pub fn both(
    registers: &mut Registers,
    cells: &mut [i128],
    temps: &mut [i128],
    builtin: Builtin,
    into: &Operand,
    a: &Operand,
    b: &Operand,
) -> Flow
    requires near { IsNear registers.old }
    requires ready { IsReady registers.old cells.old }
    ensures did { (w : Queue) → ActDone (act.Both builtin into.now a.now b.now) (state_of registers.old cells.old temps.old w) result
        (state_of registers.new cells.new temps.new w) }
    ensures ready { IsReady registers.new cells.new }
{
    let left = number(registers, cells, temps, a);
    let right = number(registers, cells, temps, b);
    let answer = prelude::of_two(builtin, left, right);
    give_if(registers, cells, temps, into, answer)
}

#[inline(always)]
pub fn write_element(
    registers: &mut Registers,
    cells: &mut [i128],
    temps: &mut [i128],
    j: u32,
    at: &Operand,
    i: &Operand,
    length: u32,
    size: u32,
) -> Flow
    requires near { IsNear registers.old }
    requires ready { IsReady registers.old cells.old }
    ensures did { (w : Queue) → ActDone (act.Element j at.now i.now length size) (state_of registers.old cells.old temps.old w) result
        (state_of registers.new cells.new temps.new w) }
    ensures ready { IsReady registers.new cells.new }
{
    let first = number(registers, cells, temps, at);
    let index = number(registers, cells, temps, i);
    let answer = address::element(length, size, first, index);
    give_if(registers, cells, temps, &Operand::Temporary(j), answer)
}

#[inline(always)]
pub fn turn(registers: &mut Registers, cells: &mut [i128], temps: &mut [i128], j: u32) -> Flow
    requires near { IsNear registers.old }
    requires ready { IsReady registers.old cells.old }
    ensures did { (w : Queue) → ActDone (act.Turn j) (state_of registers.old cells.old temps.old w) result (state_of registers.new cells.new temps.new w) }
    ensures ready { IsReady registers.new cells.new }
{
    let answer = next_turn(cells::get(temps, j as usize));
    give_if(registers, cells, temps, &Operand::Temporary(j), answer)
}

/// Passes so many instructions; traps where there is no number.
#[inline(always)]
fn pass_if(registers: &mut Registers, n: Option<u32>) -> Flow
    requires { IsNear registers.old }
    ensures { PassesIf registers.old n result registers.new }
{
    match n {
        None => Flow::Trapped,
        Some(n) => {
            registers.go_to(registers.at() + 1 + n as usize);
            Flow::Goes
        }
    }
}

/// Passes so many instructions.
#[inline(always)]
pub fn skip(registers: &mut Registers, n: u32) -> Flow
    requires { IsNear registers.old }
    ensures did { (cells : Cells) (temps : List ℤ) (w : Queue) → ActDone (act.Skip n) (state_of registers.old cells temps w) result
        (state_of registers.new cells temps w) }
    ensures ready { (cells : Cells) → IsReady registers.old cells → IsReady registers.new cells }
{
    registers.go_to(registers.at() + 1 + n as usize);
    Flow::Goes
}

/// Goes back so many instructions.
#[inline(always)]
pub fn again(registers: &mut Registers, n: u32) -> Flow
    ensures did { (cells : Cells) (temps : List ℤ) (w : Queue) → ActDone (act.Again n) (state_of registers.old cells temps w) result
        (state_of registers.new cells temps w) }
    ensures ready { (cells : Cells) → IsReady registers.old cells → IsReady registers.new cells }
{
    registers.go_to(registers.at().saturating_sub(n as usize));
    Flow::Goes
}

#[inline(always)]
pub fn test(
    registers: &mut Registers,
    cells: &[i128],
    temps: &[i128],
    a: &Operand,
    yes: u32,
    no: u32,
) -> Flow
    requires near { IsNear registers.old }
    requires ready { IsReady registers.old cells.now }
    ensures did { (w : Queue) → ActDone (act.Test a.now yes no) (state_of registers.old cells.now temps.now w) result
        (state_of registers.new cells.now temps.now w) }
    ensures ready { IsReady registers.new cells.now }
{
    let n = number(registers, cells, temps, a);
    let passed = chosen(n, yes, no);
    pass_if(registers, Some(passed))
}

#[inline(always)]
pub fn compare(
    registers: &mut Registers,
    cells: &[i128],
    temps: &[i128],
    op: Op,
    a: &Operand,
    b: &Operand,
    yes: u32,
    no: u32,
) -> Flow
    requires near { IsNear registers.old }
    requires ready { IsReady registers.old cells.now }
    ensures did { (w : Queue) → ActDone (act.Compare op a.now b.now yes no) (state_of registers.old cells.now temps.now w) result
        (state_of registers.new cells.now temps.now w) }
    ensures ready { IsReady registers.new cells.now }
{
    let left = number(registers, cells, temps, a);
    let right = number(registers, cells, temps, b);
    let passed = passed(op, left, right, yes, no);
    pass_if(registers, passed)
}

/// How many instructions a comparison passes; `None` for any other operator.
#[inline(always)]
fn passed(op: Op, a: i128, b: i128, yes: u32, no: u32) -> Option<u32>
    ensures { result ≡ option_map (λ c. if is_one c then yes else no) (compared op a b) }
{
    match compared(op, a, b) {
        None => None,
        Some(n) => Some(chosen(n, yes, no)),
    }
}

/// How many instructions a condition passes.
#[inline(always)]
fn chosen(condition: i128, yes: u32, no: u32) -> u32
    ensures { result ≡ (if is_one condition then yes else no) }
{
    if condition == 1 { yes } else { no }
}

/// The next turn of a loop; `None` where 65,536 have begun.
#[inline(always)]
fn next_turn(n: i128) -> Option<i128>
    ensures { result ≡ next_turn n }
{
    if n < 65_536 { Some(n + 1) } else { None }
}

/// What a comparison gives; `None` for any other operator.
#[inline(always)]
pub fn compared(op: Op, a: i128, b: i128) -> Option<i128>
    ensures { result ≡ compared op a b }
{
    let holds = match op {
        Op::Eq => a == b,
        Op::Ne => a != b,
        Op::Lt => a < b,
        Op::Le => a <= b,
        Op::Gt => a > b,
        Op::Ge => a >= b,
        _ => return None,
    };
    Some(i128::from(holds))
}
