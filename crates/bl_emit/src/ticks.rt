//! The functions that begin a program and take one tick.

ghost use Rattle.std.specs.Prelude.{◌≡◌, ◌∷◌, ◌++◌, [], IfOk, None, OnOk, Some, codes, false, if◌then◌else◌, map, true};
ghost use Rattle.bl_tree.specs.declared.c.CArg.TheVariants.{Address};
ghost use Rattle.bl_tree.specs.declared.scalar.Scalar.TheVariants.{Nat};
ghost use Rattle.bl_tree.specs.declared.scalar.Width.TheVariants.{W32};
ghost use Rattle.bl_emit_acts.specs.Trees.{c_literal, c_place, c_read, c_step};
ghost use Rattle.bl_emit_functions.specs.Trees.{c_if, c_return};
ghost use Rattle.bl_emit_spec.specs.Activities.{pointer_param};
ghost use Rattle.bl_emit_spec.specs.Blocks.{arg_where, stmt_where, unit_may_end};
ghost use Rattle.bl_emit_spec.specs.Programs as programs;

use crate::interface::{inputs, outputs};
use crate::parts::{local, pointer};
use bl_emit_acts::parts::{
    NOWHERE, clear, joined, literal, member_at, prefixed, read, single, statement, whole,
};
use bl_emit_blocks::{statement_where, unit_may_end};
use bl_emit_functions::parts::{choice, returning};
use bl_tree::c::{CArg, CCall, CExpr, CFunc, CLocal, CParam, CStmt, CStmtKind};
use bl_tree::tree::{Unit, Var};
use bl_tree::{List, NoMemory, Scalar, Text, Width};
use std::alloc::Global;

/// A pointer to the state of a program, alone.
fn state_param(alloc: Global) -> Result<CParam, NoMemory>
    ensures { IfOk result (λ made. made ≡ pointer_param (codes "s") (codes "bl_state")) }
{
    pointer(alloc, "s", Text::copy_of(alloc, "bl_state")?)
}

/// The function with which a program begins. Fails only if memory runs out.
pub fn init(alloc: Global) -> Result<CFunc, NoMemory>
    ensures { IfOk result (λ made. made ≡ programs.init_function) }
{
    let params = single(alloc, state_param(alloc)?)?;
    let at = whole(alloc, true, Text::copy_of(alloc, "s")?);
    let body = single(alloc, clear(alloc, at, Text::copy_of(alloc, "bl_state")?)?)?;
    Ok(CFunc {
        place: NOWHERE,
        fixed: false,
        result: None,
        name: Text::copy_of(alloc, "bl_init")?,
        params,
        locals: List::new(alloc),
        body,
    })
}

/// The place of an input.
fn input(alloc: Global, var: &Var) -> Result<CArg, NoMemory>
    ensures { IfOk result (λ arg. arg ≡ programs.input_arg var.now) }
{
    let name = prefixed(alloc, "i_", var.name.as_str())?;
    Ok(CArg::Address(member_at(alloc, "i", name)?))
}

/// The place of an output.
fn output(alloc: Global, var: &Var) -> Result<CArg, NoMemory>
    ensures { IfOk result (λ arg. arg ≡ programs.output_arg var.now) }
{
    let name = prefixed(alloc, "o_", var.name.as_str())?;
    Ok(CArg::Address(member_at(alloc, "o", name)?))
}

/// Appends the places of the inputs.
fn add_inputs(alloc: Global, vars: &[Var], args: &mut List<CArg>) -> Result<(), NoMemory>
    ensures { OnOk result (args.new ≡ args.old ++ map programs.input_arg vars.now) }
{
    for var in vars {
        args.push(input(alloc, var)?)?;
    }
    Ok(())
}

/// Appends the places of the outputs.
fn add_outputs(alloc: Global, vars: &[Var], args: &mut List<CArg>) -> Result<(), NoMemory>
    ensures { OnOk result (args.new ≡ args.old ++ map programs.output_arg vars.now) }
{
    for var in vars {
        args.push(output(alloc, var)?)?;
    }
    Ok(())
}

/// The place of a member of the state.
fn state_place(alloc: Global, member: &str) -> Result<CArg, NoMemory>
    ensures { IfOk result (λ arg. arg ≡ Address (c_place true (codes "s") (c_step member.now ∷ []))) }
{
    let name = Text::copy_of(alloc, member)?;
    Ok(CArg::Address(member_at(alloc, "s", name)?))
}

/// Appends the place of what the entry remembers.
fn add_memory(alloc: Global, remembers: bool, args: &mut List<CArg>) -> Result<(), NoMemory>
    ensures { OnOk result (args.new ≡ args.old
        ++ (if remembers then Address (c_place true (codes "s") (c_step (codes "m") ∷ [])) ∷ [] else [])) }
{
    if remembers {
        args.push(state_place(alloc, "m")?)?;
    }
    Ok(())
}

/// Appends the place of whether the entry has ended.
fn add_end(alloc: Global, ends: bool, args: &mut List<CArg>) -> Result<(), NoMemory>
    ensures { OnOk result (args.new ≡ args.old ++ arg_where ends (Address (c_place false (codes "e") []))) }
{
    if ends {
        args.push(CArg::Address(whole(alloc, false, Text::copy_of(alloc, "e")?)))?;
    }
    Ok(())
}

/// The arguments with which a tick calls the entry.
fn args(alloc: Global, unit: &Unit, remembers: bool) -> Result<List<CArg>, NoMemory>
    ensures { IfOk result (λ args. args ≡ programs.tick_args unit.now remembers) }
{
    let mut args = single(alloc, state_place(alloc, "f")?)?;
    add_memory(alloc, remembers, &mut args)?;
    add_inputs(alloc, inputs(unit), &mut args)?;
    add_outputs(alloc, outputs(unit), &mut args)?;
    add_end(alloc, unit_may_end(unit), &mut args)?;
    Ok(args)
}

/// A tick returns the number.
fn returned(alloc: Global, n: i128) -> Result<CStmt, NoMemory>
    ensures { IfOk result (λ s. s ≡ c_return (Some (c_literal (Nat W32) n))) }
{
    returning(alloc, Some(literal(Scalar::Nat(Width::W32), n)))
}

/// It returns 1 where the entry has ended.
fn returned_where(alloc: Global, test: CExpr) -> Result<CStmt, NoMemory>
    ensures { IfOk result (λ s. s ≡ c_if test (programs.c_returned 1 ∷ []) None) }
{
    let body = single(alloc, returned(alloc, 1)?)?;
    choice(alloc, test, body, None)
}

/// What a tick returns behind the call of the entry.
fn answers(alloc: Global, unit: &Unit) -> Result<List<CStmt>, NoMemory>
    ensures { IfOk result (λ made. made ≡ stmt_where (unit_may_end unit.now) (c_if (c_read (c_place false (codes "e") [])) (programs.c_returned 1 ∷ []) None)
        ++ programs.c_returned 0 ∷ []) }
{
    let ended = read(whole(alloc, false, Text::copy_of(alloc, "e")?));
    let asked = returned_where(alloc, ended)?;
    let mut made = statement_where(alloc, unit_may_end(unit), asked)?;
    made.push(returned(alloc, 0)?)?;
    Ok(made)
}

/// The body of a tick.
fn body(alloc: Global, unit: &Unit, remembers: bool) -> Result<List<CStmt>, NoMemory>
    ensures { IfOk result (λ made. made ≡ (programs.tick_function unit.now remembers).body) }
{
    let name = prefixed(alloc, "a_", unit.name.as_str())?;
    let args = args(alloc, unit, remembers)?;
    let call = single(alloc, statement(CStmtKind::Call(CCall { name, args })))?;
    joined(call, answers(alloc, unit)?)
}

/// The parameters of a tick.
fn params(alloc: Global) -> Result<List<CParam>, NoMemory>
    ensures { IfOk result (λ made. made ≡ pointer_param (codes "s") (codes "bl_state")
        ∷ pointer_param (codes "i") (codes "bl_in") ∷ pointer_param (codes "o") (codes "bl_out") ∷ []) }
{
    let mut made = single(alloc, state_param(alloc)?)?;
    made.push(pointer(alloc, "i", Text::copy_of(alloc, "bl_in")?)?)?;
    made.push(pointer(alloc, "o", Text::copy_of(alloc, "bl_out")?)?)?;
    Ok(made)
}

/// The local of a tick that tells whether the entry has ended, where it may end.
fn locals(alloc: Global, ends: bool) -> Result<List<CLocal>, NoMemory>
    ensures { IfOk result (λ made. made ≡ programs.tick_locals ends) }
{
    if ends {
        single(alloc, local(Scalar::Bool, Text::copy_of(alloc, "e")?))
    } else {
        Ok(List::new(alloc))
    }
}

/// One tick: 1 where the entry has ended, else 0. Fails only if memory runs out.
pub fn tick(alloc: Global, unit: &Unit, remembers: bool) -> Result<CFunc, NoMemory>
    ensures { IfOk result (λ made. made ≡ programs.tick_function unit.now remembers) }
{
    let params = params(alloc)?;
    let locals = locals(alloc, unit_may_end(unit))?;
    let body = body(alloc, unit, remembers)?;
    Ok(CFunc {
        place: NOWHERE,
        fixed: false,
        result: Some(Scalar::Nat(Width::W32)),
        name: Text::copy_of(alloc, "bl_tick")?,
        params,
        locals,
        body,
    })
}
