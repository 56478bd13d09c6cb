//! Expressions, places and calls.

ghost use Rattle.std.specs.Prelude.{◌≡◌, [], ◌∷◌, ◌++◌, codes, IsTrue, OnOk};
ghost use Rattle.bl_ctext.specs.Names.{is_name};
ghost use Rattle.bl_ctext.specs.Spelling.{comma_before, operator_sign, root_tokens, index_front, expr_tokens, kind_tokens, place_tokens, step_tokens};
ghost use Rattle.bl_ctext.specs.Spelling.{index_tokens, ccall_tokens, arg_tokens};
ghost use Rattle.bl_ctext.specs.Spellable.{is_c_operator, spells_expr, spells_place, spells_step, spells_index, spells_call, spells_arg};

use crate::printer::{literal, name};
use crate::writer::Writer;
use bl_tree::c::{CArg, CCall, CExpr, CExprKind, CIndex, CPlace, CStep};
use bl_tree::{NoMemory, Op};

#[cycle(expressions)]
pub fn expr(out: &mut Writer, e: &CExpr) -> Result<(), NoMemory>
    requires { IsTrue (spells_expr e.now) }
    ensures { OnOk result (out.new ≡ out.old ++ expr_tokens e.now) }
{
    match &e.what {
        CExprKind::Literal(scalar, n) => literal::literal(out, *scalar, *n),
        CExprKind::Read(at) => place(out, at),
        CExprKind::Call(called) => call(out, called),
        CExprKind::Not(operand) => {
            out.piece("(!")?;
            closed(out, operand)
        }
        CExprKind::Two(op, left, right) => {
            opened(out, left)?;
            operator(out, *op)?;
            closed(out, right)
        }
    }
}

/// The first operand of two, behind their `(`.
#[cycle(expressions)]
fn opened(out: &mut Writer, operand: &CExpr) -> Result<(), NoMemory>
    requires { IsTrue (spells_expr operand.now) }
    ensures { OnOk result (out.new ≡ out.old ++ codes "(" ∷ expr_tokens operand.now) }
{
    out.byte(b'(')?;
    expr(out, operand)
}

/// The last operand, before its `)`.
#[cycle(expressions)]
fn closed(out: &mut Writer, operand: &CExpr) -> Result<(), NoMemory>
    requires { IsTrue (spells_expr operand.now) }
    ensures { OnOk result (out.new ≡ out.old ++ (expr_tokens operand.now ++ codes ")" ∷ [])) }
{
    expr(out, operand)?;
    out.byte(b')')
}

#[cycle(expressions)]
pub fn place(out: &mut Writer, at: &CPlace) -> Result<(), NoMemory>
    requires { IsTrue (spells_place at.now) }
    ensures { OnOk result (out.new ≡ out.old ++ place_tokens at.now) }
{
    root(out, at.through, at.name.as_str())?;
    for step in at.steps.iter() {
        member(out, step)?;
    }
    Ok(())
}

#[cycle(expressions)]
fn member(out: &mut Writer, step: &CStep) -> Result<(), NoMemory>
    requires { IsTrue (spells_step step.now) }
    ensures { OnOk result (out.new ≡ out.old ++ step_tokens step.now) }
{
    out.byte(b'.')?;
    name::name(out, step.member.as_str())?;
    match &step.index {
        Some(taken) => index(out, taken),
        None => Ok(()),
    }
}

#[cycle(expressions)]
fn index(out: &mut Writer, taken: &CIndex) -> Result<(), NoMemory>
    requires { IsTrue (spells_index taken.now) }
    ensures { OnOk result (out.new ≡ out.old ++ index_tokens taken.now) }
{
    index_function(out, taken.signed)?;
    expr(out, &taken.at)?;
    out.piece(", ")?;
    literal::number(out, taken.length as u64)?;
    out.piece(")]")
}

#[cycle(expressions)]
pub fn call(out: &mut Writer, called: &CCall) -> Result<(), NoMemory>
    requires { IsTrue (spells_call called.now) }
    ensures { OnOk result (out.new ≡ out.old ++ ccall_tokens called.now) }
{
    name::callee(out, called.name.as_str())?;
    out.byte(b'(')?;
    let mut first = true;
    for arg in called.args.iter() {
        comma(out, first)?;
        first = false;
        argument(out, arg)?;
    }
    out.byte(b')')
}

#[cycle(expressions)]
fn argument(out: &mut Writer, arg: &CArg) -> Result<(), NoMemory>
    requires { IsTrue (spells_arg arg.now) }
    ensures { OnOk result (out.new ≡ out.old ++ arg_tokens arg.now) }
{
    match arg {
        CArg::Value(value) => expr(out, value),
        CArg::Address(at) => {
            out.write("&")?;
            place(out, at)
        }
    }
}

/// The sign between two operands, with a space on either side.
fn operator(out: &mut Writer, op: Op) -> Result<(), NoMemory>
    requires { IsTrue (is_c_operator op) }
    ensures { OnOk result (out.new ≡ out.old ++ operator_sign op ∷ []) }
{
    out.piece(literal::operator_name(op))
}

/// What a place begins with.
fn root(out: &mut Writer, through: bool, name: &str) -> Result<(), NoMemory>
    requires { IsTrue (is_name name.now) }
    ensures { OnOk result (out.new ≡ out.old ++ root_tokens through name.now) }
{
    if !through {
        return name::name(out, name);
    }
    out.piece("(*")?;
    name::name(out, name)?;
    out.byte(b')')
}

fn index_function(out: &mut Writer, signed: bool) -> Result<(), NoMemory>
    ensures { OnOk result (out.new ≡ out.old ++ index_front signed) }
{
    out.piece(if signed { "[bl_ix_s(" } else { "[bl_ix_u(" })
}

/// What stands before a part of a list: nothing before the first.
pub fn comma(out: &mut Writer, first: bool) -> Result<(), NoMemory>
    ensures { OnOk result (out.new ≡ out.old ++ comma_before first) }
{
    if first { Ok(()) } else { out.piece(", ") }
}
