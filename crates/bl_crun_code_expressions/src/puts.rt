//! Single instructions of expressions, put before the code that follows them. They are put by functions that aren't inlined,
//! so one level of a nested expression takes little of the machine's stack.

ghost use Rattle.std.specs.Prelude.{◌≡◌, ◌∷◌, IfOk, length, OnOk, option_map};
ghost use Rattle.bl_tree.specs.declared.c.CCall.{out-CCall};
ghost use Rattle.bl_tree.specs.declared.c.CPlace.{CPlace as Place};
ghost use Rattle.bl_ctext_semantics_laws.specs.Reaching.{Ground};
ghost use Rattle.bl_crun_code.specs.declared.instruction.Act.TheVariants as act;
ghost use Rattle.bl_crun_code.specs.Code.{arg_code, depth_behind, expr_valued, FunctionEntry, known_call, uncounted};
ghost use Rattle.bl_crun_code_layout.specs.Views.{ground_of};
ghost use Rattle.bl_crun_code_expressions.specs.Parts.{is_fetched, IsPair, pair_act, taken, walk_ready};

use crate::calling::calling;
use crate::front::Front;
use crate::mode::Mode;
use crate::operand::{
    arg_operand, arg_pair_of, is_read, pair_of, place_operand, taken_at, value_operand,
};
use bl_crun_code::instruction::{Act, Operand};
use bl_crun_code_layout::here::Here;
use bl_crun_code_layout::place::{IndexTerm, Walk};
use bl_ctext::Builtin;
use bl_tree::c::{CArg, CCall, CExpr};
use bl_tree::{NoMemory, Op};

/// Puts the instruction that writes a negation.
#[inline(never)]
pub fn put_negation(
    here: &Here<'_, '_>,
    code: &mut Front,
    of: &CExpr,
    mode: Mode,
    into: Operand,
) -> Result<(), NoMemory>
    ensures { OnOk result (code.new ≡ uncounted (act.Negate into ((expr_valued of.now (ground_of here.now)).ready mode.late mode.depth).it) ∷ code.old) }
{
    let a = value_operand(here, of, mode)?;
    code.put(Act::Negate(into, a))
}

/// Puts the instruction that writes what an operator gives, and tells how its right side is compiled.
#[inline(never)]
pub fn put_operator(
    here: &Here<'_, '_>,
    code: &mut Front,
    op: Op,
    left: &CExpr,
    right: &CExpr,
    mode: Mode,
    into: Operand,
) -> Result<Mode, NoMemory>
    ensures code { OnOk result (code.new ≡ uncounted (pair_act (expr_valued left.now (ground_of here.now)) (expr_valued right.now (ground_of here.now))
        mode.late mode.depth (λ a b. act.Two op into a b)) ∷ code.old) }
    ensures late { IfOk result (λ m. m.late ≡ mode.late) }
    ensures depth { IfOk result (λ m. m.depth ≡ depth_behind mode.depth ((expr_valued left.now (ground_of here.now)).ready mode.late mode.depth).it) }
{
    let pair = pair_of(here, left, right, mode)?;
    code.put(Act::Two(op, into, pair.left, pair.right))?;
    Ok(pair.second)
}

/// Puts the instruction that tests what a comparison gives, and tells how its right side is compiled.
#[inline(never)]
pub fn put_comparison(
    here: &Here<'_, '_>,
    code: &mut Front,
    op: Op,
    left: &CExpr,
    right: &CExpr,
    mode: Mode,
    hold: u32,
    fail: u32,
) -> Result<Mode, NoMemory>
    ensures code { OnOk result (code.new ≡ uncounted (pair_act (expr_valued left.now (ground_of here.now)) (expr_valued right.now (ground_of here.now))
        mode.late mode.depth (λ a b. act.Compare op a b hold fail)) ∷ code.old) }
    ensures late { IfOk result (λ m. m.late ≡ mode.late) }
    ensures depth { IfOk result (λ m. m.depth ≡ depth_behind mode.depth ((expr_valued left.now (ground_of here.now)).ready mode.late mode.depth).it) }
{
    let pair = pair_of(here, left, right, mode)?;
    code.put(Act::Compare(op, pair.left, pair.right, hold, fail))?;
    Ok(pair.second)
}

/// Puts the instruction that tests a value.
#[inline(never)]
pub fn put_test(
    here: &Here<'_, '_>,
    code: &mut Front,
    e: &CExpr,
    mode: Mode,
    hold: u32,
    fail: u32,
) -> Result<(), NoMemory>
    ensures { OnOk result (code.new ≡ uncounted (act.Test ((expr_valued e.now (ground_of here.now)).ready mode.late mode.depth).it hold fail) ∷ code.old) }
{
    let a = value_operand(here, e, mode)?;
    code.put(Act::Test(a, hold, fail))
}

/// Puts the instruction that takes the element which an expression chooses, once that has its value.
#[inline(never)]
pub fn put_element(
    here: &Here<'_, '_>,
    code: &mut Front,
    e: &CExpr,
    term: IndexTerm,
    base: Operand,
    depth: u32,
    behind: Mode,
) -> Result<(), NoMemory>
    ensures { OnOk result (code.new ≡ uncounted (act.Element depth base ((expr_valued e.now (ground_of here.now)).ready behind.late behind.depth).it
        term.length term.size) ∷ code.old) }
{
    let a = value_operand(here, e, behind)?;
    code.put(Act::Element(depth, base, a, term.length, term.size))
}

/// Puts the instruction that writes what is seen at a place.
#[inline(never)]
pub fn put_seen(
    code: &mut Front,
    walk: &Walk<'_>,
    address: bool,
    mode: Mode,
    into: Operand,
) -> Result<(), NoMemory>
    ensures { OnOk result ((here : Ground FunctionEntry) (at : Place) → code.new
        ≡ uncounted (act.Move into (taken (is_fetched address (option_map (λ t. t.now) walk.now.ty)) (walk_ready here at walk.now mode.late mode.depth).it))
        ∷ code.old) }
{
    let a = taken_at(is_read(walk, address), place_operand(walk, mode));
    code.put(Act::Move(into, a))
}

/// Puts the instruction of a function of the prelude with one argument.
#[inline(never)]
pub fn put_one(
    here: &Here<'_, '_>,
    code: &mut Front,
    builtin: Builtin,
    only: &CArg,
    mode: Mode,
    into: Operand,
) -> Result<(), NoMemory>
    ensures { OnOk result (code.new ≡ uncounted (act.One builtin into ((arg_code only.now (ground_of here.now)).ready mode.late mode.depth).it) ∷ code.old) }
{
    let a = arg_operand(here, only, mode)?;
    code.put(Act::One(builtin, into, a))
}

/// Puts the instruction of a function of the prelude with two arguments, and tells how the second one is compiled.
#[inline(never)]
pub fn put_both(
    here: &Here<'_, '_>,
    code: &mut Front,
    builtin: Builtin,
    first: &CArg,
    second: &CArg,
    mode: Mode,
    into: Operand,
) -> Result<Mode, NoMemory>
    ensures code { OnOk result (code.new ≡ uncounted (pair_act (arg_code first.now (ground_of here.now)) (arg_code second.now (ground_of here.now))
        mode.late mode.depth (λ a b. act.Both builtin into a b)) ∷ code.old) }
    ensures late { IfOk result (λ m. m.late ≡ mode.late) }
    ensures depth { IfOk result (λ m. m.depth ≡ depth_behind mode.depth ((arg_code first.now (ground_of here.now)).ready mode.late mode.depth).it) }
{
    let pair = arg_pair_of(here, first, second, mode)?;
    code.put(Act::Both(builtin, into, pair.left, pair.right))?;
    Ok(pair.second)
}

/// Puts the instruction of a call of a function of the file.
#[inline(never)]
pub fn put_call(
    here: &Here<'_, '_>,
    code: &mut Front,
    called: &CCall,
    mode: Mode,
    into: Operand,
) -> Result<(), NoMemory>
    ensures { OnOk result (code.new ≡ uncounted (known_call (ground_of here.now) mode.depth (length (out-CCall called.now).args) into
        ((ground_of here.now).known (out-CCall called.now).name)) ∷ code.old) }
{
    let does = calling(here, &called.name, called.args.len(), mode, into)?;
    code.put(does)
}
