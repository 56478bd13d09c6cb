//! Operands, which are known before the code that makes them, and the code of what has no parts.

ghost use Rattle.std.specs.Prelude.{◌≡◌, ◌++◌, IfOk, OnOk, option_map, pos};
ghost use Rattle.bl_tree.specs.declared.c.CPlace.{CPlace as Place};
ghost use Rattle.bl_ctext_semantics_laws.specs.Reaching.{Ground};
ghost use Rattle.bl_crun_code.specs.Code.{address_in, arg_code, expr_valued, FunctionEntry, literal_valued, number_ready, reach_of_place, start_ready};
ghost use Rattle.bl_crun_code_layout.specs.Views.{ground_of};
ghost use Rattle.bl_crun_code_expressions.specs.Parts.{base_at, element_code, is_fetched, IsPair, seen, taken, term_with, walk_ready};

use crate::front::Front;
use crate::mode::Mode;
use bl_crun_code::instruction::{Act, Operand};
use bl_crun_code_layout::here::Here;
use bl_crun_code_layout::place::{IndexTerm, Walk, walk_to};
use bl_tree::NoMemory;
use bl_tree::c::{CArg, CExpr, CExprKind, CPlace, CType};

/// The operand of a number.
fn number_operand(n: i128, mode: Mode) -> Operand
    ensures { result ≡ (number_ready n mode.depth).it }
{
    match i32::try_from(n) {
        Ok(small) => Operand::Literal(small),
        Err(_) => Operand::Temporary(mode.depth),
    }
}

/// The code behind which the operand of a number has that number.
pub fn number_code(code: &mut Front, n: i128, mode: Mode) -> Result<(), NoMemory>
    ensures { OnOk result (code.new ≡ (number_ready n mode.depth).code ++ code.old) }
{
    match i32::try_from(n) {
        Ok(_) => Ok(()),
        Err(_) => code.put(Act::Constant(Operand::Temporary(mode.depth), n)),
    }
}

/// The operand that has the number of the cell at which another one is read or written.
pub fn address_of(operand: Operand) -> Operand
    ensures { result ≡ address_in operand }
{
    match operand {
        Operand::Near(k) => Operand::NearAddress(k),
        Operand::Through(p, k) => Operand::ThroughAddress(p, k),
        Operand::Indirect(j) => Operand::Temporary(j),
        other => other,
    }
}

/// The operand of a place without indices, once it stands.
fn settled_operand(start: Operand, mode: Mode) -> Operand
    ensures { result ≡ (start_ready mode.late mode.depth start).it }
{
    match start {
        Operand::Through(_, _) if !mode.late => Operand::Indirect(mode.depth),
        other => other,
    }
}

/// The code behind which a place without indices stands.
pub fn start_code(code: &mut Front, start: Operand, mode: Mode) -> Result<(), NoMemory>
    ensures { OnOk result (code.new ≡ (start_ready mode.late mode.depth start).code ++ code.old) }
{
    match start {
        Operand::Through(p, k) if !mode.late => code.put(Act::Move(
            Operand::Temporary(mode.depth),
            Operand::ThroughAddress(p, k),
        )),
        _ => Ok(()),
    }
}

/// The operand that has the number of the cell from which an index of a place is taken.
pub fn base_of_term(k: usize, start: Operand, mode: Mode) -> Operand
    ensures { result ≡ base_at k mode.late mode.depth start }
{
    if k == 0 {
        address_of(settled_operand(start, mode))
    } else {
        Operand::Temporary(mode.depth)
    }
}

/// The code behind which the first element is taken, from the cell whose number an operand has.
pub fn first_element(
    code: &mut Front,
    term: IndexTerm,
    base: Operand,
    mode: Mode,
) -> Result<(), NoMemory>
    ensures { OnOk result (code.new ≡ element_code mode.late mode.depth base (term_with term (literal_valued (pos 0))) ++ code.old) }
{
    let first = Operand::Literal(0);
    code.put(Act::Element(mode.depth, base, first, term.length, term.size))
}

/// The operand of a place that was walked to.
pub fn place_operand(walk: &Walk<'_>, mode: Mode) -> Operand
    ensures { (here : Ground FunctionEntry) (at : Place) → result ≡ (walk_ready here at walk.now mode.late mode.depth).it }
{
    if walk.terms.is_empty() {
        settled_operand(walk.start, mode)
    } else {
        Operand::Indirect(mode.depth)
    }
}

/// Whether what stands at a place is read there, and isn't told by the number of its first cell.
pub fn is_read(walk: &Walk<'_>, address: bool) -> bool
    ensures { result ≡ is_fetched address (option_map (λ t. t.now) walk.now.ty) }
{
    match walk.ty {
        Some(CType::Scalar(_)) => !address,
        _ => false,
    }
}

/// What is read at the operand of a place, or the number of its first cell.
pub fn taken_at(fetched: bool, operand: Operand) -> Operand
    ensures { result ≡ taken fetched operand }
{
    if fetched {
        operand
    } else {
        address_of(operand)
    }
}

/// The operand of what is seen at a place.
fn seen_operand(
    here: &Here<'_, '_>,
    at: &CPlace,
    address: bool,
    mode: Mode,
) -> Result<Operand, NoMemory>
    ensures { IfOk result (λ o. o ≡ ((seen address (reach_of_place at.now (ground_of here.now))).ready mode.late mode.depth).it) }
{
    let walk = walk_to(here, at)?;
    let fetched = is_read(&walk, address);
    if fetched && !mode.late {
        Ok(Operand::Temporary(mode.depth))
    } else {
        Ok(taken_at(fetched, place_operand(&walk, mode)))
    }
}

/// The operand of a value.
pub fn value_operand(here: &Here<'_, '_>, e: &CExpr, mode: Mode) -> Result<Operand, NoMemory>
    ensures { IfOk result (λ o. o ≡ ((expr_valued e.now (ground_of here.now)).ready mode.late mode.depth).it) }
{
    match &e.what {
        CExprKind::Literal(_, n) => Ok(number_operand(*n, mode)),
        CExprKind::Read(at) => seen_operand(here, at, false, mode),
        _ => Ok(Operand::Temporary(mode.depth)),
    }
}

/// The operand of an argument.
pub fn arg_operand(here: &Here<'_, '_>, arg: &CArg, mode: Mode) -> Result<Operand, NoMemory>
    ensures { IfOk result (λ o. o ≡ ((arg_code arg.now (ground_of here.now)).ready mode.late mode.depth).it) }
{
    match arg {
        CArg::Value(e) => value_operand(here, e, mode),
        CArg::Address(at) => seen_operand(here, at, true, mode),
    }
}

/// The operands of two values, and how the second is compiled.
#[derive(Clone, Copy)]
pub struct Pair {
    pub left: Operand,
    pub right: Operand,
    pub second: Mode,
}

/// The operands of two values, the left one first.
pub fn pair_of(
    here: &Here<'_, '_>,
    first: &CExpr,
    second: &CExpr,
    mode: Mode,
) -> Result<Pair, NoMemory>
    ensures { IfOk result (λ p. IsPair (expr_valued first.now (ground_of here.now)) (expr_valued second.now (ground_of here.now))
        mode.late mode.depth p) }
{
    let left = value_operand(here, first, mode)?;
    let behind = mode.behind(left)?;
    let right = value_operand(here, second, behind)?;
    Ok(Pair {
        left,
        right,
        second: behind,
    })
}

/// The operands of two arguments, the left one first.
pub fn arg_pair_of(
    here: &Here<'_, '_>,
    first: &CArg,
    second: &CArg,
    mode: Mode,
) -> Result<Pair, NoMemory>
    ensures { IfOk result (λ p. IsPair (arg_code first.now (ground_of here.now)) (arg_code second.now (ground_of here.now))
        mode.late mode.depth p) }
{
    let left = arg_operand(here, first, mode)?;
    let behind = mode.behind(left)?;
    let right = arg_operand(here, second, behind)?;
    Ok(Pair {
        left,
        right,
        second: behind,
    })
}
