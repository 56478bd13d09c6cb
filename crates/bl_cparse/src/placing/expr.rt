//! Places of expressions. Each function goes behind the tokens of its part.

ghost use Rattle.std.specs.Prelude.{◌≡◌, ℕ, ◌<ℤ◌, pos, List, [], ◌∷◌, ◌++◌, codes, length, map, option_map, true};
ghost use Rattle.std.specs.Fmt.{decimal};
ghost use Rattle.bl_ctext.specs.Spelling.{arg_tokens, comma_before, ccall_tokens, expr_tokens, index_front, index_tokens, kind_tokens};
ghost use Rattle.bl_ctext.specs.Spelling.{literal_tokens, place_tokens, root_tokens, step_tokens};
ghost use Rattle.bl_ctext.specs.Spellable.{spells_arg, spells_call, spells_expr, spells_index, spells_kind, spells_place, spells_step};
ghost use Rattle.bl_cparse.specs.HasPlaces.{arg_walk, behind_tokens, call_walk, expr_walk, if_there, in_list, in_turn, index_walk, kind_walk, place_walk};
ghost use Rattle.bl_cparse.specs.HasPlaces.{step_walk};

use crate::parser::literal::negatives_of;
use crate::placing::spot::Spot;
use bl_tree::c::{CArg, CCall, CExpr, CExprKind, CIndex, CPlace, CStep};
use bl_tree::{Box, List, Scalar, Width};

#[cycle(placed_expressions)]
pub fn expr(spot: &mut Spot<'_>, e: &mut CExpr)
    ensures places { expr_walk e.new spot.old ≡ (e.new, spot.new) }
    ensures tokens { expr_tokens e.new ≡ expr_tokens e.old }
    ensures spells { spells_expr e.new ≡ spells_expr e.old }
{
    let start = spot.start();
    kind(spot, &mut e.what);
    e.place = spot.place_from(start);
}

#[cycle(placed_expressions)]
fn kind(spot: &mut Spot<'_>, what: &mut CExprKind)
    ensures places { kind_walk what.new spot.old ≡ (what.new, spot.new) }
    ensures tokens { kind_tokens what.new ≡ kind_tokens what.old }
    ensures spells { spells_kind what.new ≡ spells_kind what.old }
{
    match what {
        CExprKind::Literal(scalar, _) => {
            let scalar = *scalar;
            if let CExprKind::Literal(_, n) = what {
                spot.skip(literal_length(scalar, *n));
            }
        }
        CExprKind::Read(at) => place(spot, at),
        CExprKind::Call(called) => call(spot, called),
        CExprKind::Not(operand) => {
            spot.pass();
            spot.pass();
            expr(spot, operand);
            spot.pass();
        }
        CExprKind::Two(_, left, right) => {
            spot.pass();
            expr(spot, left);
            spot.pass();
            expr(spot, right);
            spot.pass();
        }
    }
}

/// How many tokens a literal has.
fn literal_length(scalar: Scalar, n: i128) -> usize
    ensures { length (literal_tokens scalar n) ≡ result }
{
    match scalar {
        Scalar::Bool => { if n < 0 { 0 } else { 1 } }
        Scalar::Int(width) => { if n < 0 { negative_length(width, n) } else { 4 } }
        Scalar::Nat(_) => { if n < 0 { 0 } else { 4 } }
        Scalar::Bits(_) => 0,
    }
}

/// The same of a negative one.
fn negative_length(width: Width, n: i128) -> usize
    requires { n <ℤ pos 0 }
    ensures { length (literal_tokens (Scalar.Int width) n) ≡ result }
{
    if n == -(negatives_of(width) as i128) {
        1
    } else {
        7
    }
}

#[cycle(placed_expressions)]
pub fn place(spot: &mut Spot<'_>, at: &mut CPlace)
    ensures places { place_walk at.new spot.old ≡ (at.new, spot.new) }
    ensures tokens { place_tokens at.new ≡ place_tokens at.old }
    ensures spells { spells_place at.new ≡ spells_place at.old }
{
    root(spot, at.through);
    steps(spot, &mut at.steps);
}

/// Behind what a place begins with.
fn root(spot: &mut Spot<'_>, through: bool)
    ensures { (name : List ℕ) → spot.new ≡ behind_tokens (root_tokens through name) spot.old }
{
    if through {
        spot.skip(4);
    } else {
        spot.pass();
    }
}

#[cycle(placed_expressions)]
fn steps(spot: &mut Spot<'_>, steps: &mut List<CStep>)
    ensures places { in_turn (map step_walk steps.new) spot.old ≡ (steps.new, spot.new) }
    ensures tokens { map step_tokens steps.new ≡ map step_tokens steps.old }
    ensures spells { map spells_step steps.new ≡ map spells_step steps.old }
{
    for k in 0..steps.len() {
        step(spot, steps.get_mut(k));
    }
}

#[cycle(placed_expressions)]
fn step(spot: &mut Spot<'_>, step: &mut CStep)
    ensures places { step_walk step.new spot.old ≡ (step.new, spot.new) }
    ensures tokens { step_tokens step.new ≡ step_tokens step.old }
    ensures spells { spells_step step.new ≡ spells_step step.old }
{
    spot.pass();
    spot.pass();
    maybe_index(spot, &mut step.index);
}

#[cycle(placed_expressions)]
fn maybe_index(spot: &mut Spot<'_>, index: &mut Option<Box<CIndex>>)
    ensures places { if_there (option_map index_walk index.new) spot.old ≡ (index.new, spot.new) }
    ensures tokens { option_map index_tokens index.new ≡ option_map index_tokens index.old }
    ensures spells { option_map spells_index index.new ≡ option_map spells_index index.old }
{
    if let Some(inside) = index {
        crate::placing::expr::index(spot, inside);
    }
}

#[cycle(placed_expressions)]
fn index(spot: &mut Spot<'_>, index: &mut CIndex)
    ensures places { index_walk index.new spot.old ≡ (index.new, spot.new) }
    ensures tokens { index_tokens index.new ≡ index_tokens index.old }
    ensures spells { spells_index index.new ≡ spells_index index.old }
{
    index_front(spot, index.signed);
    expr(spot, &mut index.at);
    index_rest(spot, index.length);
}

/// Behind the front of an index, which has as many tokens for each function that takes one.
fn index_front(spot: &mut Spot<'_>, signed: bool)
    ensures { spot.new ≡ behind_tokens (index_front signed) spot.old }
{
    spot.skip(3);
}

/// Behind what follows the expression of an index.
fn index_rest(spot: &mut Spot<'_>, length: u32)
    ensures { spot.new ≡ behind_tokens (codes "," ∷ decimal length ∷ codes ")" ∷ codes "]" ∷ []) spot.old }
{
    spot.skip(4);
}

#[cycle(placed_expressions)]
pub fn call(spot: &mut Spot<'_>, call: &mut CCall)
    ensures places { call_walk call.new spot.old ≡ (call.new, spot.new) }
    ensures tokens { ccall_tokens call.new ≡ ccall_tokens call.old }
    ensures spells { spells_call call.new ≡ spells_call call.old }
{
    spot.pass();
    spot.pass();
    args(spot, &mut call.args);
    spot.pass();
}

/// Behind the comma before a part that isn't the first.
pub fn comma(spot: &mut Spot<'_>, first: bool)
    ensures { spot.new ≡ behind_tokens (comma_before first) spot.old }
{
    if !first {
        spot.pass();
    }
}

#[cycle(placed_expressions)]
fn args(spot: &mut Spot<'_>, args: &mut List<CArg>)
    ensures places { in_list true (map arg_walk args.new) spot.old ≡ (args.new, spot.new) }
    ensures tokens { map arg_tokens args.new ≡ map arg_tokens args.old }
    ensures spells { map spells_arg args.new ≡ map spells_arg args.old }
{
    for k in 0..args.len() {
        comma(spot, k == 0);
        arg(spot, args.get_mut(k));
    }
}

#[cycle(placed_expressions)]
fn arg(spot: &mut Spot<'_>, arg: &mut CArg)
    ensures places { arg_walk arg.new spot.old ≡ (arg.new, spot.new) }
    ensures tokens { arg_tokens arg.new ≡ arg_tokens arg.old }
    ensures spells { spells_arg arg.new ≡ spells_arg arg.old }
{
    match arg {
        CArg::Value(value) => expr(spot, value),
        CArg::Address(at) => {
            spot.pass();
            place(spot, at);
        }
    }
}
