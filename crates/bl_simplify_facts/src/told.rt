//! What a case tells of expressions and places.

ghost use Rattle.std.specs.Prelude.{◌≡◌, IfOk, MatchOption, Some, map, option_and_then, true};
ghost use Rattle.bl_ctext_semantics.specs.Builtin.{builtin_of};
ghost use Rattle.bl_simplify_laws.specs.Known.{all_numbers, exact as exact_in, fact_in, number_told, place_is, result_told, told};
ghost use Rattle.bl_simplify_facts.specs.Entries.{valuation};
ghost use Rattle.bl_simplify_facts.specs.inner.Told.{number_in};

use crate::casts::cast_fact;
use crate::comparisons::{compared, compares, exact, negated, only_at};
use crate::entries::Entry;
use crate::spots::{are_steady, fact_at, fact_of, spot_at};
use bl_simplify_laws::facts::{CSpot, Fact};
use bl_tree::c::{CArg, CExpr, CExprKind, CPlace};
use bl_tree::{NoMemory, Op};
use std::alloc::Global;

/// The number of an expression, where the case tells it.
pub fn number_of(known: &[Entry], e: &CExpr) -> Option<i128>
    ensures { result ≡ number_told e.now (valuation known.now) }
{
    exact(told_fact(known, e))
}

/// A fact of the value of an expression, where the case tells one.
#[cycle(telling)]
pub fn told_fact(known: &[Entry], e: &CExpr) -> Option<Fact>
    ensures { result ≡ (told e.now).fact (valuation known.now) }
{
    match &e.what {
        CExprKind::Literal(_, n) => Some(Fact::Is(*n)),
        CExprKind::Read(at) => fact_at(known, at),
        CExprKind::Call(call) => call_fact(known, &call.name, &call.args),
        CExprKind::Not(operand) => negated(told_fact(known, operand)),
        CExprKind::Two(Op::And, left, right) => match exact(told_fact(known, left)) {
            Some(1) => told_fact(known, right),
            Some(_) => Some(Fact::Is(0)),
            None => match only_at(0, told_fact(known, right)) {
                Some(fact) if is_valued(left) => Some(fact),
                _ => None,
            },
        },
        CExprKind::Two(Op::Or, left, right) => match exact(told_fact(known, left)) {
            Some(1) => Some(Fact::Is(1)),
            Some(_) => told_fact(known, right),
            None => match only_at(1, told_fact(known, right)) {
                Some(fact) if is_valued(left) => Some(fact),
                _ => None,
            },
        },
        CExprKind::Two(op, left, right) => {
            compared(*op, told_fact(known, left), exact(told_fact(known, right)))
        }
    }
}

/// The fact of a call: of a cast of a number that its type holds.
#[cycle(telling)]
fn call_fact(known: &[Entry], name: &str, args: &[CArg]) -> Option<Fact>
    ensures { result ≡ result_told (builtin_of name.now) (all_numbers (valuation known.now) (map number_in args.now)) }
{
    match args {
        [only] => cast_fact(name, arg_number(known, only)),
        _ => None,
    }
}

#[cycle(telling)]
fn arg_number(known: &[Entry], arg: &CArg) -> Option<i128>
    ensures { result ≡ number_in arg.now (valuation known.now) }
{
    match arg {
        CArg::Value(value) => exact(told_fact(known, value)),
        CArg::Address(_) => None,
    }
}

#[cycle(telling)]
fn is_valued(e: &CExpr) -> bool
    ensures { result ≡ (told e.now).total }
{
    match &e.what {
        CExprKind::Literal(_, _) => true,
        CExprKind::Read(at) => are_steady(&at.steps),
        CExprKind::Call(call) => call_fact(&[], &call.name, &call.args).is_some(),
        CExprKind::Not(operand) => is_valued(operand),
        CExprKind::Two(op, left, right) => { compares(*op) && is_valued(left) && is_valued(right) }
    }
}

/// The number of a spot, where the case tells it.
pub fn number_of_spot(known: &[Entry], spot: &CSpot) -> Option<i128>
    ensures { result ≡ option_and_then exact_in (fact_in spot.now (valuation known.now)) }
{
    exact(fact_of(known, spot))
}

/// Whether an expression surely has a value: no index stands in it, and no call but casts of what fits.
pub fn is_total(e: &CExpr) -> bool
    ensures { result ≡ true → (told e.now).total ≡ true }
{
    is_valued(e)
}

/// Whether no index stands in a place.
pub fn is_steady(at: &CPlace) -> bool
    ensures { result ≡ true → (place_is at.now).steady ≡ true }
{
    are_steady(&at.steps)
}

/// The spot that a place is, where it is one.
pub fn spot_of(alloc: Global, at: &CPlace) -> Result<Option<CSpot>, NoMemory>
    ensures { IfOk result (λ spot. MatchOption spot (Unit {0}) (λ it. (place_is at.now).spot ≡ Some it)) }
{
    spot_at(alloc, at)
}
