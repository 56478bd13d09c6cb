//! The places in expressions.

ghost use Rattle.std.specs.Prelude.{◌≡◌, ◌∷◌, ◌++◌, [], map, OnOk};
ghost use Rattle.bl_tree.specs.Reduce.{joined};
ghost use Rattle.bl_ctext_places.specs.Lists.{inside_step, path_of};
ghost use Rattle.bl_ctext_places.specs.Places.{places_in, places_in_arg, places_in_call, places_in_place};

use bl_tree::NoMemory;
use bl_tree::c::{CArg, CCall, CExpr, CExprKind, CPlace, CStep};

/// Lists one more place.
fn add<'a>(found: &mut Vec<&'a CPlace>, place: &'a CPlace) -> Result<(), NoMemory>
    ensures { OnOk result (map (λ p. path_of p.now) found.new.items ≡ map (λ p. path_of p.now) found.old.items ++ path_of place.now ∷ []) }
{
    match found.push(place) {
        Ok(()) => Ok(()),
        Err(_) => Err(NoMemory),
    }
}

/// Lists the places in an expression.
#[cycle(listing)]
pub fn in_expr<'a>(found: &mut Vec<&'a CPlace>, e: &'a CExpr) -> Result<(), NoMemory>
    ensures { OnOk result (map (λ p. path_of p.now) found.new.items ≡ map (λ p. path_of p.now) found.old.items ++ places_in e.now) }
{
    match &e.what {
        CExprKind::Literal(_, _) => Ok(()),
        CExprKind::Read(place) => in_place(found, place),
        CExprKind::Call(call) => in_call(found, call),
        CExprKind::Not(operand) => in_expr(found, operand),
        CExprKind::Two(_, left, right) => {
            in_expr(found, left)?;
            in_expr(found, right)
        }
    }
}

/// Lists a place, and those in its indices.
#[cycle(listing)]
pub fn in_place<'a>(found: &mut Vec<&'a CPlace>, place: &'a CPlace) -> Result<(), NoMemory>
    ensures { OnOk result (map (λ p. path_of p.now) found.new.items ≡ map (λ p. path_of p.now) found.old.items ++ places_in_place place.now) }
{
    add(found, place)?;
    in_indices(found, &place.steps)
}

/// Lists the places in the indices of steps.
#[cycle(listing)]
pub fn in_indices<'a>(found: &mut Vec<&'a CPlace>, steps: &'a [CStep]) -> Result<(), NoMemory>
    ensures { OnOk result (map (λ p. path_of p.now) found.new.items ≡ map (λ p. path_of p.now) found.old.items ++ joined (map inside_step steps.now)) }
{
    for step in steps {
        in_step(found, step)?;
    }
    Ok(())
}

#[cycle(listing)]
fn in_step<'a>(found: &mut Vec<&'a CPlace>, step: &'a CStep) -> Result<(), NoMemory>
    ensures { OnOk result (map (λ p. path_of p.now) found.new.items ≡ map (λ p. path_of p.now) found.old.items ++ inside_step step.now) }
{
    match &step.index {
        Some(index) => in_expr(found, &index.at),
        None => Ok(()),
    }
}

/// Lists the places in the arguments of a call.
#[cycle(listing)]
pub fn in_call<'a>(found: &mut Vec<&'a CPlace>, call: &'a CCall) -> Result<(), NoMemory>
    ensures { OnOk result (map (λ p. path_of p.now) found.new.items ≡ map (λ p. path_of p.now) found.old.items ++ places_in_call call.now) }
{
    for arg in call.args.as_slice() {
        in_arg(found, arg)?;
    }
    Ok(())
}

#[cycle(listing)]
fn in_arg<'a>(found: &mut Vec<&'a CPlace>, arg: &'a CArg) -> Result<(), NoMemory>
    ensures { OnOk result (map (λ p. path_of p.now) found.new.items ≡ map (λ p. path_of p.now) found.old.items ++ places_in_arg arg.now) }
{
    match arg {
        CArg::Value(value) => in_expr(found, value),
        CArg::Address(place) => in_place(found, place),
    }
}
