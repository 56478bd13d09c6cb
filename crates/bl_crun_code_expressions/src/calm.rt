//! Whether expressions call no function of the file, so that the operands around them may be read late. Each search ends
//! at the first such call, so asking for the arguments of every call takes linear time.

ghost use Rattle.std.specs.Prelude.{◌≡◌, IfOk, map};
ghost use Rattle.std.specs.List.{list_all};
ghost use Rattle.bl_tree.specs.declared.c.CPlace.{out-CPlace};
ghost use Rattle.bl_crun_code.specs.Code.{arg_code, args_calm, code_of_call, expr_valued, reach_calm, reach_of_place};
ghost use Rattle.bl_crun_code_layout.specs.Places.{term_of};
ghost use Rattle.bl_crun_code_layout.specs.Views.{ground_of};
ghost use Rattle.bl_crun_code_expressions.specs.Parts.{args_of};

use bl_crun_code_layout::here::Here;
use bl_crun_code_layout::place::{IndexTerm, Walk, walk_to};
use bl_tree::NoMemory;
use bl_tree::c::{CArg, CCall, CExpr, CExprKind, CPlace, CStep};

/// Whether an expression calls no function of the file.
#[cycle(calmness)]
pub fn is_calm(here: &Here<'_, '_>, e: &CExpr) -> Result<bool, NoMemory>
    ensures { IfOk result (λ b. b ≡ (expr_valued e.now (ground_of here.now)).calm) }
{
    match &e.what {
        CExprKind::Literal(_, _) => Ok(true),
        CExprKind::Read(at) => is_place_calm(here, at),
        CExprKind::Call(called) => is_call_calm(here, called),
        CExprKind::Not(of) => is_calm(here, of),
        CExprKind::Two(_, left, right) => {
            if is_calm(here, left)? {
                is_calm(here, right)
            } else {
                Ok(false)
            }
        }
    }
}

/// Whether the indices of a place call no function of the file.
#[cycle(calmness)]
fn is_place_calm(here: &Here<'_, '_>, at: &CPlace) -> Result<bool, NoMemory>
    ensures { IfOk result (λ b. b ≡ reach_calm (reach_of_place at.now (ground_of here.now))) }
{
    let walk = walk_to(here, at)?;
    is_walk_calm(here, at, &walk)
}

/// Whether the indices of a place that was walked to call no function of the file.
#[cycle(calmness)]
pub fn is_walk_calm(here: &Here<'_, '_>, at: &CPlace, walk: &Walk<'_>) -> Result<bool, NoMemory>
    ensures { IfOk result (λ b. b ≡ list_all (λ term. term.index.calm) (map (term_of (ground_of here.now) (out-CPlace at.now).steps) walk.now.terms.items)) }
{
    for term in walk.terms.iter() {
        if !is_term_calm(here, at, *term)? {
            return Ok(false);
        }
    }
    Ok(true)
}

#[cycle(calmness)]
fn is_term_calm(here: &Here<'_, '_>, at: &CPlace, term: IndexTerm) -> Result<bool, NoMemory>
    ensures { IfOk result (λ b. b ≡ (term_of (ground_of here.now) (out-CPlace at.now).steps term).index.calm) }
{
    match at.steps.get(term.step) {
        Some(
            CStep {
                index: Some(index),
                ..
            },
        ) => is_calm(here, &index.at),
        _ => Ok(true),
    }
}

/// Whether a call is one of the prelude, and its arguments call no function of the file.
#[cycle(calmness)]
pub fn is_call_calm(here: &Here<'_, '_>, called: &CCall) -> Result<bool, NoMemory>
    ensures { IfOk result (λ b. b ≡ (code_of_call called.now (ground_of here.now)).calm) }
{
    match here.builtins.find(&called.name) {
        Some(_) => are_args_calm(here, &called.args),
        None => Ok(false),
    }
}

/// Whether arguments call no function of the file.
#[cycle(calmness)]
pub fn are_args_calm(here: &Here<'_, '_>, args: &[CArg]) -> Result<bool, NoMemory>
    ensures { IfOk result (λ b. b ≡ args_calm (args_of (ground_of here.now) args.now)) }
{
    for arg in args {
        if !is_arg_calm(here, arg)? {
            return Ok(false);
        }
    }
    Ok(true)
}

#[cycle(calmness)]
fn is_arg_calm(here: &Here<'_, '_>, arg: &CArg) -> Result<bool, NoMemory>
    ensures { IfOk result (λ b. b ≡ (arg_code arg.now (ground_of here.now)).calm) }
{
    match arg {
        CArg::Value(e) => is_calm(here, e),
        CArg::Address(at) => is_place_calm(here, at),
    }
}
