//! What stands before the parts that a condition chooses.

ghost use Rattle.std.specs.Prelude.{◌≡◌, ◌≤◌, ◌<◌, ◌+◌, ◌-◌, ◌∷◌, ◌++◌, IfOk, length, List, OnOk};
ghost use Rattle.bl_crun_code.specs.declared.instruction.Act.TheVariants as act;
ghost use Rattle.bl_crun_code.specs.declared.instruction.Instruction.{Instruction as Step};
ghost use Rattle.bl_crun_code.specs.Code.{before_else, code_of_loop, else_code, expr_valued, with_begun};
ghost use Rattle.bl_crun_code_expressions.specs.Begun.{counted_once};
ghost use Rattle.bl_crun_code_layout.specs.Views.{ground_of};

use bl_crun_code::instruction::{Act, Operand};
use bl_crun_code_expressions::calm::is_calm;
use bl_crun_code_expressions::expr::tested;
use bl_crun_code_expressions::front::Front;
use bl_crun_code_expressions::mode::Mode;
use bl_crun_code_layout::here::Here;
use bl_crun_code_layout::numbers::{more, next, small};
use bl_tree::NoMemory;
use bl_tree::c::CExpr;

/// The code of a `break`. Behind the loop around it stands so much code.
pub fn leaving(code: &mut Front, end: usize) -> Result<(), NoMemory>
    requires { end ≤ length code.old }
    ensures { OnOk result (code.new ≡ counted_once (act.Skip (length code.old - end)) ∷ code.old) }
{
    let passed = small(code.len() - end)?;
    code.put_begun(Act::Skip(passed))
}

/// What stands before the other block of an `if`, behind which so much code stands, and how many instructions that is.
pub fn passing(code: &mut Front, behind: usize) -> Result<u32, NoMemory>
    requires { behind ≤ length code.old }
    ensures code { OnOk result ((other rest : List Step) → code.old ≡ other ++ rest → length rest ≡ behind → code.new ≡ else_code other ++ rest) }
    ensures before { IfOk result (λ n. (other rest : List Step) → code.old ≡ other ++ rest → length rest ≡ behind → n ≡ before_else other) }
{
    let long = code.len() - behind;
    if long == 0 {
        return Ok(0);
    }
    code.put(Act::Skip(small(long)?))?;
    Ok(1)
}

/// What stands before the block that a condition chooses. Behind that block stands so much code, of which so many
/// instructions are passed too where the condition fails.
pub fn choosing(
    here: &Here<'_, '_>,
    code: &mut Front,
    condition: &CExpr,
    depth: u32,
    behind: usize,
    besides: u32,
) -> Result<(), NoMemory>
    requires { behind ≤ length code.old }
    ensures { OnOk result (code.new ≡ with_begun 1 ((expr_valued condition.now (ground_of here.now)).test
        (expr_valued condition.now (ground_of here.now)).calm depth 0 (length code.old - behind + besides)) ++ code.old) }
{
    let end = code.len();
    let passed = more(besides, end - behind)?;
    let late = is_calm(here, condition)?;
    tested(here, code, condition, Mode { late, depth }, 0, passed)?;
    code.begin(end)
}

/// What stands before the body of a loop, and the way back behind it, in whose place an instruction stands. Behind that
/// stands so much code.
pub fn turning(
    here: &Here<'_, '_>,
    code: &mut Front,
    condition: &CExpr,
    depth: u32,
    over: usize,
) -> Result<(), NoMemory>
    requires { over < length code.old }
    ensures { OnOk result ((body rest : List Step) (was : Step) → code.old ≡ body ++ was ∷ rest → length rest ≡ over →
        code.new ≡ code_of_loop (expr_valued condition.now (ground_of here.now)) depth body ++ rest) }
{
    code.put_begun(Act::Turn(depth))?;
    let passed = small(code.len() - over)?;
    let late = is_calm(here, condition)?;
    let inner = next(depth)?;
    tested(
        here,
        code,
        condition,
        Mode { late, depth: inner },
        0,
        passed,
    )?;
    let back = small(code.len() - over - 1)?;
    code.set(over, Act::Again(back));
    code.put_begun(Act::Constant(Operand::Temporary(depth), 0))?;
    Ok(())
}
