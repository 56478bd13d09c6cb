//! The code of statements and blocks.

ghost use Rattle.std.specs.Prelude.{◌≡◌, ◌≤◌, ◌-◌, ◌++◌, length, OnOk};
ghost use Rattle.bl_crun_code.specs.Code.{code_of_block, code_of_stmt};
ghost use Rattle.bl_crun_code_layout.specs.Views.{ground_of};

use crate::acts::{assign, call_alone, clear, give_back};
use crate::turns::{choosing, leaving, passing, turning};
use bl_crun_code::instruction::Act;
use bl_crun_code_expressions::front::Front;
use bl_crun_code_layout::here::Here;
use bl_crun_code_layout::numbers::next;
use bl_tree::NoMemory;
use bl_tree::c::{CStmt, CStmtKind};

/// The code of a statement. Behind the loop around it stands so much code.
#[cycle(statements)]
fn statement(
    here: &Here<'_, '_>,
    code: &mut Front,
    this: &CStmt,
    depth: u32,
    end: usize,
) -> Result<(), NoMemory>
    requires { end ≤ length code.old }
    ensures { OnOk result (code.new ≡ code_of_stmt this.now (ground_of here.now) depth (length code.old - end) ++ code.old) }
{
    match &this.what {
        CStmtKind::Set(at, value) => assign(here, code, at, value, depth),
        CStmtKind::Clear(at, name) => clear(here, code, at, name, depth),
        CStmtKind::Call(called) => call_alone(here, code, called, depth),
        CStmtKind::If(condition, block, None) => {
            let behind = code.len();
            statements(here, code, block, depth, end)?;
            choosing(here, code, condition, depth, behind, 0)
        }
        CStmtKind::If(condition, block, Some(other)) => {
            let last = code.len();
            statements(here, code, other, depth, end)?;
            let besides = passing(code, last)?;
            let behind = code.len();
            statements(here, code, block, depth, end)?;
            choosing(here, code, condition, depth, behind, besides)
        }
        CStmtKind::Loop(_, condition, body) => {
            let over = code.len();
            code.put(Act::Again(0))?;
            let inner = next(depth)?;
            statements(here, code, body, inner, over)?;
            turning(here, code, condition, depth, over)
        }
        CStmtKind::Break => leaving(code, end),
        CStmtKind::Return(value) => give_back(here, code, value, depth),
    }
}

/// The code of the statements of a block. It fails for want of memory, and where a number of an instruction would need
/// more than 32 bits.
#[cycle(statements)]
pub fn statements(
    here: &Here<'_, '_>,
    code: &mut Front,
    block: &[CStmt],
    depth: u32,
    end: usize,
) -> Result<(), NoMemory>
    requires { end ≤ length code.old }
    ensures { OnOk result (code.new ≡ code_of_block block.now (ground_of here.now) depth (length code.old - end) ++ code.old) }
{
    for k in (0..block.len()).rev() {
        statement(here, code, &block[k], depth, end)?;
    }
    Ok(())
}
