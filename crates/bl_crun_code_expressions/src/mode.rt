//! How an expression is compiled.

ghost use Rattle.std.specs.Prelude.{◌≡◌, IfOk};
ghost use Rattle.bl_crun_code.specs.Code.{depth_behind};

use bl_crun_code::instruction::Operand;
use bl_crun_code_layout::numbers::next;
use bl_tree::NoMemory;

/// How an expression is compiled: whether its operands may be read late, since nothing around it calls a function of
/// the file, and the first temporary that is free.
#[derive(Clone, Copy)]
pub struct Mode {
    pub late: bool,
    pub depth: u32,
}

impl Mode {
    /// How the next expression is compiled, while an operand is needed.
    pub fn behind(self, needed: Operand) -> Result<Mode, NoMemory>
        ensures late { IfOk result (λ m. m.late ≡ self.late) }
        ensures depth { IfOk result (λ m. m.depth ≡ depth_behind self.depth needed) }
    {
        let depth = match needed {
            Operand::Temporary(_) | Operand::Indirect(_) => next(self.depth)?,
            _ => self.depth,
        };
        Ok(Mode {
            late: self.late,
            depth,
        })
    }
}
