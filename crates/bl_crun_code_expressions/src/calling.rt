//! The instruction of a call.

ghost use Rattle.std.specs.Prelude.{◌≡◌, IfOk};
ghost use Rattle.bl_crun_code.specs.Code.{known_call};
ghost use Rattle.bl_crun_code_layout.specs.Views.{ground_of};

use crate::mode::Mode;
use bl_crun_code::instruction::{Act, Callee, Operand};
use bl_crun_code_layout::here::Here;
use bl_crun_code_layout::numbers::small;
use bl_ctext_semantics::maps::find;
use bl_tree::NoMemory;

/// The call of a function of the file, once so many arguments stand in temporaries.
pub fn calling(
    here: &Here<'_, '_>,
    name: &str,
    args: usize,
    mode: Mode,
    into: Operand,
) -> Result<Act, NoMemory>
    ensures { IfOk result (λ act. act ≡ known_call (ground_of here.now) mode.depth args into ((ground_of here.now).known name.now)) }
{
    let args = small(args)?;
    match find(here.known, name) {
        Some(known) => Ok(Act::Call(Callee {
            entry: known.entry,
            first: mode.depth,
            args,
            passed: here.frame,
            frame: known.frame,
            into,
        })),
        None => Ok(Act::Stop),
    }
}
