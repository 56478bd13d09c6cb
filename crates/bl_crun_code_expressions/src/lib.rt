//! The compiler from C expressions, places and calls to the code that `Code.antt` of `bl_crun_code` defines for them.
#![tactic(auto)]

mod calling;
pub mod calm;
pub mod expr;
pub mod front;
pub mod mode;
pub mod operand;
mod puts;
