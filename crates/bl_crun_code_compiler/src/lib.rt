//! The compiler from C files to the code and the entries that `Laws.antt` of `bl_crun_code` defines for them.
#![tactic(auto)]

mod code;

pub use bl_crun_code_layout::here::Entry;
pub use code::{Compiled, compile};
