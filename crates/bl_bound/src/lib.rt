//! How many C statements the functions of a file can execute. `costs` gives the cost of each function in order
//! (`Cost.antt` of `bl_ctext_semantics`, `costs`), or says that 128 bits can't hold it (`specs/Told.antt`,
//! `told_costs`). `bound_text` writes them (`specs/Text.antt`); want of memory aside. Each function is visited once,
//! with the costs of those before it.
#![tactic(auto)]

mod calls;
mod cost;
mod functions;
mod statements;
mod text;

pub use cost::Cost;
pub use functions::costs;
pub use text::bound_text;
