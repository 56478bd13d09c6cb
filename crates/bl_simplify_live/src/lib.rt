//! C functions without what is set and never read. `without_dead` drops assignments to variables that nothing reads but other
//! such assignments, where these surely have values, and then `if`s without statements. The rest does the same but for those
//! variables (`SameLive` of `bl_simplify_laws`).
#![tactic(auto)]

mod dead;
mod reads;
mod unread;
mod wanted;

pub use dead::without_dead;
pub use reads::{Names, names_of};
