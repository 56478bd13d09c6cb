//! A table of what the statements of a typed program read and write, by static field paths, and of which may end in the
//! tick in which they begin (docs/LANGUAGE.md, "Effects"). `Effects::of` tells exactly that, at the place of each
//! statement (`specs/Table.antt`, `TableTellsEffects`). `mentions` appends what an expression or a path reads. Also
//! defined here: how a program fails the rules Pause, Conflict, Alias and Instant (`specs/Rules.antt`, `Fails`), and
//! what a statement can write before it pauses (`specs/Surface.antt`, `surface_of`).
//!
//! Laws: a set has its list's members, in order and once; overlap is mutual; a statement reads and writes no less than
//! those in it.
#![tactic(auto)]

mod gather;
pub mod laws;
mod marked;
pub mod mentions;
pub mod sets;
mod table;

pub use marked::Marked;
pub use mentions::static_of;
pub use table::Effects;
