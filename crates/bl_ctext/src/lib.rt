//! Texts of the C subset: the file `CFile`, whose tree has a spelling (`specs/Spellable.antt`), its tokens
//! (`specs/Spelling.antt`), and the prelude. One list has the prelude's functions, both for what may be called and for
//! what it means (`specs/Builtins.antt`). `print` gives bytes that spell the file, for every file
//! (`specs/SpellsC.antt`, `SpellsC`); want of memory aside.
#![tactic(auto)]

pub mod builtin;
pub mod file;
mod prelude;
mod printer;
pub mod token_bytes;
mod writer;

pub use builtin::{BUILTINS, Builtin};
pub use file::CFile;
pub use prelude::PRELUDE;
pub use printer::print;
