//! What the compiler of C files to the code of `bl_crun_code` looks up: how the cells of structs and frames are laid
//! out, what is known where an expression or statement stands (`specs/Views.antt`), and how places are reached
//! (`specs/Places.antt`, `IsWalkTo`). All is exactly as `bl_crun_code` and `Layout.antt` of `bl_ctext_semantics_laws`
//! define it, for all structs and functions. It fails for want of memory alone, and also reports that where a number
//! would need more than 32 bits.
#![tactic(auto)]

pub mod here;
pub mod layout;
pub mod numbers;
pub mod place;
