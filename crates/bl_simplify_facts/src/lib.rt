//! What is known of spots where a statement of a C function stands: the facts of each of several cases (`entries`), what they
//! tell of expressions (`told`), and of conditions (`decide`). Each answer is one of `bl_simplify_laws` (`Known.antt` there,
//! `told`, `all_decide`, `filtered`), want of memory aside. What isn't told is left out. `spots` has spots of places, and
//! `copy` and `copy_stmt` have copies of C trees.
#![tactic(auto)]

mod casts;
mod comparisons;
pub mod copy;
pub mod copy_stmt;
pub mod decide;
pub mod entries;
pub mod spots;
pub mod told;
