//! What is kept of the branches of a `cobegin` from one step to the next: what each may still write, its points, and
//! which of these may act beside the other branches (docs/LANGUAGE.md, "Control trees"). A `Listing` is right by its
//! contract (`specs/Listing.antt`, `IsRight`), and where it lists the branches of a tree (`Lists`), the points that may
//! act by it are those of the definition in `bl_ctree` (`specs/Laws.antt`). Two tables of branches by variable tell who may
//! write what a point reads, and who may read what a branch writes: `replace` asks these branches again and no others.
//! How many points of each branch may act `bl_ctree_counts` keeps, so that `count` and `choose` don't go over all branches. A running
//! tree (`bl_ctree_run`) keeps a listing.
#![tactic(auto)]

mod asking;
mod beside;
pub mod branch;
mod change;
mod counting;
pub mod laws;
pub mod listing;
pub mod point;
mod replacing;
mod table;
mod tables;

pub use listing::{Found, Listing};
pub use point::{Effect, Point};
