//! No tick of a program has more steps than the number of steps of the program with first turns of loops unrolled. Lemmas only.
//!
//! Each step of a tick is a step of the related tree (`bl_ctree_laws_peeled`), or removes the head of a loop. Steps of the first kind have
//! at most five labels for each statement that the tree passes. A head is removed at the label where the tree's statement begins, and the
//! heads of nested loops are removed there one after another, so each head is removed once in a pass. Each removal leaves one more statement
//! in the tree, so there is at most one for each statement passed.
#![tactic(auto)]

pub mod bounds;
