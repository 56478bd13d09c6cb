//! What a pass from C to C may change: laws of blocks, functions and files that do the same but for counts of statements.
//! Lemmas only, beside `facts`: the types of what is known of a spot. `rules`: a block for another where something is known
//! of spots (`specs/Rules.antt`, `AlikeWhere`). `conditions`: conditions of the same truth (`specs/Conditions.antt`,
//! `TestsAlike`). `joins`: blocks that do the same wherever they stand (`specs/Joins.antt`, `SameBlocks`). `live`: blocks that
//! do the same but for locals that nothing reads any more (`specs/Live.antt`, `SameLive`). Each ends in functions that do the
//! same, and `files` takes these to files with the same trace (`specs/Files.antt`, `SameTrace`).
#![tactic(auto)]

pub mod conditions;
pub mod facts;
pub mod files;
pub mod frames;
pub mod joins;
pub mod known;
pub mod live;
pub mod outcomes;
pub mod rules;
pub mod splits;
pub mod tables;
