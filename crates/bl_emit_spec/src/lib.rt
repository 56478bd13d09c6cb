//! Definitions of the C of activities and of whole programs. `specs/Activities.antt` has what the C of an activity is made of (`Activity`) and
//! its function, `specs/Blocks.antt` the C of a node and of a block, `specs/Names.antt` the names of structs, members and locals,
//! `specs/Words.antt` the words in the names of flags and marks, and `specs/Programs.antt` which units are written and in what order
//! (`needed_units`, `ProgramParts`). `bl_emit` computes these definitions, and the crates `bl_emit_spec_laws` show what the C does.
//! docs/C_SUBSET.md, "What `blechc` writes", tells the same in words. The crate has no code.
#![tactic(auto)]
