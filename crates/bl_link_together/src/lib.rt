//! Files that are judged together. `program_together` parses each text by itself and then judges the tree of the joined texts, once. If no
//! rule fails, the files are good one behind another and this is their program (`AreFilesOf` of `bl_link`), so no text is judged by itself.
//! If a rule fails or memory runs out, it says nothing more: `FirstFiles` of `bl_link` reports which rule fails.
#![tactic(auto)]

mod alone;
mod together;

pub use together::program_together;
