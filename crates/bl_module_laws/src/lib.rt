//! Laws of the files of a program. Lemmas only. `specs/Files.antt` says when files are good, each behind the faces of those before it
//! (`AreGoodFiles`). From Duplicate on no rule but Frames and Cells fails for the tree of their joined texts (`GoodFilesPass` in `specs/Laws.antt`).
//! Texts that can be read, with marks in the last alone, are good files if no rule fails for that tree (`PassingFilesAreGood`).
#![tactic(auto)]

pub mod files;
