//! Laws of the names of several files, one after another in one text. Lemmas only. `specs/Globals.antt` has the headings of items (`headings_of`),
//! and the positions that their constants have among all that the items declare (`renumber`). `specs/Laws.antt` says how items
//! one after another are named (`marks`, `items`), and that headings open the scope that the items leave (`headings`). Each file is named
//! alike behind headings and behind the items of the files before it (`files`).
#![tactic(auto)]

pub mod constants;
pub mod files;
pub mod headings;
pub mod items;
pub mod marks;
