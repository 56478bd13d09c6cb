//! Laws of C files of programs over rows. The C function of an activity begins as a pass of its instance does (`begins`, with
//! `specs/Begins.antt`, `FunctionsBeginWhere`). What a pass needs persists between ticks (`states`, `counters`). Over rows that fit, the file
//! shows the trace of each run of passes by rules (`files`, with `specs/Files.antt`, `FilesShow`), and there is such a run (`entry`, with
//! `EntryRuns`).
#![tactic(auto)]

pub mod begins;
pub mod counters;
pub mod entry;
pub mod files;
pub mod states;
