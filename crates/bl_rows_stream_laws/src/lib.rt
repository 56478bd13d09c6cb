//! Laws of runs over files of rows. Lemmas only. `count` writes the statement counts of the ticks of the file's
//! semantics (`specs/Counts.antt`, `counts_text`). A runner that goes on from numbers of the cells and writes nothing
//! ends as the trace from them does. Where that is open, it has the cells that the rows leave (`specs/Resumed.antt`,
//! `RunsSilently`).
#![tactic(auto)]

ghost use Rattle.bl_ctext_semantics.specs.Parts.{Parts};
ghost use Rattle.bl_rows_stream_laws.specs.Laws.{CountsAreTold, RunsAreSilent};

/// What `count` writes of a runner that was just loaded.
pub fn counts_are_told()
    ensures { (file : Parts) → CountsAreTold file }
{}

/// What a runner comes to that stands at numbers of the cells and writes nothing.
pub fn silent_runs()
    ensures { (file : Parts) → RunsAreSilent file }
{}
