//! The commands that make no C file of a source, and what all commands have in common. Each way in which one of them
//! ends comes with its whole cause and with what grew on `out`: `specs/Check.antt`, `specs/Walk.antt`,
//! `specs/Exec.antt`, `specs/Gen.antt`, `specs/Bound.antt`, `specs/Count.antt`, `specs/Save.antt` (`save` and
//! `resume`) and `specs/Face.antt`. Where a source isn't accepted, nothing grew on `out`, and a refusal names the first rule that fails for
//! its bytes (`specs/Refusals.antt`, `IsNotAccepted`). Where several source files aren't linked, it names the file too (`specs/Linked.antt`,
//! `AreNotLinked`). Only the files that the words name are read, each within its
//! limit (`specs/Reads.antt`, `Reads`). Either a result grew on `out` whole, or a prefix did and the status says why
//! (`specs/Results.antt`, `WritesResult`). The same holds for the lines of a job on `notes` (`specs/Notes.antt`,
//! `WritesLines`). `OneTrace` and `HasCourse` (`specs/Traces.antt`) define "has the program's trace" and "prints it as
//! `walk` does".
//!
//! Laws (`specs/Laws.antt`): unchanged files keep the limits within which a job reads them. What runs the program of a
//! source runs the source. How a run over rows ends also holds where faults are counted from before it. A state that
//! `save` wrote of a text after some rows is never rejected for it. Of a text that was built of a source, `resume`
//! shows over further rows the rest of the one trace of the source's program (`specs/Resumed.antt`,
//! `SavedStatesAreTaken` and `ResumedEnds`).
#![tactic(auto)]

pub mod answer;
pub mod bound;
pub mod check;
pub mod count;
pub mod exec;
pub mod face;
pub mod generate;
pub mod laws;
pub mod linked;
pub mod notes;
pub mod outcome;
mod refusal;
pub mod resume;
pub mod resumed;
pub mod rows;
pub mod save;
pub mod source;
mod state;
pub mod status;
mod text;
pub mod walk;
pub mod write;
