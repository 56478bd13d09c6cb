//! The parallel meaning on plain statements, in the form that its laws need: control trees over plain statements
//! (`specs/Trees.antt`), one relation for the steps that could act and those that may (`specs/Steps.antt`,
//! `Moves`), and what steps and waking leave of a body (`specs/Residual.antt`, `PlainResidual`). There is no code here.
//!
//! Laws: the plain tree of what may be left of a body of located statements (`Residual.antt` of `bl_ctree`) has the same
//! answers and exactly its steps, so what is shown of plain trees holds of the meaning (`specs/Laws.antt`). Steps and
//! waking lead from what may be left of a body to what may be left of it (`specs/ResidualLaws.antt`). No step lets its branch
//! end or write more (`specs/Shrinks.antt`). Steps of different branches lead to one tree in either order
//! (`specs/Commutes.antt`), and where the order makes no difference to the store either, all maximal lists of steps of a
//! tick have one end (`specs/Ends.antt`); so a program's meaning allows at most one trace over each list of rows
//! (`specs/Runs.antt`). Trees of typed programs have no `if` without an arm (`specs/Fitted.antt`). What may be written
//! before the next pause is what surfaces write (`specs/Soon.antt`).
#![tactic(auto)]

pub mod bridge;
pub mod commuting;
pub mod residual;
pub mod runs;
pub mod shrinking;
