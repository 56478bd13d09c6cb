//! What is known of a file of the C subset before it runs. `inputs` and `outputs` are exactly the columns of a
//! well-formed file. `kinds` and `lay_out` are the types of the cells of its three objects, in order (`Cells.antt` of
//! `bl_ctext_semantics`: `inputs_of`, `outputs_of`, `cells_of`); want of memory aside. Law: the inputs and the outputs
//! stand one by one in these cells (`specs/Ports.antt`, `PortsStand`).
#![tactic(auto)]

pub mod laws;
mod layout;
mod places;
mod ports;
mod repeat;

pub use layout::{CellKinds, kinds, lay_out};
pub use ports::{inputs, outputs};
