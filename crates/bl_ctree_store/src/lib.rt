//! The store of a program that runs: its instances, the values of their variables now and before, and what one action
//! makes of them (docs/LANGUAGE.md, "Control trees"). `instances_of` gives exactly the instances to which a program
//! expands (`Instances.antt` of `bl_ctree`). `asks` tells whether a condition is true, and `carry_out` makes of the
//! store what any other action makes of it (`specs/Deeds.antt`, `deed_on`); after a trap or want of memory the store is
//! as it was (`Carried`). `specs/Seen.antt` (`store_of`) says what the store of the code shows. An expression or act
//! reads the variables that it names alone (`specs/Agree.antt`), so only these are copied, into a view that an earlier
//! action left where there is one (`src/views.rt`); what else stands in it changes nothing (`specs/Glimpse.antt`).
//! `setting_of` asks for fewer than 2^32 instances, which each `Setting` then has.
#![tactic(auto)]

pub mod callee;
pub mod expansion;
pub mod frame;
pub mod home;
mod index;
mod naming;
pub mod perform;
pub mod setting;
pub mod ticks;
pub mod view;
pub mod views;
pub mod writing;

pub use frame::Frame;
pub use home::Home;
pub use perform::{Deed, asks, carry_out};
pub use setting::Setting;
pub use views::Views;
