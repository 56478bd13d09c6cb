//! Laws of typed stores: stores in which every value has the type of its variable (`specs/Fits.antt`, `StoreFits`). In a typed program each
//! instance sees well-typed values of its variables, wherever their homes are (`views`, with `specs/Views.antt`, `ViewsAreTyped`).
#![tactic(auto)]

pub mod views;
