//! Laws of the texts of faces: what is printed of a face is read back as that face (`laws`), where its arrays have at most 2^32 - 1 elements
//! and its constants are at most 2^64 in size (`specs/Fits.antt`). Each law is the contract of a function with an empty body.
#![tactic(auto)]

pub mod laws;
