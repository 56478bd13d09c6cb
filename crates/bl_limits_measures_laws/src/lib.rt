//! Laws of measures of a typed program: what its types say of them, and what they say of its activity instances. The number
//! of instances is how many the list of them has, for each program that a raw tree has in which none of the rules 6 to 17 fails.
#![tactic(auto)]

pub mod laws;
