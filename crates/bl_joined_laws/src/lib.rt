//! Laws of several source texts as one. The joined text has the tokens of each text, moved to where it stands (`tokens`). These spell
//! the items of each text, with moved places (`specs/Items.antt`, `joined_items`), and keep the rules Depth and Syntax (`items`).
//! Each law is the contract of a function with an empty body.
#![tactic(auto)]

pub mod items;
pub mod tokens;
