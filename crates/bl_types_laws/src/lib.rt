//! Laws of typing: what is typed of a source in which none of the rules 6 to 17 fails is well-typed. `kept` has the main one: its raw tree is
//! well-formed (`RawIsWellFormed` of `bl_parse_tree`), so its structs, units and entry are well-typed (`IsWellTyped` of `bl_tree`), and its
//! blocks nest no deeper than those of a source. It is put together from three others. `fits`: what is typed of a named tree in which no rule on
//! types fails fits its site (`specs/Fitting.antt`). `named`: naming gives what `fits` asks of names. `shapes`: what is typed nests no
//! deeper, and keeps branches apart. `order`: its statements and the conditions of its loops begin one after another, as those of the raw tree do
//! (`specs/Starts.antt`). Each law is the contract of a function with an empty body.
#![tactic(auto)]

pub mod fits;
pub mod kept;
pub mod named;
pub mod order;
pub mod shapes;
