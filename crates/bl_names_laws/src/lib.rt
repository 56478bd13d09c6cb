//! Laws of named trees. None of these functions does anything: the contract is the law. `kept`: where a raw tree keeps
//! `RawIsWellFormed` of `bl_parse_tree` and no rule on names fails, the program with positions in place of names keeps what a named tree
//! keeps (`specs/WellFormed.antt`, `NamedIsWellFormed`). Its names are names and differ, no part is empty that the grammar wants filled,
//! nothing is nested too deep, and what a branch declares is named in no other branch (`specs/Apart.antt`). `bound`: where
//! no rule on names fails, each position is that of the declaration to which its use is bound (`Binds` of `bl_names_scopes`).
//! The uses of the raw tree, and what the positions lead to (`specs/Referents.antt`), stand one for one in two lists, over all
//! kinds of uses (`specs/Bound.antt`, `UsesAreBound`).
#![tactic(auto)]

pub mod bound;
pub mod kept;
