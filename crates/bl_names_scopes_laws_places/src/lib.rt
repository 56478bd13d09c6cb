//! Laws of one text in two scopes: by itself, and among others. Lemmas only. `specs/Agree.antt` says when open scopes correspond, where places are
//! mapped and constants have other positions (`ScopesAgree`). The rules Duplicate, Unknown and Kind then fail at the images of places
//! (`scopes`, `specs/Laws.antt`). `marks`: mapping the places of a tree maps those of its marks.
#![tactic(auto)]

pub mod marks;
pub mod scopes;
