//! Laws of the named tree of one text behind two starts. Lemmas only. `specs/Renamed.antt` changes the places of a named tree and the positions of
//! constants. Where scopes correspond, the items of a text whose names pass have the same named trees, with these changes (`NamesAgree`).
#![tactic(auto)]

pub mod items;
