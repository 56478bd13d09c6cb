//! Several source texts as one: each in turn, followed by a line feed. `Joined` has the joined text with its tokens, which are those
//! of each text moved to where it stands (`specs/Texts.antt`, `joined_text`, `joined_tokens`). It tells the text in which a place of
//! the whole begins (`specs/Places.antt`, `InFile`). `specs/Trees.antt` maps the places of raw trees (`placed_item`).
#![tactic(auto)]

mod joined;
mod token;

pub use joined::{FilePlace, Joined};
