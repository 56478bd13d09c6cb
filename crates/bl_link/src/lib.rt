//! Parts linked to one program. Unless memory runs out, `link` returns Ok iff each part was judged behind the faces of the parts before
//! it, only the last one as the last file, and no rule fails for the tree of their joined texts (`specs/Linked.antt`, `AreLinked`). It
//! returns what `accept` of `bl_rules` returns for one text. Otherwise it returns the first part that doesn't fit, or the first failing
//! rule with its place in one of the texts (`LinkStops`).
//!
//! The texts are lexed one by one and parsed as one text, which may be longer than a single text. So the rules Size, Lex, Profile, Depth and
//! Syntax can't fail: each part passes them by itself.
//!
//! `FirstFiles` compiles texts in turn, each behind the faces of those before it, and links them (`specs/Files.antt`, `AreFilesOf`,
//! `FailsAtFile`, `FailTogether`).
//!
//! Laws: parts have one answer, and files end in one way; the joined texts of parts have one tree.
#![tactic(auto)]

mod fault;
mod files;
mod fits;
pub mod laws;
mod linked;
mod whole;

pub use fault::LinkFault;
pub use files::FirstFiles;
pub use linked::link;
