//! Messages of the Language Server Protocol: a stream of bytes is cut into contents by their headers, a content is told apart
//! as a request, a notification or an answer, and what it asks of the server is settled: an answer, or a document that is
//! to be judged or was closed. `Framer::take` is `says` and `framing_after` of `specs/Framing.antt`, `deed_of` is that of
//! `specs/Deeds.antt`, and `framed` writes a content behind its header. No text is judged here.
#![tactic(auto)]

mod deed;
mod documents;
mod framer;
mod kind;
mod phase;
mod replies;
mod written;

pub use deed::{Deed, deed_of};
pub use documents::Document;
pub use framer::{Framer, Taken};
pub use phase::{Phase, phase_after};
pub use replies::{Fault, garbled, notice};
pub use written::framed;
