//! Sessions of the language server. What is published of a text is exactly the first failing rule at its place, and nothing where no rule fails
//! (`Found` of `specs/Found.antt`). `hear` takes the content of a message and gives what is sent for it, as `specs/Answers.antt` says. `serve`
//! does so for each message of a stream, cut anywhere, until the client leaves or the stream ends (`specs/Sessions.antt`).
#![tactic(auto)]

mod hearing;
mod judging;
mod serving;

pub use serving::{Ended, serve};
