//! Named files and sinks of bytes: the traits `Files` and `Sink`, objects over memory whose calls fail where they are
//! told to (`MemFiles`, `MemSink`) or never (`SureFiles`, `SureSink`), and the files and streams of the system
//! (`HostFiles`, `HostSink`).
//!
//! `next` hands over a front of the bytes that are left of a file (`specs/Left.antt`), and `write` appends a front of
//! its piece (`specs/Held.antt`). Both answer Failed only where a count of faults rose (`specs/Count.antt`), and leave
//! what was there. `read_up_to` and `write_all` say the same of whole texts. Of the objects over memory it is said
//! which call fails and what each hands over (`specs/Memory.antt`). Of those of the system no byte is told: they
//! promise their counts alone.
#![tactic(auto)]

mod fault;
mod files;
mod host_files;
mod host_sink;
mod mem_files;
mod mem_sink;
mod pieces;
mod plan;
mod rest;
mod sink;
mod store;
mod sure_files;
mod sure_sink;

pub use fault::{IoFault, NoMemory};
pub use files::Files;
pub use host_files::HostFiles;
pub use host_sink::HostSink;
pub use mem_files::MemFiles;
pub use mem_sink::MemSink;
pub use pieces::{PIECE, read_up_to, write_all};
pub use sink::Sink;
pub use sure_files::SureFiles;
pub use sure_sink::SureSink;
