//! `blech_ls`: a language server for the whole-number profile of Blech. `main` hands the standard streams of the system to
//! `serve` of `bl_lsp_session`, and ends with status 0 where the client left behind `shutdown`, and else with 1. It has no
//! contract of its own.
#![tactic(auto)]

mod input;

use bl_io::{HostSink, Sink, write_all};
use bl_lsp_session::{Ended, serve};
use input::HostInput;
use std::process::ExitCode;

/// Says on standard error why a session ended too soon, and gives the status.
fn status_of<N: Sink>(ended: Ended, notes: &mut N) -> ExitCode {
    let line: &[u8] = match ended {
        Ended::Left => return ExitCode::from(0),
        Ended::Cut => b"blech_ls: the client left without shutdown\n",
        Ended::Broken => b"blech_ls: a header tells no length, or one above 64 MiB\n",
        Ended::Failed => b"blech_ls: a stream failed\n",
        Ended::NoMemory => b"blech_ls: no memory\n",
    };
    let _ = write_all(notes, line);
    ExitCode::from(1)
}

fn main(rt: HostRuntime) -> ExitCode {
    let mut notes = HostSink::new(rt.stderr());
    let mut input = HostInput::new(rt.stdin());
    let mut out = HostSink::new(rt.stdout());
    status_of(
        serve(rt.alloc(), "standard input", &mut input, &mut out),
        &mut notes,
    )
}
