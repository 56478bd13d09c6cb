//! `blechc`: compiles the whole-number profile of Blech to sequential C. `main` hands the words, the files and the
//! streams of the system to `blechc` of `bl_top`, with a tank and a ramp that `drive` may name, and ends with the number of
//! the status. It has no contract of its own.
#![tactic(auto)]

use bl_io::{HostFiles, HostSink, Sink, write_all};
use bl_plant::{Plant, Ramp, Tank};
use bl_top::Status;
use std::alloc::Global;
use std::env::{self, Env};
use std::io::ErrorKind;
use std::process::ExitCode;

/// The words after the program's name. Words that aren't text ask for no job, as none at all.
fn words<R: Env + Alloc<A = Global>>(rt: &R) -> Result<Vec<String>, Status> {
    match env::args(rt) {
        Ok(args) => args
            .skip(1)
            .collect(rt.alloc())
            .map_err(|_| Status::NoMemory),
        Err(error) if error.kind() == ErrorKind::InvalidData => Ok(Vec::new(rt.alloc())),
        Err(_) => Err(Status::NoMemory),
    }
}

/// The end of a call for which memory is wanting before it begins.
fn no_memory<N: Sink>(notes: &mut N) -> ExitCode {
    let _ = write_all(notes, b"no memory\n");
    ExitCode::from(Status::NoMemory.code())
}

fn main(rt: HostRuntime) -> ExitCode {
    let alloc = rt.alloc();
    let mut notes = HostSink::new(rt.stderr());
    let Ok(words) = words(&rt) else {
        return no_memory(&mut notes);
    };
    // what a function makes as a `dyn` may not leave it, so the plants are boxed here
    let mut plants: Vec<Box<dyn Plant>> = Vec::new(alloc);
    let Ok(tank) = Box::new(alloc, Tank::new(alloc, 500, 7, 40)) else {
        return no_memory(&mut notes);
    };
    let Ok(ramp) = Box::new(alloc, Ramp::new(alloc, 0, 1)) else {
        return no_memory(&mut notes);
    };
    if plants.push(tank).is_err() || plants.push(ramp).is_err() {
        return no_memory(&mut notes);
    }
    let mut files = HostFiles::new(alloc, &rt);
    let mut out = HostSink::new(rt.stdout());
    let status = bl_top::blechc(alloc, &words, &mut files, &mut out, &mut notes, &mut plants);
    ExitCode::from(status.code())
}
