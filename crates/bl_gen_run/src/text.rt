//! What is told of a run of the generated program.

ghost use Rattle.std.specs.Prelude.{◌≡◌, IfOk};
ghost use Rattle.bl_gen_run.specs.Runs.{run_text};

use bl_gen::report;
use bl_tree::{Last, NoMemory, Trace};
use std::alloc::Global;

/// A run of the generated program that nothing was written of yet.
#[derive(Drop)]
pub struct Run {
    /// What is told of it.
    pub text: Vec<u8>,
    pub last: Last,
}

/// The text that tells a trace of the program of so many stages. Fails only if memory runs out.
pub fn text_of(alloc: Global, stages: u32, trace: &Trace) -> Result<Vec<u8>, NoMemory>
    ensures { IfOk result (λ text. text.items ≡ run_text stages trace.now.rows trace.now.last) }
{
    match trace.last {
        Last::Trap => Ok(Vec::from_slice(alloc, b"trap\n")?),
        Last::Open | Last::Ended => report(alloc, stages, trace.rows.as_slice()),
    }
}
