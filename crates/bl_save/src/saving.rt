//! The state of a runner, saved.

ghost use Rattle.std.specs.Prelude.{◌≡◌, ◌++◌, true, IfOk, OnOk};
ghost use Rattle.bl_tree.specs.Ports.{in_ranges};
ghost use Rattle.bl_ctext_semantics.specs.Trace.{start_succeeds};
ghost use Rattle.bl_crun_ports.specs.Layout.{kinds_of};
ghost use Rattle.bl_save.specs.Bytes.{cells_bytes, state_header};
ghost use Rattle.bl_save.specs.States.{SavedState};

use crate::cell::push;
use bl_crun::Runner;
use bl_tree::NoMemory;
use std::alloc::Global;

/// The bytes that a state of so many cells begins with.
pub fn header(count: u32) -> [u8; 10]
    ensures { result ≡ state_header count }
{
    let count = count.to_be_bytes();
    [
        b'B', b'L', b'S', b'V', b'1', b'\n', count[0], count[1], count[2], count[3],
    ]
}

/// The saved state of a runner that is ready: its file's start doesn't trap (docs/FORMATS.md, "Saved states").
pub fn save(alloc: Global, runner: &Runner) -> Result<Vec<u8>, NoMemory>
    requires { start_succeeds runner.now.parts ≡ true }
    ensures { IfOk result (λ bytes. SavedState runner.now.parts runner.now.cells bytes.items) }
{
    let mut bytes = Vec::new(alloc);
    bytes.extend_from_slice(&header(runner.cells()))?;
    push_cells(&mut bytes, runner)?;
    Ok(bytes)
}

// Appends the bytes of all cells.
fn push_cells(bytes: &mut Vec<u8>, runner: &Runner) -> Result<(), NoMemory>
    ensures written { OnOk result (bytes.new.items ≡ bytes.old.items ++ cells_bytes (kinds_of runner.now.parts) runner.now.cells) }
    ensures fit { OnOk result (in_ranges (kinds_of runner.now.parts) runner.now.cells ≡ true) }
{
    for k in 0..runner.cells() {
        push(bytes, runner.kind(k), runner.cell(k))?;
    }
    Ok(())
}
