//! A saved state, restored to a runner.

ghost use Rattle.std.specs.Prelude.{◌≡◌, ◌≤◌, ◌++◌, List, drop, length, map, None, IfErr, IfNone, IfSome, OnErr, OnOk};
ghost use Rattle.bl_crun_ports.specs.Layout.{kinds_of};
ghost use Rattle.bl_save.specs.States.{HasRestored, IsFaultOf};
ghost use Rattle.bl_save.specs.inner.Shapes.{Allowed, cells_shape, earlier, exactly, misfit, state_shape};
ghost use Rattle.bl_save.specs.inner.Restored.{HasPut};

use crate::cell::{misfit, number, size_of};
use crate::fault::StateFault;
use crate::saving::header;
use bl_crun::Runner;

/// How many bytes a state has in front of its cells.
const HEADER: usize = 10;

/// Sets the cells of a runner to the numbers of a saved state. Where the bytes are none, the runner is as before. No
/// bytes are one where the start of the runner's file traps.
pub fn restore(runner: &mut Runner, bytes: &[u8]) -> Result<(), StateFault>
    requires short { length bytes.now ≤ 8000011 }
    ensures restored { OnOk result (HasRestored runner.old bytes.now runner.new) }
    ensures bad { IfErr result (IsFaultOf runner.old.parts bytes.now) }
    ensures kept { OnErr result (runner.new ≡ runner.old) }
{
    if !runner.ready() {
        return Err(StateFault::BadState { at: 0 });
    }
    match state_misfit(runner, bytes) {
        Some(at) => Err(StateFault::BadState { at: at as u32 }),
        None => {
            put_cells(runner, bytes);
            Ok(())
        }
    }
}

// Where bytes leave the shape of a state.
fn state_misfit(runner: &Runner, bytes: &[u8]) -> Option<usize>
    ensures place { result ≡ misfit (state_shape (kinds_of runner.now.parts)) bytes.now }
    ensures within { IfSome result (λ at. at ≤ length bytes.now) }
{
    let header = header(runner.cells());
    match first_difference(&header, bytes) {
        Some(at) => Some(at),
        None => cells_misfit(runner, bytes),
    }
}

// Where bytes stop beginning with these, or their number where they are too few.
fn first_difference(wanted: &[u8], bytes: &[u8]) -> Option<usize>
    ensures place { (shape : List Allowed) → misfit (map exactly wanted.now ++ shape) bytes.now
        ≡ earlier result (length wanted.now) (misfit shape (drop (length wanted.now) bytes.now)) }
    ensures long { IfNone result (length wanted.now ≤ length bytes.now) }
{
    for k in 0..wanted.len() {
        if k == bytes.len() {
            return Some(k);
        }
        if bytes[k] != wanted[k] {
            return Some(k);
        }
    }
    None
}

// Where bytes that begin as a state does leave the shape of the runner's cells.
fn cells_misfit(runner: &Runner, bytes: &[u8]) -> Option<usize>
    requires { 10 ≤ length bytes.now }
    ensures place { result ≡ earlier None 10 (misfit (cells_shape (kinds_of runner.now.parts)) (drop 10 bytes.now)) }
    ensures within { IfSome result (λ at. at ≤ length bytes.now) }
{
    let mut at = HEADER;
    for k in 0..runner.cells() {
        let kind = runner.kind(k);
        match misfit(kind, &bytes[at..]) {
            Some(inside) => return Some(at + inside),
            None => at += size_of(kind),
        }
    }
    if at == bytes.len() { None } else { Some(at) }
}

// Sets all cells to the numbers of their bytes, which stand behind what a state begins with.
fn put_cells(runner: &mut Runner, bytes: &[u8])
    requires long { 10 ≤ length bytes.now }
    requires fits { misfit (cells_shape (kinds_of runner.old.parts)) (drop 10 bytes.now) ≡ None }
    ensures { HasPut runner.old (drop 10 bytes.now) runner.new }
{
    let mut at = HEADER;
    for k in 0..runner.cells() {
        let kind = runner.kind(k);
        runner.put(k, number(kind, &bytes[at..]));
        at += size_of(kind);
    }
}
