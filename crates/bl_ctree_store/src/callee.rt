//! The instances that `run` statements begin.

ghost use Rattle.std.specs.Prelude.{◌≡◌, option_map};
ghost use Rattle.bl_ctree.specs.Instances.{callee_of, unit_at};
ghost use Rattle.bl_ctree_store.specs.Seen.{called, called_at, setting_in};

use crate::setting::Setting;
use bl_tree::Place;
use bl_tree::slices::element;
use bl_tree::tree::Unit;

/// An instance that a `run` statement begins.
#[derive(Clone, Copy)]
pub struct Callee<'a> {
    pub instance: u32,
    pub unit: &'a Unit,
}

/// The instance that the `run` statement at the place begins in its caller's instance.
fn callee_of(w: &Setting, caller: u32, place: Place) -> Option<u32>
    ensures { result ≡ callee_of (setting_in w.now) caller place }
{
    w.callees.find(caller, place)
}

/// The unit of an instance.
pub fn unit_at<'a>(w: &Setting<'a>, i: u32) -> Option<&'a Unit>
    ensures { option_map (λ unit. unit.now) result ≡ unit_at (setting_in w.now) i }
{
    let unit = element(&w.instances, i as usize)?.unit;
    let program = w.program;
    element(&program.units, unit as usize)
}

/// The instance that the `run` statement at the place begins, with its unit.
pub fn begun_by<'a>(w: &Setting<'a>, caller: u32, place: Place) -> Option<Callee<'a>>
    ensures { option_map called result ≡ called_at (setting_in w.now) caller place }
{
    let instance = callee_of(w, caller, place)?;
    let unit = unit_at(w, instance)?;
    Some(Callee { instance, unit })
}
