//! Numbers for resting places.

ghost use Rattle.std.specs.Prelude.{◌≡◌, ◌<◌, All, IfOk};
ghost use Rattle.bl_machine.specs.Slots.{numbered_slots};

use crate::layout::after;
use bl_tree::{List, NoMemory};
use std::alloc::Global;

/// The number of a resting place.
#[derive(Clone, Copy, PartialEq, Eq, Debug)]
pub struct Slot {
    /// The counter of the instance's frame.
    pub counter: u32,
    /// What it is while the instance rests there: from 1 on.
    pub value: u32,
}

/// The numbers of places with these counters: the values of each counter count up from one.
pub fn numbered(alloc: Global, width: u32, counters: &[u32]) -> Result<List<Slot>, NoMemory>
    requires { All (λ counter. counter < width) counters.now }
    ensures { IfOk result (λ slots. slots ≡ numbered_slots counters.now) }
{
    let mut last = vec![in alloc; 0u32; width as usize]?;
    let mut slots = List::new(alloc);
    for counter in counters {
        let value = after(last[*counter as usize], 1)?;
        last[*counter as usize] = value;
        slots.push(Slot {
            counter: *counter,
            value,
        })?;
    }
    Ok(slots)
}
