//! The numbers of nodes and of resting places, by where these stand in source order.

ghost use Rattle.std.specs.Prelude.{◌≡◌};
ghost use Rattle.bl_machine_transitions.specs.inner.Joined.{layout_in};

use bl_machine::Slot;

/// The numbers of nodes and places in source order. A node beyond the last one has the count as its number.
#[derive(Clone, Copy)]
pub struct Table<'t> {
    pub ranks: &'t [u32],
    pub count: u32,
    pub slots: &'t [Slot],
}

impl<'t> Table<'t> {
    /// The number of the node at the position.
    pub fn number(&self, k: u32) -> u32
        ensures { result ≡ (layout_in self.now).number k }
    {
        match self.ranks.get(k as usize) {
            Some(number) => *number,
            None => self.count,
        }
    }

    /// The number of the place at the position.
    pub fn slot(&self, p: u32) -> Slot
        ensures { result ≡ (layout_in self.now).slot p }
    {
        match self.slots.get(p as usize) {
            Some(slot) => *slot,
            None => Slot {
                counter: 0,
                value: 0,
            },
        }
    }
}
