//! Views that were used. To fill one again takes as long as the variables that are asked for are many, and to make one as long as all are.

use crate::view::InstanceView;
use bl_tree::{List, NoMemory};
use std::alloc::Global;
use std::mem;

/// Views at hand, at most one of each unit. Whatever they show, what `look` shows of the variables that are asked for is the same.
#[derive(Drop)]
pub struct Views {
    by_unit: List<Option<InstanceView>>,
}

impl Views {
    /// None, for so many units. Fails only for want of memory.
    pub fn new(alloc: Global, units: usize) -> Result<Views, NoMemory> {
        let mut by_unit = List::new(alloc);
        for _ in 0..units {
            by_unit.push(None)?;
        }
        Ok(Views { by_unit })
    }

    /// Takes that of the unit, where there is one.
    pub(crate) fn take(&mut self, unit: u32) -> Option<InstanceView> {
        let k = unit as usize;
        if k < self.by_unit.len() {
            mem::replace(self.by_unit.get_mut(k), None)
        } else {
            None
        }
    }

    /// Keeps a view that is no longer needed.
    pub(crate) fn keep(&mut self, view: InstanceView) {
        let k = view.now.unit as usize;
        if k < self.by_unit.len() {
            self.by_unit.set(k, Some(view));
        }
    }
}
