//! The whole of a source program as it is written.

use crate::item::RawItem;
use bl_tree::List;

/// A source program as it is written.
pub struct Raw {
    /// In source order.
    pub items: List<RawItem>,
    /// How many bytes the text has: the place of what is missing.
    pub bytes: u32,
}

impl Drop for Raw {
    fn drop(self) {
        let Raw { items: _, bytes: _ } = self;
    }
}
