//! Names with their places.

use bl_tree::{Place, Text};

/// A name where it is declared or used.
pub struct Name {
    pub text: Text,
    pub place: Place,
}

impl Drop for Name {
    fn drop(self) {
        let Name { text: _, place: _ } = self;
    }
}
