//! What is declared before a program.

use crate::kind::Kind;
use bl_parse_tree::name::Name;

/// A declaration that stands before a program in the scope of its file.
pub struct Heading {
    pub name: Name,
    pub kind: Kind,
}

impl Drop for Heading {
    fn drop(self) {
        let Heading { name: _, kind: _ } = self;
    }
}
