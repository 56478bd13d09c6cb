//! The functions of the prelude, found by their names.

ghost use Rattle.std.specs.Prelude.{◌≡◌, ℕ, List};
ghost use Rattle.bl_ctext_semantics.specs.Builtin.{builtin_of};
ghost use Rattle.bl_ctext_semantics.specs.inner.Maps.{text_at};

use crate::maps;
use bl_ctext::{BUILTINS, Builtin};
use bl_tree::NoMemory;
use std::alloc::Global;
use std::collections::HashMap;

/// The functions of the prelude by name.
#[derive(Drop)]
pub struct Builtins {
    by_name: HashMap<&'static str, Builtin>,
    ghost complete: { (name : List ℕ) → text_at by_name name ≡ builtin_of name },
}

impl Builtins {
    /// All of them.
    pub fn new(alloc: Global) -> Result<Builtins, NoMemory> {
        let mut by_name = HashMap::new(alloc);
        maps::fill(&mut by_name, &BUILTINS)?;
        Ok(Builtins { by_name })
    }

    /// What the function of a name does, `None` where there is none of this name.
    pub fn find(&self, name: &str) -> Option<Builtin>
        ensures { result ≡ builtin_of name.now }
    {
        maps::find(&self.by_name, name)
    }
}
