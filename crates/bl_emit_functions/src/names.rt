//! Names that C reads, as a set.

ghost use Rattle.std.specs.Prelude.{◌≡◌, ◌||◌, OnOk, bytes_eq};
ghost use Rattle.bl_tree.specs.declared.text.Text.{Text};
ghost use Rattle.bl_tree.specs.Words.{is_among};

use bl_tree::NoMemory;
use indexmap::IndexSet;
use std::alloc::Global;
use std::marker::Model;

/// Names of locals and parameters.
#[derive(Drop)]
pub struct Names<'a> {
    set: IndexSet<&'a str>,
}

impl<'a> Model for Names<'a> {
    ghost use Rattle.std.specs.Prelude.{ℕ, List, map};

    ghost Value = { List (List ℕ) };

    ghost view = { λ names. map (λ name. name.now) names.set.keys };
}

impl<'a> Names<'a> {
    ghost use Rattle.std.specs.Prelude.{[]};

    /// No names.
    pub fn new(alloc: Global) -> Names<'a>
        ensures { result ≡ [] }
    {
        Names {
            set: IndexSet::new(alloc),
        }
    }

    /// Whether the name is one of these.
    pub fn has(&self, name: &str) -> bool
        ensures { result ≡ is_among name.now self.now }
    {
        self.set.contains(name)
    }

    /// Adds a name, which may be one of these.
    pub fn add(&mut self, name: &'a str) -> Result<(), NoMemory>
        ensures { OnOk result ((asked : Text) → is_among asked self.new ≡ is_among asked self.old || bytes_eq name.now asked) }
    {
        match self.set.insert(name) {
            Ok(_) => Ok(()),
            Err(_) => Err(NoMemory),
        }
    }
}
