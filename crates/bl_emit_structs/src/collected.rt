//! Structs, one of each name.

ghost use Rattle.std.specs.Prelude.{◌≡◌, OnOk};
ghost use Rattle.bl_emit_structs.specs.inner.Added.{added, nothing};

use bl_tree::c::CStruct;
use bl_tree::{List, NoMemory};
use indexmap::IndexSet;
use std::alloc::Global;
use std::marker::Model;

/// The structs so far, and their names.
#[derive(Drop)]
pub struct Collected {
    structs: List<CStruct>,
    taken: IndexSet<String>,
}

impl Model for Collected {
    ghost use Rattle.std.specs.Prelude.{map, string_bytes};
    ghost use Rattle.bl_emit_structs.specs.inner.Added.{Collected as Seen};

    ghost Value = { Seen };

    ghost view = { λ owner. record { structs = owner.structs; taken = map string_bytes owner.taken.keys } };
}

impl Collected {
    pub fn new(alloc: Global) -> Collected
        ensures { result ≡ nothing }
    {
        Collected {
            structs: List::new(alloc),
            taken: IndexSet::new(alloc),
        }
    }

    /// Takes a struct, unless its name is taken.
    pub fn add(&mut self, alloc: Global, made: CStruct) -> Result<(), NoMemory>
        ensures { OnOk result (self.new ≡ added self.old made) }
    {
        let name = String::from_str(alloc, made.name.as_str())?;
        match self.taken.insert(name) {
            Ok(is_new) => {
                if is_new {
                    self.structs.push(made)?;
                }
                Ok(())
            }
            Err(_) => Err(NoMemory),
        }
    }

    pub fn into_structs(self) -> List<CStruct>
        ensures { result ≡ self.structs }
    {
        let Collected { structs, taken } = self;
        drop(taken);
        structs
    }
}
