//! What is left of each file in memory, by name.

// Files over memory by name.
ghost use Rattle.std.specs.Prelude.{◌≡◌, ◌++◌, length, take, drop, OnOk, OnErr, None, option_map, IfSome};
ghost use Rattle.std.specs.FinMap as map;
ghost use Rattle.bl_io.specs.Store.{handed, left_at};

use crate::fault::NoMemory;
use crate::rest::Rest;
use std::alloc::Global;
use std::collections::BTreeMap;
use std::marker::Model;

/// What is left of each file, by its name.
#[derive(Drop)]
pub(crate) struct Store {
    alloc: Global,
    files: BTreeMap<String, Rest>,
}

impl Model for Store {
    ghost use Rattle.std.specs.Prelude.{ℕ, List, map as each};
    ghost use Rattle.std.specs.FinMap as map;
    ghost use Rattle.std.specs.String.{string_bytes};
    ghost use Rattle.bl_io.specs.Store.{LeftByName, left_code};

    ghost Value = { LeftByName };

    ghost coded = { left_code };

    ghost view = { λ s. map.from_entries (each (λ e. (string_bytes e.0, e.1)) s.files.entries) };
}

impl Store {
    pub(crate) fn new(alloc: Global) -> Self
        ensures { result ≡ map.empty }
    {
        Self {
            alloc,
            files: BTreeMap::new(alloc),
        }
    }

    // Sets the bytes left of a name.
    pub(crate) fn add(&mut self, name: &str, bytes: Vec<u8>) -> Result<(), NoMemory>
        ensures ok { OnOk result (self.new ≡ map.insert self.old name.now bytes.items) }
        ensures err { OnErr result (self.new ≡ self.old) }
    {
        let name = String::from_str(self.alloc, name)?;
        self.files.insert(name, Rest::new(bytes))?;
        Ok(())
    }

    // Moves the next bytes of a name to the front of the room, at most `most`; nothing where it is absent.
    pub(crate) fn hand_over(&mut self, name: &str, room: &mut [u8], most: usize) -> Option<usize>
        ensures count { result ≡ option_map (handed (length room.old) most) (map.get self.old name.now) }
        ensures rest { IfSome result (λ n. self.new ≡ map.insert self.old name.now (drop n (left_at self.old name.now))) }
        ensures room { IfSome result (λ n. room.new ≡ take n (left_at self.old name.now) ++ drop n room.old) }
        ensures absent { result ≡ None → self.new ≡ self.old }
        ensures room_stays { result ≡ None → room.new ≡ room.old }
    {
        let Some(file) = self.files.get_mut(name) else {
            return None;
        };
        Some(file.hand_over(room, most))
    }
}
