//! Files in memory that never fail.

// Files over memory that never fail.
ghost use Rattle.std.specs.Prelude.{◌≡◌, ◌<◌, ◌≤◌, ◌++◌, Ok, Some, None, length, take, drop, OnOk, OnErr, IfOk, IsErrOf, IsSome};
ghost use Rattle.std.specs.FinMap as map;
ghost use Rattle.bl_io.specs.Count.{Rose, NeverFell};
ghost use Rattle.bl_io.specs.Left.{HandsOver, KeepsOthers};
ghost use Rattle.bl_io.specs.Plan.{no_limit};
ghost use Rattle.bl_io.specs.Store.{handed, left_at};

use crate::fault::{IoFault, NoMemory};
use crate::files::Files;
use crate::store::Store;
use std::alloc::Global;
use std::marker::Model;

/// Files over memory that never fail. A name that was never added is an empty file.
#[derive(Drop)]
pub struct SureFiles {
    store: Store,
}

impl Model for SureFiles {
    ghost use Rattle.bl_io.specs.Store.{LeftByName, left_code};

    ghost Value = { LeftByName };

    ghost coded = { left_code };

    ghost view = { λ s. s.store };
}

impl SureFiles {
    /// No files.
    pub fn new(alloc: Global) -> Self
        ensures { result ≡ map.empty }
    {
        Self {
            store: Store::new(alloc),
        }
    }

    /// Sets the bytes left of a name to the given ones.
    pub fn add(&mut self, name: &str, bytes: Vec<u8>) -> Result<(), NoMemory>
        ensures ok { OnOk result (self.new ≡ map.insert self.old name.now bytes.items) }
        ensures err { OnErr result (self.new ≡ self.old) }
    {
        self.store.add(name, bytes)
    }
}

impl Files for SureFiles {
    ghost left = { λ files name. Some (left_at files name) };

    ghost faults = { λ _ _. 0 };

    /// Takes no memory.
    fn next(&mut self, name: &str, room: &mut [u8]) -> Result<usize, IoFault>
        requires { 0 < length room.old }
        ensures bound { IfOk result (λ n. n ≤ length room.old) }
        ensures front { IfOk result (λ n. HandsOver (Some (left_at self.old name.now)) n room.new (Some (left_at self.new name.now))) }
        ensures err { OnErr result (Some (left_at self.new name.now) ≡ Some (left_at self.old name.now)) }
        ensures others { KeepsOthers name.now (λ other. Some (left_at self.old other)) (λ other. Some (left_at self.new other)) }
        ensures counts { NeverFell (λ _. 0) (λ _. 0) }
        ensures failed { IsErrOf result IoFault.Failed → Rose 0 0 }

        // Which answer comes, and all that stands after it.
        ensures exact { result ≡ Ok (handed (length room.old) no_limit (left_at self.old name.now)) }
        ensures present { IsSome (map.get self.old name.now) →
            IfOk result (λ n. self.new ≡ map.insert self.old name.now (drop n (left_at self.old name.now))) }
        ensures absent { map.get self.old name.now ≡ None → self.new ≡ self.old }
        ensures room { IfOk result (λ n. room.new ≡ take n (left_at self.old name.now) ++ drop n room.old) }
    {
        let Some(n) = self.store.hand_over(name, room, usize::MAX) else {
            return Ok(0);
        };
        Ok(n)
    }
}
