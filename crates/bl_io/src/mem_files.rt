//! Files in memory, with calls that fail where a test wants it.

// Files over memory whose calls fail where they are told to.
ghost use Rattle.std.specs.Prelude.{◌≡◌, ◌<◌, ◌≤◌, ◌++◌, length, take, drop, OnOk, OnErr, IfOk, IsErrOf, ok_or};
ghost use Rattle.std.specs.FinMap as map;
ghost use Rattle.bl_io.specs.Count.{Rose, NeverFell};
ghost use Rattle.bl_io.specs.Left.{HandsOver, KeepsOthers};
ghost use Rattle.bl_io.specs.Memory.{no_files, gives, after_giving, after_failing};
ghost use Rattle.bl_io.specs.Plan.{with_failing, narrowed};
ghost use Rattle.bl_io.specs.Store.{left_at};

use crate::fault::{IoFault, NoMemory};
use crate::files::Files;
use crate::plan::Plan;
use crate::store::Store;
use std::alloc::Global;
use std::marker::Model;

/// Files over memory. A call of `next` fails where its number was given to `fail_at`, and where the name
/// was never added; one counter of faults serves for all names.
#[derive(Drop)]
pub struct MemFiles {
    store: Store,
    plan: Plan,
}

impl Model for MemFiles {
    ghost use Rattle.bl_io.specs.Memory.{MemoryFiles, files_code};

    ghost Value = { MemoryFiles };

    ghost coded = { files_code };

    ghost view = { λ m. record { files = m.store; plan = m.plan } };
}

impl MemFiles {
    /// No files, and no call that is to fail.
    pub fn new(alloc: Global) -> Self
        ensures { result ≡ no_files }
    {
        Self {
            store: Store::new(alloc),
            plan: Plan::new(alloc),
        }
    }

    /// Sets the bytes left of a name to the given ones.
    pub fn add(&mut self, name: &str, bytes: Vec<u8>) -> Result<(), NoMemory>
        ensures ok { OnOk result (self.new ≡ record self.old { files = map.insert self.old.files name.now bytes.items }) }
        ensures err { OnErr result (self.new ≡ self.old) }
    {
        self.store.add(name, bytes)
    }

    /// Makes the call of `next` with this number fail. Calls are counted from 1 since the files were made.
    pub fn fail_at(&mut self, call: u32) -> Result<(), NoMemory>
        ensures ok { OnOk result (self.new ≡ record self.old { plan = with_failing self.old.plan call }) }
        ensures err { OnErr result (self.new ≡ self.old) }
    {
        self.plan.fail_at(call)
    }

    /// Each later call hands over at most so many bytes.
    pub fn narrow(&mut self, most: u32)
        requires { 0 < most }
        ensures { self.new ≡ record self.old { plan = narrowed self.old.plan most } }
    {
        self.plan.narrow(most);
    }
}

impl Files for MemFiles {
    ghost left = { λ m name. map.get m.files name };

    ghost faults = { λ m _. m.plan.faults };

    /// Takes no memory.
    fn next(&mut self, name: &str, room: &mut [u8]) -> Result<usize, IoFault>
        requires { 0 < length room.old }
        ensures bound { IfOk result (λ n. n ≤ length room.old) }
        ensures front { IfOk result (λ n. HandsOver (map.get self.old.files name.now) n room.new (map.get self.new.files name.now)) }
        ensures err { OnErr result (map.get self.new.files name.now ≡ map.get self.old.files name.now) }
        ensures others { KeepsOthers name.now (map.get self.old.files) (map.get self.new.files) }
        ensures counts { NeverFell (λ _. self.old.plan.faults) (λ _. self.new.plan.faults) }
        ensures failed { IsErrOf result IoFault.Failed → Rose self.old.plan.faults self.new.plan.faults }

        // Which answer comes, and all that stands after it.
        ensures exact { result ≡ ok_or (gives self.old name.now (length room.old)) IoFault.Failed }
        ensures given { IfOk result (λ n. self.new ≡ after_giving self.old name.now n) }
        ensures refused { OnErr result (self.new ≡ after_failing self.old) }
        ensures room { IfOk result (λ n. room.new ≡ take n (left_at self.old.files name.now) ++ drop n room.old) }
        ensures room_stays { OnErr result (room.new ≡ room.old) }
    {
        if self.plan.begin() {
            return Err(self.plan.fault());
        }
        let most = self.plan.most();
        let Some(n) = self.store.hand_over(name, room, most) else {
            return Err(self.plan.fault());
        };
        Ok(n)
    }
}
