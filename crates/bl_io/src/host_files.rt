//! The system's files.

// The files of the system.
ghost use Rattle.std.specs.Prelude.{◌≡◌, ℕ, ◌<◌, ◌≤◌, List, Option, None, length, IfOk, IfSome, OnOk, OnErr, IsErrOf};
ghost use Rattle.bl_io.specs.Count.{Rose, NeverFell, count_up};
ghost use Rattle.bl_io.specs.Left.{HandsOver, KeepsOthers};

use crate::fault::IoFault;
use crate::files::Files;
use std::alloc::Global;
use std::collections::BTreeMap;
use std::io::Read;
use std::marker::Model;
use std::{fs, rt};

/// The files of the system, by their paths. A file is opened when it is first named, and closed at its end.
#[derive(Drop)]
pub struct HostFiles<R: rt::Files + Drop> {
    runtime: R,
    alloc: Global,
    // Nothing where the file's end was reached.
    open: BTreeMap<String, Option<R::File>>,
    faults: u64,
}

impl<R: rt::Files + Drop> Model for HostFiles<R> {
    ghost use Rattle.std.specs.Prelude.{ℕ};

    ghost Value = { ℕ };

    ghost view = { λ h. h.faults };
}

impl<R: rt::Files + Drop> HostFiles<R> {
    /// No file is open, and no fault was counted.
    pub fn new(alloc: Global, runtime: R) -> Self
        ensures { result ≡ 0 }
    {
        Self {
            runtime,
            alloc,
            open: BTreeMap::new(alloc),
            faults: 0,
        }
    }

    // Counts a fault.
    fn fault(&mut self) -> IoFault
        ensures failed { result ≡ IoFault.Failed }
        ensures counted { self.new ≡ count_up self.old }
        ensures grows { self.old ≤ self.new }
    {
        self.faults = self.faults.saturating_add(1);
        IoFault::Failed
    }
}

impl<R: rt::Files + Drop> Files for HostFiles<R> {
    ghost left = { λ _ _. None };

    ghost faults = { λ count _. count };

    /// Takes memory only for a name that is new. A file that was read to its end is never looked at again.
    fn next(&mut self, name: &str, room: &mut [u8]) -> Result<usize, IoFault>
        requires { 0 < length room.old }
        ensures bound { IfOk result (λ n. n ≤ length room.old) }
        ensures front { IfOk result (λ n. HandsOver None n room.new None) }
        ensures err { OnErr result (◌≡◌ {A = Option (List ℕ)} None None) }
        ensures others { KeepsOthers name.now (λ _. None) (λ _. None) }
        ensures counts { NeverFell (λ _. self.old) (λ _. self.new) }
        ensures failed { IsErrOf result IoFault.Failed → Rose self.old self.new }

        // Each fault is counted, and nothing else is.
        ensures counted { IsErrOf result IoFault.Failed → self.new ≡ count_up self.old }
        ensures no_memory { IsErrOf result IoFault.NoMemory → self.new ≡ self.old }
        ensures ok { OnOk result (self.new ≡ self.old) }
    {
        if !self.open.contains_key(name) {
            // Room for the name comes before the first read, so that want of memory loses no byte.
            let key = String::from_str(self.alloc, name)?;
            let Ok(file) = fs::open(&self.runtime, name) else {
                return Err(self.fault());
            };
            self.open.insert(key, Some(file))?;
        }
        let Some(slot) = self.open.get_mut(name) else {
            unreachable!();
        };
        match read_on(slot, room) {
            Some(n) => Ok(n),
            None => Err(self.fault()),
        }
    }
}

// Reads on in a file that is still open, and closes it at its end; nothing where the read failed.
fn read_on<F: Read + Drop>(slot: &mut Option<F>, room: &mut [u8]) -> Option<usize>
    ensures { IfSome result (λ n. n ≤ length room.old) }
{
    let Some(file) = slot else {
        return Some(0);
    };
    let Ok(n) = file.read(room) else {
        return None;
    };
    if n == 0 {
        *slot = None;
    }
    Some(n)
}
