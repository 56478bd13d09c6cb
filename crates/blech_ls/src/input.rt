//! The system's standard input.

ghost use Rattle.std.specs.Prelude.{◌≡◌, ℕ, ◌<◌, ◌≤◌, List, Option, None, length, IfOk, IfSome, OnErr, IsErrOf};
ghost use Rattle.bl_io.specs.Count.{NeverFell, Rose, count_up};
ghost use Rattle.bl_io.specs.Left.{HandsOver, KeepsOthers};

use bl_io::{Files, IoFault};
use std::io::Read;
use std::marker::Model;

/// A stream of the system that is read, as its standard input. It stands for each name.
#[derive(Drop)]
pub struct HostInput<R: Read + Drop> {
    stream: R,
    faults: u64,
}

impl<R: Read + Drop> Model for HostInput<R> {
    ghost use Rattle.std.specs.Prelude.{ℕ};

    ghost Value = { ℕ };

    ghost view = { λ h. h.faults };
}

impl<R: Read + Drop> HostInput<R> {
    /// No fault was counted.
    pub fn new(stream: R) -> Self
        ensures { result ≡ 0 }
    {
        Self { stream, faults: 0 }
    }
}

impl<R: Read + Drop> Files for HostInput<R> {
    ghost left = { λ _ _. None };

    ghost faults = { λ count _. count };

    /// Takes no memory.
    fn next(&mut self, _name: &str, room: &mut [u8]) -> Result<usize, IoFault>
        requires { 0 < length room.old }
        ensures bound { IfOk result (λ n. n ≤ length room.old) }
        ensures front { IfOk result (λ n. HandsOver None n room.new None) }
        ensures err { OnErr result (◌≡◌ {A = Option (List ℕ)} None None) }
        ensures others { KeepsOthers _name.now (λ _. None) (λ _. None) }
        ensures counts { NeverFell (λ _. self.old) (λ _. self.new) }
        ensures failed { IsErrOf result IoFault.Failed → Rose self.old self.new }
    {
        match read_on(&mut self.stream, room) {
            Some(n) => Ok(n),
            None => {
                self.faults = self.faults.saturating_add(1);
                Err(IoFault::Failed)
            }
        }
    }
}

// Reads on; nothing where that failed.
fn read_on<R: Read>(stream: &mut R, room: &mut [u8]) -> Option<usize>
    ensures { IfSome result (λ n. n ≤ length room.old) }
{
    stream.read(room).ok()
}
