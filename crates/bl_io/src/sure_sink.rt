//! A sink in memory that never fails.

// A sink over memory that fails only for want of memory.
ghost use Rattle.std.specs.Prelude.{◌≡◌, ◌<◌, ◌≤◌, ◌++◌, [], Some, length, take, OnOk, OnErr, IfOk, IsErrOf, IsOkUnless};
ghost use Rattle.bl_io.specs.Count.{Rose};
ghost use Rattle.bl_io.specs.Held.{Appends};

use crate::fault::IoFault;
use crate::sink::Sink;
use std::alloc::Global;
use std::marker::Model;

/// A sink over memory that fails only for want of memory.
#[derive(Drop)]
pub struct SureSink {
    held: Vec<u8>,
}

impl Model for SureSink {
    ghost use Rattle.std.specs.Prelude.{ℕ, List};

    ghost Value = { List ℕ };

    ghost view = { λ s. s.held.items };
}

impl SureSink {
    /// Holds nothing.
    pub fn new(alloc: Global) -> Self
        ensures { result ≡ [] }
    {
        Self {
            held: Vec::new(alloc),
        }
    }

    /// All bytes that were written.
    pub fn held(&self) -> &[u8]
        ensures { result.now ≡ self.now }
    {
        self.held.as_slice()
    }
}

impl Sink for SureSink {
    ghost held = { λ s. Some s };

    ghost faults = { λ _. 0 };

    fn write(&mut self, piece: &[u8]) -> Result<usize, IoFault>
        requires { 0 < length piece.now }
        ensures some { IfOk result (λ n. 0 < n) }
        ensures bound { IfOk result (λ n. n ≤ length piece.now) }
        ensures front { IfOk result (λ n. Appends (Some self.old) (take n piece.now) (Some self.new)) }
        ensures err { OnErr result (Some self.new ≡ Some self.old) }
        ensures counts { 0 ≤ 0 }
        ensures failed { IsErrOf result IoFault.Failed → Rose 0 0 }

        // Which answer comes, and all that stands after it.
        ensures fails { IsOkUnless result IoFault.NoMemory }
        ensures count { IfOk result (λ n. n ≡ length piece.now) }
        ensures taken { OnOk result (self.new ≡ self.old ++ piece.now) }
    {
        self.held.extend_from_slice(piece)?;
        Ok(piece.len())
    }
}
