//! A sink in memory, with calls that fail where a test wants it.

// A sink over memory whose calls fail where they are told to.
ghost use Rattle.std.specs.Prelude.{◌≡◌, ◌<◌, ◌≤◌, ◌↔◌, ◌++◌, Some, min, length, take, OnOk, OnErr, IfOk, IsErrOf, IsTrue};
ghost use Rattle.bl_io.specs.Count.{Rose};
ghost use Rattle.bl_io.specs.Held.{Appends};
ghost use Rattle.bl_io.specs.Memory.{nothing_held};
ghost use Rattle.bl_io.specs.Plan.{with_failing, narrowed, fails_next, called, faulted};

use crate::fault::{IoFault, NoMemory};
use crate::plan::Plan;
use crate::sink::Sink;
use std::alloc::Global;
use std::marker::Model;

/// A sink over memory. A call of `write` fails where its number was given to `fail_at`.
#[derive(Drop)]
pub struct MemSink {
    held: Vec<u8>,
    plan: Plan,
}

impl Model for MemSink {
    ghost use Rattle.bl_io.specs.Memory.{MemorySink, sink_code};

    ghost Value = { MemorySink };

    ghost coded = { sink_code };

    ghost view = { λ s. record { held = s.held.items; plan = s.plan } };
}

impl MemSink {
    /// Holds nothing, and no call is to fail.
    pub fn new(alloc: Global) -> Self
        ensures { result ≡ nothing_held }
    {
        Self {
            held: Vec::new(alloc),
            plan: Plan::new(alloc),
        }
    }

    /// Makes the call of `write` with this number fail. Calls are counted from 1 since the sink was made.
    pub fn fail_at(&mut self, call: u32) -> Result<(), NoMemory>
        ensures ok { OnOk result (self.new ≡ record self.old { plan = with_failing self.old.plan call }) }
        ensures err { OnErr result (self.new ≡ self.old) }
    {
        self.plan.fail_at(call)
    }

    /// Each later call takes at most so many bytes.
    pub fn narrow(&mut self, most: u32)
        requires { 0 < most }
        ensures { self.new ≡ record self.old { plan = narrowed self.old.plan most } }
    {
        self.plan.narrow(most);
    }

    /// All bytes that were written.
    pub fn held(&self) -> &[u8]
        ensures { result.now ≡ self.now.held }
    {
        self.held.as_slice()
    }
}

impl Sink for MemSink {
    ghost held = { λ s. Some s.held };

    ghost faults = { λ s. s.plan.faults };

    fn write(&mut self, piece: &[u8]) -> Result<usize, IoFault>
        requires { 0 < length piece.now }
        ensures some { IfOk result (λ n. 0 < n) }
        ensures bound { IfOk result (λ n. n ≤ length piece.now) }
        ensures front { IfOk result (λ n. Appends (Some self.old.held) (take n piece.now) (Some self.new.held)) }
        ensures err { OnErr result (Some self.new.held ≡ Some self.old.held) }
        ensures counts { self.old.plan.faults ≤ self.new.plan.faults }
        ensures failed { IsErrOf result IoFault.Failed → Rose self.old.plan.faults self.new.plan.faults }

        // Which answer comes, and all that stands after it.
        ensures fails { IsErrOf result IoFault.Failed ↔ IsTrue (fails_next self.old.plan) }
        ensures count { IfOk result (λ n. n ≡ min (length piece.now) self.old.plan.most) }
        ensures taken { IfOk result (λ n. self.new ≡ record { held = self.old.held ++ take n piece.now; plan = called self.old.plan }) }
        ensures refused { IsErrOf result IoFault.Failed → self.new ≡ record self.old { plan = faulted (called self.old.plan) } }
        ensures no_memory { IsErrOf result IoFault.NoMemory → self.new ≡ record self.old { plan = called self.old.plan } }
    {
        if self.plan.begin() {
            return Err(self.plan.fault());
        }
        let n = piece.len().min(self.plan.most());
        self.held.extend_from_slice(&piece[..n])?;
        Ok(n)
    }
}
