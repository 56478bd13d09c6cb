//! Which calls of an object in memory are to fail.

// Which calls of an object over memory are to fail, and how many bytes a call may move.
ghost use Rattle.std.specs.Prelude.{◌≡◌, ◌<◌, ◌≤◌, OnOk, OnErr};
ghost use Rattle.bl_io.specs.Plan.{no_plan, with_failing, narrowed, fails_next, called, faulted};

use crate::fault::{IoFault, NoMemory};
use std::alloc::Global;
use std::collections::BTreeSet;
use std::marker::Model;

/// Counts the calls and the faults of an object over memory. Both counts stay where 64 bits end.
#[derive(Drop)]
pub(crate) struct Plan {
    failing: BTreeSet<u64>,
    calls: u64,
    most: usize,
    faults: u64,
}

impl Model for Plan {
    ghost use Rattle.std.specs.Prelude.{◌<◌};
    ghost use Rattle.std.specs.FinSet as set;
    ghost use Rattle.bl_io.specs.Plan.{FaultPlan, plan_code};

    ghost Value = { FaultPlan };

    ghost coded = { plan_code };

    ghost view = { λ p. record { failing = set.from_list p.failing.keys; calls = p.calls; most = p.most; faults = p.faults } };

    ghost invariant = { λ p. 0 < p.most };
}

impl Plan {
    pub(crate) fn new(alloc: Global) -> Self
        ensures { result ≡ no_plan }
    {
        Self {
            failing: BTreeSet::new(alloc),
            calls: 0,
            most: usize::MAX,
            faults: 0,
        }
    }

    pub(crate) fn fail_at(&mut self, call: u32) -> Result<(), NoMemory>
        ensures ok { OnOk result (self.new ≡ with_failing self.old call) }
        ensures err { OnErr result (self.new ≡ self.old) }
    {
        self.failing.insert(u64::from(call))?;
        Ok(())
    }

    pub(crate) fn narrow(&mut self, most: u32)
        requires { 0 < most }
        ensures { self.new ≡ narrowed self.old most }
    {
        self.most = most as usize;
    }

    // Counts a call, and answers whether it is to fail.
    pub(crate) fn begin(&mut self) -> bool
        ensures answer { result ≡ fails_next self.old }
        ensures after { self.new ≡ called self.old }
    {
        self.calls = self.calls.saturating_add(1);
        self.failing.contains(&self.calls)
    }

    // Counts a fault.
    pub(crate) fn fault(&mut self) -> IoFault
        ensures failed { result ≡ IoFault.Failed }
        ensures after { self.new ≡ faulted self.old }
        ensures grows { self.old.faults ≤ self.new.faults }
    {
        self.faults = self.faults.saturating_add(1);
        IoFault::Failed
    }

    // The most bytes that a call may move.
    pub(crate) fn most(&self) -> usize
        ensures value { result ≡ self.now.most }
        ensures some { 0 < result }
    {
        self.most
    }
}
