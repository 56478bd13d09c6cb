//! What the machine keeps of the running function.

ghost use Rattle.std.specs.Prelude.{◌≡◌, ◌+◌};
ghost use Rattle.bl_crun_code_vm.specs.Steps.{shown_count};

use std::marker::Model;

/// Where the machine stands. A run keeps it in a local variable, so that its parts stand in registers of the processor.
#[derive(Drop)]
pub struct Registers {
    /// The position of the next instruction.
    at: usize,
    /// The number of the first cell of the running function's frame.
    base: u32,
    /// The cell that the first cell of the frame tells, mostly where the function's first parameter leads.
    first: u32,
    /// How many statements have begun of late; those before them are in `past`.
    recent: u64,
    past: u128,
}

impl Model for Registers {
    ghost use Rattle.std.specs.Prelude.{◌+◌, ◌<◌, ◌^◌};
    ghost use Rattle.bl_crun_code_vm.specs.Steps.{shown_count};
    ghost use Rattle.bl_crun_code_vm.specs.inner.State.{RegisterState};

    ghost Value = { RegisterState };

    ghost view = { λ r. record {
      at = r.at;
      base = r.base;
      first = r.first;
      count = shown_count (r.past + r.recent);
    } };

    ghost invariant = { λ r. r.recent < 2 ^ 63 };
}

impl Registers {
    /// A run begins at a position, with the frame at a cell, and with no statement counted.
    pub fn new(at: usize, base: u32, first: u32) -> Registers
        ensures { result ≡ record { at = at; base = base; first = first; count = 0 } }
    {
        Registers {
            at,
            base,
            first,
            recent: 0,
            past: 0,
        }
    }

    #[inline(always)]
    pub fn at(&self) -> usize
        ensures { result ≡ self.now.at }
    {
        self.at
    }

    #[inline(always)]
    pub fn base(&self) -> u32
        ensures { result ≡ self.now.base }
    {
        self.base
    }

    #[inline(always)]
    pub fn first(&self) -> u32
        ensures { result ≡ self.now.first }
    {
        self.first
    }

    /// How many statements have begun, or the greatest number.
    pub fn count(&self) -> u128
        ensures { result ≡ self.now.count }
    {
        self.past.saturating_add(u128::from(self.recent))
    }

    /// Goes to another position.
    #[inline(always)]
    pub fn go_to(&mut self, at: usize)
        ensures { self.new ≡ record self.old { at = at } }
    {
        self.at = at;
    }

    /// Goes to a position of another function, whose frame begins at a cell.
    #[inline(always)]
    pub fn enter(&mut self, at: usize, base: u32, first: u32)
        ensures { self.new ≡ record self.old { at = at; base = base; first = first } }
    {
        self.at = at;
        self.base = base;
        self.first = first;
    }

    /// The first cell of the frame tells another cell.
    #[inline(always)]
    pub fn lead_to(&mut self, first: u32)
        ensures { self.new ≡ record self.old { first = first } }
    {
        self.first = first;
    }

    /// So many statements begin.
    #[inline(always)]
    #[tactic(auto, using(crate::proofs::Counted::count_added, crate::proofs::Counted::count_carried))]
    pub fn add_statements(&mut self, n: u32)
        ensures { self.new ≡ record self.old { count = shown_count (self.old.count + n) } }
    {
        let sum = self.recent + u64::from(n);
        if sum < 0x8000_0000_0000_0000 {
            self.recent = sum;
        } else {
            self.past = summed(self.past, sum);
            self.recent = 0;
        }
    }
}

/// All statements together, or the greatest number.
#[cold]
#[inline(never)]
fn summed(past: u128, recent: u64) -> u128
    ensures { result ≡ shown_count (past + recent) }
{
    past.saturating_add(u128::from(recent))
}
