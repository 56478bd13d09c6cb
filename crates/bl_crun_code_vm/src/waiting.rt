//! Functions that wait for one that they called.

ghost use Rattle.std.specs.Prelude.{◌≡◌, ◌<◌, [], ◌∷◌, length, IfOk};

use bl_crun_code::instruction::Caller;
use bl_tree::NoMemory;
use std::alloc::Global;
use std::marker::Model;

/// The functions that wait, the last last, with room reserved.
#[derive(Drop)]
pub struct Waiting {
    callers: Vec<Caller>,
    /// For how many functions there is room.
    room: usize,
}

impl Model for Waiting {
    ghost use Rattle.std.specs.Prelude.{◌≤◌, reverse, vec_capacity};
    ghost use Rattle.bl_crun_code_vm.specs.inner.State.{Queue};

    ghost Value = { Queue };

    ghost view = { λ w. record { callers = reverse w.callers.items; room = w.room } };

    ghost invariant = { λ w. w.room ≤ vec_capacity w.callers };
}

impl Waiting {
    ghost use Rattle.bl_crun_code_vm.specs.inner.State.{Popped};

    /// There is room for so many functions.
    pub fn new(alloc: Global, room: usize) -> Result<Waiting, NoMemory>
        ensures { IfOk result (λ w. w.room ≡ room) }
    {
        Ok(Waiting {
            callers: Vec::with_capacity(alloc, room)?,
            room,
        })
    }

    /// No function waits any more.
    pub fn clear(&mut self)
        ensures { self.new ≡ record self.old { callers = [] } }
    {
        self.callers.clear();
    }

    /// How many functions wait.
    #[inline(always)]
    pub fn len(&self) -> usize
        ensures { result ≡ length self.now.callers }
    {
        self.callers.len()
    }

    /// For how many there is room.
    #[inline(always)]
    pub fn room(&self) -> usize
        ensures { result ≡ self.now.room }
    {
        self.room
    }

    /// One more function waits.
    #[inline(always)]
    pub fn push(&mut self, caller: Caller)
        requires { length self.old.callers < self.old.room }
        ensures { self.new ≡ record self.old { callers = caller ∷ self.old.callers } }
    {
        self.callers.push_reserved(caller);
    }

    /// The last function waits no more.
    #[inline(always)]
    pub fn pop(&mut self) -> Option<Caller>
        ensures { Popped self.old result self.new }
    {
        match self.callers.pop() {
            None => None,
            Some(caller) => Some(caller),
        }
    }
}
