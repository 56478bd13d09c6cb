//! Code that is made from its end on, so that jump targets are known.

ghost use Rattle.std.specs.Prelude.{◌≡◌, ◌<◌, ◌≤◌, [], ◌∷◌, ◌++◌, length, List, OnOk};
ghost use Rattle.bl_crun_code.specs.declared.instruction.Instruction.{Instruction as Step};
ghost use Rattle.bl_crun_code.specs.Code.{uncounted, with_begun};
ghost use Rattle.bl_crun_code_expressions.specs.Begun.{counted_once};

use bl_crun_code::instruction::{Act, Instruction};
use bl_crun_code_layout::numbers::next;
use bl_tree::NoMemory;
use std::alloc::Global;
use std::marker::Model;

/// Code that grows at its front, so that what an instruction passes stands behind it already.
#[derive(Drop)]
pub struct Front {
    /// The last instruction first.
    reversed: Vec<Instruction>,
}

impl Model for Front {
    ghost use Rattle.std.specs.Prelude.{List, reverse};
    ghost use Rattle.bl_crun_code.specs.declared.instruction.Instruction.{Instruction};

    ghost Value = { List Instruction };

    ghost view = { λ front. reverse front.reversed.items };
}

impl Front {
    /// No code yet.
    pub fn new(alloc: Global) -> Front
        ensures { result ≡ [] }
    {
        Front {
            reversed: Vec::new(alloc),
        }
    }

    /// How many instructions stand there.
    pub fn len(&self) -> usize
        ensures { result ≡ length self.now }
    {
        self.reversed.len()
    }

    fn push(&mut self, instruction: Instruction) -> Result<(), NoMemory>
        ensures { OnOk result (self.new ≡ instruction ∷ self.old) }
    {
        match self.reversed.push(instruction) {
            Ok(()) => Ok(()),
            Err(_) => Err(NoMemory),
        }
    }

    /// Puts an instruction with which no statement begins before the others.
    pub fn put(&mut self, act: Act) -> Result<(), NoMemory>
        ensures { OnOk result (self.new ≡ uncounted act ∷ self.old) }
    {
        self.push(Instruction { statements: 0, act })
    }

    /// Puts an instruction with which a statement begins before the others.
    pub fn put_begun(&mut self, act: Act) -> Result<(), NoMemory>
        ensures { OnOk result (self.new ≡ counted_once act ∷ self.old) }
    {
        self.push(Instruction { statements: 1, act })
    }

    /// One statement more begins with the first instruction, unless only so many instructions stand there.
    pub fn begin(&mut self, behind: usize) -> Result<(), NoMemory>
        requires { behind ≤ length self.old }
        ensures { OnOk result ((part rest : List Step) → self.old ≡ part ++ rest → length rest ≡ behind → self.new ≡ with_begun 1 part ++ rest) }
    {
        if self.reversed.len() == behind {
            return Ok(());
        }
        match self.reversed.pop() {
            Some(first) => {
                let statements = next(first.statements)?;
                self.push(Instruction {
                    statements,
                    act: first.act,
                })
            }
            None => Ok(()),
        }
    }

    /// Puts an instruction with which no statement begins in place of the one behind which so many stand.
    pub fn set(&mut self, behind: usize, act: Act)
        requires { behind < length self.old }
        ensures { (front rest : List Step) (old : Step) → self.old ≡ front ++ old ∷ rest → length rest ≡ behind → self.new
            ≡ front ++ uncounted act ∷ rest }
    {
        self.reversed[behind] = Instruction { statements: 0, act };
    }

    /// The instructions, the first one first.
    pub fn finish(self) -> Vec<Instruction>
        ensures { result.items ≡ self }
    {
        let Front { mut reversed } = self;
        reversed.reverse();
        reversed
    }
}
