//! Rows of numbers, and traces.

ghost use Rattle.std.specs.Prelude.{◌≡◌, pos, ◌<◌, length, slice_get, slice_set, IfOk, replicate};

use crate::scalar::Scalar;
use crate::{List, NoMemory, Text};
use std::alloc::Global;
use std::marker::Model;

/// One number for each input or output of a tick. A bool is 1 or 0.
#[derive(Drop)]
pub struct Row {
    numbers: Vec<i128>,
}

impl Model for Row {
    ghost use Rattle.std.specs.Prelude.{ℤ, List as Elements, ◌<◌, ◌^◌, length};

    ghost Value = { Elements ℤ };

    ghost view = { λ row. row.numbers.items };

    ghost invariant = { λ row. length row.numbers.items < 2 ^ 32 };
}

impl Row {
    /// A row of zeros. Fails only for want of memory.
    pub fn new(alloc: Global, len: u32) -> Result<Row, NoMemory>
        ensures { IfOk result (λ row. row ≡ replicate len (pos 0)) }
    {
        match Vec::from_elem(alloc, 0i128, len as usize) {
            Ok(numbers) => Ok(Row { numbers }),
            Err(_) => Err(NoMemory),
        }
    }

    pub fn at(&self, k: u32) -> i128
        requires { k < length self.now }
        ensures { slice_get self.now k ≡ Some result }
    {
        self.numbers[k as usize]
    }

    pub fn set(&mut self, k: u32, n: i128)
        requires { k < length self.old }
        ensures { self.new ≡ slice_set self.old k n }
    {
        self.numbers[k as usize] = n;
    }

    /// How many numbers it has.
    pub fn len(&self) -> u32
        ensures { result ≡ length self.now }
    {
        self.numbers.len() as u32
    }
}

/// A named input or output of scalar type.
#[derive(Drop)]
pub struct Column {
    pub name: Text,
    pub ty: Scalar,
}

/// How a run stands after its last row.
#[derive(Clone, Copy, PartialEq, Eq, Debug)]
pub enum Last {
    /// It could go on with a further row.
    Open,
    /// The entry activity's body has ended.
    Ended,
    /// The tick after the last row trapped.
    Trap,
}

/// The outputs of a run's ticks, and how it stands after them.
#[derive(Drop)]
pub struct Trace {
    pub rows: List<Row>,
    pub last: Last,
}
