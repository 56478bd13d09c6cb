//! The instructions of the machine that runs C texts.

use bl_ctext::Builtin;
use bl_tree::Op;

/// What an instruction reads, or where it writes. Cells are told by how far behind the base of the running function's
/// frame they stand, temporaries by their numbers.
#[derive(Clone, Copy)]
pub enum Operand {
    /// A number itself. Nothing can be written there.
    Literal(i32),
    Temporary(u32),
    /// The cell so far behind the base.
    Near(u32),
    /// So far behind the base stands the number of a cell; so many cells behind that one is the cell.
    Through(u32, u32),
    /// The cell whose number a temporary has.
    Indirect(u32),
    /// The number of the cell so far behind the base. Nothing can be written there.
    NearAddress(u32),
    /// The number of the cell that is reached through a pointer. Nothing can be written there.
    ThroughAddress(u32, u32),
}

/// An instruction: how many statements begin with it, and what it does then.
#[derive(Clone, Copy)]
pub struct Instruction {
    pub statements: u32,
    pub act: Act,
}

/// What the machine does in one step. What is written comes first.
#[derive(Clone, Copy)]
pub enum Act {
    /// Writes a number.
    Move(Operand, Operand),
    /// Writes this number.
    Constant(Operand, i128),
    /// Writes into a temporary the number of an element's first cell: of an array that begins at a cell with this number,
    /// by an index; of so many elements, each so many cells long. Traps where there is no such element.
    Element(u32, Operand, Operand, u32, u32),
    /// Copies so many cells to a cell with this number on, from a cell with that number on.
    Copy(Operand, Operand, u32),
    /// Sets so many cells to 0, from a cell with this number on.
    Zero(Operand, u32),
    /// Writes whether a condition isn't true.
    Negate(Operand, Operand),
    /// Writes what a comparison of two numbers gives; traps for any other operator.
    Two(Op, Operand, Operand, Operand),
    /// Writes what a function of the prelude gives for one number, or traps.
    One(Builtin, Operand, Operand),
    /// Writes what a function of the prelude gives for two numbers, or traps.
    Both(Builtin, Operand, Operand, Operand),
    /// Passes so many instructions.
    Skip(u32),
    /// Goes back so many instructions.
    Again(u32),
    /// Passes so many instructions where a condition is true, and so many where it isn't.
    Test(Operand, u32, u32),
    /// Passes so many instructions where a comparison is true, and so many where it isn't.
    Compare(Op, Operand, Operand, u32, u32),
    /// A turn of a loop begins, whose number a temporary counts; traps where 65,536 have begun.
    Turn(u32),
    /// Calls a function.
    Call(Callee),
    /// The running function is over, with this result.
    Return(Operand),
    /// Traps.
    Stop,
}

/// A function to be called.
#[derive(Clone, Copy)]
pub struct Callee {
    /// The position of its first instruction.
    pub entry: u32,
    /// The temporary that has the first argument; those of the others follow.
    pub first: u32,
    /// How many arguments it gets.
    pub args: u32,
    /// How many cells its caller's frame has.
    pub passed: u32,
    /// How many cells its own frame has.
    pub frame: u32,
    /// Where its result is written, once its caller goes on.
    pub into: Operand,
}

/// A function that waits for one that it called.
#[derive(Clone, Copy)]
pub struct Caller {
    /// The position where it goes on.
    pub back: usize,
    /// The number of the first cell of its frame.
    pub base: u32,
    /// Where the result is written.
    pub into: Operand,
}
