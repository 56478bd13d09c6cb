//! What expressions and calls give.

use bl_tree::{List, Scalar, Value};

/// What an expression gives.
#[derive(Drop)]
pub enum Datum {
    /// A number and its type.
    Scalar(Scalar, i128),
    /// A struct or an array.
    Whole(Value),
}

/// A number that an operator works on, and its type.
#[derive(Clone, Copy)]
pub struct Operand {
    pub ty: Scalar,
    pub n: i128,
}

/// What a call of a function leaves.
#[derive(Drop)]
pub struct Left {
    /// The last values of the outputs.
    pub outputs: List<Value>,
    /// The result, where the function has one.
    pub result: Option<Datum>,
}

/// Where a path leads.
#[derive(Drop)]
pub struct Target {
    /// The variable.
    pub root: usize,
    /// What leads into it, from the outermost part inwards.
    pub positions: List<usize>,
}

/// A change of one variable.
#[derive(Drop)]
pub struct Put {
    /// The variable.
    pub root: usize,
    /// What leads into it, from the outermost part inwards.
    pub positions: List<usize>,
    /// What stands there then.
    pub value: Value,
}
