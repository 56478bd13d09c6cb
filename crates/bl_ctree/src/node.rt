//! Control trees as the code has them: statements by reference, with their positions (docs/LANGUAGE.md, "Control trees").

ghost use Rattle.std.specs.Prelude.{◌+◌, ◌<◌, ◌^◌, length};

use bl_tree::tree::{Arm, Stmt};
use bl_tree::{Box, List};

/// A statement with its position in its unit.
#[derive(Drop)]
pub struct At<'a> {
    pub stmt: &'a Stmt,
    /// The number of a statement in its unit's body, then in turn the number of a block in it and that of a statement there.
    pub position: List<usize>,
}

/// What follows the statements of a block.
#[derive(Drop)]
pub enum Then<'a> {
    Nothing,
    /// The loop again.
    Loop(At<'a>),
    /// The test of a `repeat .. until`.
    Until(At<'a>),
}

/// What is left of a block: its statements from number `next` on, and what follows them.
#[derive(Drop)]
pub struct Rest<'a> {
    /// The position of the block.
    pub block: List<usize>,
    pub body: &'a [Stmt],
    pub next: usize,
    pub then: Then<'a>,
}

/// What is left of an `if` whose first arms are passed.
#[derive(Drop)]
pub struct Arms<'a> {
    /// That of the `if`.
    pub position: List<usize>,
    /// How many arms are passed.
    pub passed: usize,
    /// The next one.
    pub arm: &'a Arm,
    /// Those after it.
    pub arms: &'a [Arm],
    pub other: &'a [Stmt],
    /// All arms of the `if` can be counted.
    pub ghost counted: { passed + length arms.now + 1 < 2 ^ 64 },
}

/// How far a guard or a `run` is in this tick.
#[derive(Clone, Copy, PartialEq, Eq, Debug)]
pub enum Phase {
    /// The guard's condition is still to be tested, the inputs of the `run` are still to be copied.
    Check,
    Body,
}

/// A branch of a `cobegin`.
#[cycle(nodes)]
#[derive(Drop)]
pub struct Branch<'a> {
    pub weak: bool,
    pub tree: Node<'a>,
}

/// A control tree. Where a `bool` stands it says that the node stood in the tree when the tick began.
#[cycle(nodes)]
#[derive(Drop)]
pub enum Node<'a> {
    /// Ended.
    Nil,
    /// Paused at an `await`.
    Wait(At<'a>),
    /// An `await` that was woken.
    Test(At<'a>),
    /// Before the first tick.
    Idle(Rest<'a>),
    /// A statement that is to begin.
    Do(At<'a>),
    /// The further arms of an `if`.
    Further(Arms<'a>),
    /// The test of a `repeat .. until`.
    Turn(At<'a>),
    Seq(Box<Node<'a>>, Rest<'a>),
    Par(At<'a>, bool, List<Branch<'a>>),
    Guard(At<'a>, Phase, bool, Box<Node<'a>>),
    /// The `run`, the instance that it began, and what of its body is left.
    Run(At<'a>, u32, Phase, bool, Box<Node<'a>>),
}
