//! Rules of a pass. A node is told by its number: where its block stands in the order of blocks.

use bl_machine::Slot;
use bl_tree::tree::{Expr, Path, Stmt};
use bl_tree::{List, Place};

/// One change of what a pass keeps of where its instance stands.
#[derive(Clone, Copy, PartialEq, Eq, Debug)]
pub enum Change {
    /// The node waits for its turn.
    SetFlag(u32),
    /// The instance rests at the number.
    SetCounter(Slot),
    /// It no longer rests at the counter.
    ClearCounter(u32),
    /// Nor did it, as far as what follows in the tick is concerned.
    ClearBoth(u32),
    /// The `cobegin` or `when` that begins at the node has begun in this tick.
    SetMark(u32),
    /// The `when` that begins at the first node ends: at the second one where it has begun in this tick, else at the third one.
    EndWhen(u32, u32, u32),
    /// The body of the activity has ended.
    Finish,
}

/// Which tick a `cobegin` has to have begun in, so that it ends at a node.
#[derive(Clone, Copy, PartialEq, Eq, Debug)]
pub enum Age {
    /// This one, which the mark of its first node tells.
    New(u32),
    /// An earlier one.
    Old(u32),
    /// Any.
    Any,
}

/// The ends that a `cobegin` waits for: all of these numbers, or some one.
#[derive(Drop)]
pub struct Needed {
    pub all: bool,
    pub slots: List<Slot>,
}

/// What a pass asks before a node acts.
#[derive(Drop)]
pub enum Condition {
    /// Whether the node waits.
    Flagged,
    /// Whether the instance rested at the number when the tick began.
    Rested(Slot),
    /// Whether it rested at one of these.
    RestedIn(List<Slot>),
    /// Whether so many branches of a `cobegin` rest at their ends as are needed.
    Ended(Age, Needed),
}

/// A `run` at a node.
#[derive(Clone, Copy)]
pub struct Run<'a> {
    /// Where it stands.
    pub place: Place,
    /// The position of the activity that it calls.
    pub unit: u32,
    pub target: Option<&'a Path>,
    pub inputs: &'a [Expr],
    pub outputs: &'a [Path],
}

/// A node that does nothing but change what a pass keeps, by its place in its statement.
#[derive(Clone, Copy, PartialEq, Eq, Debug)]
pub enum Silent {
    /// An `await` is reached.
    Pause,
    /// A turn of a loop begins.
    Head,
    /// A `when` begins.
    Start,
    /// A `when` ends.
    End,
    /// A `cobegin` begins.
    Fork,
    /// A `cobegin` ends.
    Join,
}

/// What is done at a node.
#[derive(Clone, Copy)]
pub enum Task<'a> {
    Nothing(Silent),
    Act(&'a Stmt),
    Test(&'a Expr),
    /// A `run` begins.
    Enter(Run<'a>),
    /// It goes on.
    Resume(Run<'a>),
}

/// The rule of a node.
#[derive(Drop)]
pub struct Transition<'a> {
    /// The number of its node.
    pub number: u32,
    pub condition: Condition,
    pub task: Task<'a>,
    /// What changes where the answer is true; that of a node without a test is, and that of a `run` which goes on tells whether the body of the
    /// activity that it calls has ended.
    pub on_true: List<Change>,
    /// What changes where it is false.
    pub on_false: List<Change>,
}
