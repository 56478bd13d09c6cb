//! What tells the statements of a body apart, and the nodes of its tick graph: plain statements with labels, on which the
//! tick graph and the control trees stand (docs/LANGUAGE.md, "Tick graphs"; `specs/Plain.antt`, `Nodes.antt`). Also
//! defined here: what a plain statement may write before its next pause and ever (`Writes.antt`), and the labels of steps
//! (`Steps.antt`). There is no code here.
//!
//! Laws (`specs/Laws.antt`): what the plain statement of each kind is; a plain statement may end at once exactly where its
//! statement may; labels tell nodes of different branches and statements apart, and no node stands twice.
#![tactic(auto)]

ghost use Rattle.bl_graph_nodes.specs.Laws.{BlocksAreInstant, InstantIsKept, LabelsAreBelow, MadeOfParts, NodesDiffer, PlainStatements, PositionsPart};

/// What the plain statement of a statement at a position is, for each kind of statement.
pub fn plain_statements()
    ensures { PlainStatements }
{}

/// A statement is made of its place and its kind's parts, so that what is said of plain statements kind by kind is said of
/// each.
pub fn statements_are_made_of_parts()
    ensures { MadeOfParts }
{}

/// Whether a plain statement, or a block, may end in the tick in which it begins is as it was.
pub fn instant_is_kept()
    ensures statements { InstantIsKept }
    ensures blocks { BlocksAreInstant }
{}

/// The nodes of a statement have labels below its position. So nodes of two branches, or of two statements of a block, have
/// different labels, since no position begins with both of theirs.
pub fn labels_tell_apart()
    ensures below { LabelsAreBelow }
    ensures part { PositionsPart }
{}

/// A statement has no node twice, and neither has a block.
pub fn nodes_differ()
    ensures { NodesDiffer }
{}
