//! How far the walk goes: how deep it calls itself, what it tries, and how much it does. No clause speaks of it but for memory and
//! ends.

use crate::front::Front;
use bl_simplify_facts::entries::Case;
use bl_tree::c::CExpr;
use std::alloc::Global;

/// A function of more nodes is left as it is.
const GREATEST: usize = 1_000;

/// Levels of nesting from which on nothing is split. The greatest that compilers read is 256.
const DEEPEST: u8 = 60;

/// How many entries of cases may be copied in a file before nothing more is tried, and once more so many before what follows stays
/// as it stands.
const ENTRIES: usize = 400_000;

/// How many of them a node has at least, and at most.
const LEAST: usize = 4;

const MOST: usize = 1_000;

/// Whether a function of this weight is walked.
pub fn is_walked(weight: usize) -> bool {
    weight <= GREATEST
}

/// How many entries each node of a file may copy.
#[derive(Clone, Copy)]
pub struct Share {
    entries: usize,
}

impl Share {
    /// The share of each node where so many are walked.
    pub fn of(walked: usize) -> Share {
        let entries = if walked == 0 { MOST } else { ENTRIES / walked };
        Share {
            entries: entries.min(MOST).max(LEAST),
        }
    }

    /// How many entries so many nodes may copy.
    pub fn of_nodes(self, nodes: usize) -> usize {
        nodes.saturating_mul(self.entries)
    }
}

/// What a walk may still do, and its memory.
pub struct Walk {
    pub alloc: Global,
    entries: usize,
    reserve: usize,
}

impl Drop for Walk {
    fn drop(self) {
        let Walk {
            alloc: _,
            entries: _,
            reserve: _,
        } = self;
    }
}

/// How many entries all cases have together.
fn entries_in(cases: &[Case]) -> usize {
    let mut entries: usize = 1;
    for case in cases {
        entries = entries.saturating_add(case.len());
    }
    entries
}

impl Walk {
    /// Where a function of this weight begins.
    pub fn new(alloc: Global, weight: usize, share: Share) -> Walk {
        let reserve = weight.saturating_mul(share.entries);
        Walk {
            alloc,
            entries: reserve.saturating_add(reserve),
            reserve,
        }
    }

    /// A step over so many nodes, at each of which the cases are copied.
    pub fn step(&mut self, cases: &[Case], nodes: usize) {
        let spent = entries_in(cases).saturating_mul(nodes);
        self.entries = self.entries.saturating_sub(spent);
    }

    /// A look at the cases, which takes less than a copy.
    pub fn look(&mut self, cases: &[Case]) {
        let spent = (entries_in(cases) / 8).saturating_add(1);
        self.entries = self.entries.saturating_sub(spent);
    }

    /// Whether nothing more is tried: what is left is for the blocks that stand already.
    pub fn is_spent(&self) -> bool {
        self.entries <= self.reserve
    }

    /// Whether nothing is left at all.
    pub fn is_over(&self) -> bool {
        self.entries == 0
    }
}

/// Which splits a walk tries.
#[derive(Clone, Copy)]
pub struct Manner {
    /// How many nodes follow at most where all of them may go into the branches.
    near: usize,
    /// How many nodes more these branches may have than what they stand for.
    allowance: usize,
    /// How many levels of statements that go into branches are tried within one another.
    parts: u8,
}

impl Manner {
    /// What follows goes into the branches as a whole.
    pub fn wide() -> Manner {
        Manner {
            near: 200,
            allowance: 12,
            parts: 1,
        }
    }

    /// The next statements go into the branches, and those of the branches in turn.
    pub fn narrow() -> Manner {
        Manner {
            near: 40,
            allowance: 0,
            parts: 2,
        }
    }
}

/// Where a walk stands: how many levels of splits may still be tried within one another, how deep statements are nested, and
/// which tests of counters flags may stand for.
#[derive(Clone, Copy)]
pub struct Reach<'t> {
    /// How many nodes follow at most where all of them may go into the branches.
    pub near: usize,
    /// How many nodes more the branches may have then.
    pub allowance: usize,
    splits: u8,
    parts: u8,
    nested: u8,
    pub tests: &'t [CExpr],
}

impl<'t> Reach<'t> {
    /// Where a function begins.
    pub fn new(manner: Manner, tests: &'t [CExpr]) -> Reach<'t> {
        Reach {
            near: manner.near,
            allowance: manner.allowance,
            splits: 1,
            parts: manner.parts,
            nested: 0,
            tests,
        }
    }

    /// Within a branch or a body.
    pub fn inner(self) -> Reach<'t> {
        Reach {
            near: self.near,
            allowance: self.allowance,
            splits: self.splits,
            parts: self.parts,
            nested: self.nested.saturating_add(1),
            tests: self.tests,
        }
    }

    /// Within a trial.
    pub fn trial(self) -> Reach<'t> {
        Reach {
            near: self.near,
            allowance: self.allowance,
            splits: self.splits.saturating_sub(1),
            parts: self.parts.saturating_sub(1),
            nested: self.nested,
            tests: self.tests,
        }
    }

    /// Whether all that follows may go into the branches.
    pub fn may_split(self) -> bool {
        self.splits > 0 && self.nested < DEEPEST
    }

    /// Whether the next statements may go into the branches.
    pub fn may_part(self) -> bool {
        self.parts > 0 && self.nested < DEEPEST
    }
}

/// Whether an `if` and what follows it are split: by the blocks that they come to, split and kept.
pub fn is_better(split: Front, kept: Front, allowance: usize) -> bool {
    split.weight <= kept.weight.saturating_add(allowance)
}

/// What is done with an `if` before other statements.
#[derive(Clone, Copy)]
pub enum Plan {
    /// What follows goes into its branches.
    Split,
    /// What follows stays behind it.
    Kept,
    /// So many statements go into its branches, the others stay.
    Part(usize),
}
