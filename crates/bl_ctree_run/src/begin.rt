//! What nodes become when they act themselves.

ghost use Rattle.std.specs.Prelude.{◌≡◌, ◌+◌, ◌<◌, ◌^◌, ◌++◌, ◌∷◌, ℕ, Bool, [], length, map, IfOk, if◌then◌else◌};
ghost use Rattle.bl_ctree.specs.Control.{Body, Guard, do_all};
ghost use Rattle.bl_ctree.specs.Nodes.{control_of, items_then, left_of_arms, located, seen_of};
ghost use Rattle.bl_ctree.specs.Points.{begins, checks, copying, guard_strikes, passing, tests, turns_on};
ghost use Rattle.bl_ctree.specs.Positions.{items_from, kind_of};
ghost use Rattle.bl_ctree.specs.Steps.{arm_items};
ghost use Rattle.bl_ctree_store.specs.Seen.{setting_in};
ghost use Rattle.bl_ctree_run.specs.inner.Spots.{chosen, first_after, run_begun, seen_begun};

use bl_ctree::copying::{at, inside, position, tree};
use bl_ctree::node::{Arms, At, Branch, Node, Phase, Rest, Then};
use bl_ctree::sequence::do_all;
use bl_ctree_store::Setting;
use bl_ctree_store::callee::begun_by;
use bl_tree::tree::{Arm, Branch as Written, Guard as GuardKind, Stmt, StmtKind};
use bl_tree::{Box, List, NoMemory};
use std::alloc::Global;

/// The block with this number in the statement at the position, as it begins, and what follows it. Fails only for want of memory,
/// as all that follows.
fn block<'a>(
    alloc: Global,
    position: &[usize],
    k: usize,
    body: &'a [Stmt],
    following: Then<'a>,
) -> Result<Node<'a>, NoMemory>
    ensures { IfOk result (λ made. control_of made ≡ do_all (items_from (position.now ++ k ∷ []) 0 body.now ++ items_then following.entry)) }
{
    let rest = Rest {
        block: inside(alloc, position, k)?,
        body,
        next: 0,
        then: following,
    };
    do_all(alloc, rest)
}

/// The block with this number in a statement, as it begins.
fn inner<'a>(
    alloc: Global,
    position: &[usize],
    k: usize,
    body: &'a [Stmt],
) -> Result<Node<'a>, NoMemory>
    ensures { IfOk result (λ made. control_of made ≡ do_all (items_from (position.now ++ k ∷ []) 0 body.now)) }
{
    block(alloc, position, k, body, Then::Nothing)
}

/// What is left of an `if` whose first arms are passed, the last of them with this number.
fn passing<'a>(
    alloc: Global,
    s: &At<'a>,
    arms: &'a [Arm],
    other: &'a [Stmt],
) -> Result<Node<'a>, NoMemory>
    requires { length arms.now + 1 < 2 ^ 64 }
    ensures { IfOk result (λ made. control_of made ≡ passing (located s.now) arms.now other.now) }
{
    match arms {
        [] => inner(alloc, &s.position, 1, other),
        [arm, rest @ ..] => Ok(Node::Further(Arms {
            position: position(alloc, &s.position)?,
            passed: 1,
            arm,
            arms: rest,
            other,
        })),
    }
}

fn choice<'a>(
    alloc: Global,
    s: &At<'a>,
    arms: &'a [Arm],
    other: &'a [Stmt],
    answer: bool,
) -> Result<Node<'a>, NoMemory>
    ensures { IfOk result (λ made. control_of made ≡ chosen (located s.now) arms.now other.now answer) }
{
    match arms {
        [] => Ok(Node::Nil),
        [arm, rest @ ..] => {
            if answer {
                inner(alloc, &s.position, 0, &arm.body)
            } else {
                passing(alloc, s, rest, other)
            }
        }
    }
}

/// The same of an `if` of which some arms are passed.
pub fn further<'a>(alloc: Global, left: &Arms<'a>, answer: bool) -> Result<Node<'a>, NoMemory>
    ensures { IfOk result (λ made. control_of made ≡ (if answer then do_all (arm_items (left_of_arms left.now) left.now.arm.now) else passing
        (left_of_arms left.now) left.now.arms.now left.now.other.now)) }
{
    if answer {
        return inner(alloc, &left.position, left.passed, &left.arm.body);
    }
    let passed = left.passed + 1;
    match left.arms {
        [] => inner(alloc, &left.position, passed, left.other),
        [arm, rest @ ..] => Ok(Node::Further(Arms {
            position: position(alloc, &left.position)?,
            passed,
            arm,
            arms: rest,
            other: left.other,
        })),
    }
}

/// The branches of a `cobegin` as they begin.
fn forks<'a>(
    alloc: Global,
    position: &[usize],
    branches: &'a [Written],
) -> Result<List<Branch<'a>>, NoMemory>
    ensures { IfOk result (λ made. map seen_of made ≡ seen_begun position.now 0 branches.now) }
{
    let mut made = List::new(alloc);
    for k in 0..branches.len() {
        made.push(Branch {
            weak: branches[k].weak,
            tree: inner(alloc, position, k, &branches[k].body)?,
        })?;
    }
    Ok(made)
}

fn runs<'a>(alloc: Global, w: &Setting<'a>, i: u32, s: &At<'a>) -> Result<Node<'a>, NoMemory>
    ensures { IfOk result (λ made. control_of made ≡ run_begun (setting_in w.now) i (located s.now)) }
{
    match begun_by(w, i, s.stmt.place) {
        None => Ok(Node::Nil),
        Some(callee) => {
            let rest = Rest {
                block: List::new(alloc),
                body: &callee.unit.body,
                next: 0,
                then: Then::Nothing,
            };
            let body = Box::new(alloc, do_all(alloc, rest)?)?;
            Ok(Node::Run(at(alloc, s)?, callee.instance, Phase::Body, false, body))
        }
    }
}

/// What a statement that begins becomes.
pub fn begins<'a>(
    alloc: Global,
    w: &Setting<'a>,
    i: u32,
    s: &At<'a>,
    answer: bool,
) -> Result<Node<'a>, NoMemory>
    ensures { IfOk result (λ made. control_of made ≡ first_after (begins (setting_in w.now) i (located s.now) (kind_of (located s.now))) answer) }
{
    match &s.stmt.what {
        StmtKind::Declare(_, _)
        | StmtKind::Assign(_, _)
        | StmtKind::Call(_, _, _)
        | StmtKind::Return(_) => Ok(Node::Nil),
        StmtKind::Await(_) => Ok(Node::Wait(at(alloc, s)?)),
        StmtKind::Run(_, _, _, _) => runs(alloc, w, i, s),
        StmtKind::If(arms, other) => choice(alloc, s, arms, other, answer),
        StmtKind::Cobegin(branches) => {
            let branches = forks(alloc, &s.position, branches)?;
            Ok(Node::Par(at(alloc, s)?, false, branches))
        }
        StmtKind::When(_, _, body) => {
            let body = Box::new(alloc, inner(alloc, &s.position, 0, body)?)?;
            Ok(Node::Guard(at(alloc, s)?, Phase::Body, false, body))
        }
        StmtKind::Repeat(body) => block(alloc, &s.position, 0, body, Then::Loop(at(alloc, s)?)),
        StmtKind::Until(body, _) => {
            block(alloc, &s.position, 0, body, Then::Until(at(alloc, s)?))
        }
        StmtKind::While(_, body) => {
            if answer {
                block(alloc, &s.position, 0, body, Then::Loop(at(alloc, s)?))
            } else {
                Ok(Node::Nil)
            }
        }
    }
}

/// What an `await` that was woken becomes.
pub fn tests<'a>(alloc: Global, s: &At<'a>, answer: bool) -> Result<Node<'a>, NoMemory>
    ensures { IfOk result (λ made. (i : ℕ) → control_of made ≡ first_after (tests i (located s.now) (kind_of (located s.now))) answer) }
{
    match &s.stmt.what {
        StmtKind::Await(_) => {
            if answer {
                Ok(Node::Nil)
            } else {
                Ok(Node::Wait(at(alloc, s)?))
            }
        }
        _ => Ok(Node::Nil),
    }
}

/// What the test of a `repeat .. until` becomes.
pub fn turns_on<'a>(alloc: Global, s: &At<'a>, answer: bool) -> Result<Node<'a>, NoMemory>
    ensures { IfOk result (λ made. (i : ℕ) → control_of made ≡ first_after (turns_on i (located s.now) (kind_of (located s.now))) answer) }
{
    match &s.stmt.what {
        StmtKind::Until(_, _) => {
            if answer {
                Ok(Node::Nil)
            } else {
                Ok(Node::Do(at(alloc, s)?))
            }
        }
        _ => Ok(Node::Nil),
    }
}

fn strikes<'a>(
    alloc: Global,
    guard: GuardKind,
    s: &At<'a>,
    stood: bool,
    body: &'a [Stmt],
) -> Result<Node<'a>, NoMemory>
    ensures { IfOk result (λ made. control_of made ≡ guard_strikes guard (located s.now) stood body.now) }
{
    match guard {
        GuardKind::Abort => Ok(Node::Nil),
        GuardKind::Reset => {
            let body = Box::new(alloc, inner(alloc, &s.position, 0, body)?)?;
            Ok(Node::Guard(at(alloc, s)?, Phase::Body, stood, body))
        }
    }
}

fn goes_on<'a>(
    alloc: Global,
    s: &At<'a>,
    stood: bool,
    body: &Node<'a>,
) -> Result<Node<'a>, NoMemory>
    ensures { IfOk result (λ made. control_of made ≡ Guard (located s.now) Body stood (control_of body.now)) }
{
    let body = Box::new(alloc, tree(alloc, body)?)?;
    Ok(Node::Guard(at(alloc, s)?, Phase::Body, stood, body))
}

/// What a guard becomes by the answer of its test.
pub fn checks<'a>(
    alloc: Global,
    s: &At<'a>,
    stood: bool,
    body: &Node<'a>,
    answer: bool,
) -> Result<Node<'a>, NoMemory>
    ensures { IfOk result (λ made. (i : ℕ) → control_of made
        ≡ first_after (checks i (located s.now) stood (control_of body.now) (kind_of (located s.now))) answer) }
{
    match &s.stmt.what {
        StmtKind::When(guard, _, first) => {
            if answer {
                strikes(alloc, *guard, s, stood, first)
            } else {
                goes_on(alloc, s, stood, body)
            }
        }
        _ => Ok(Node::Nil),
    }
}

/// What a `run` that was woken becomes.
pub fn copying<'a>(
    alloc: Global,
    s: &At<'a>,
    callee: u32,
    stood: bool,
    body: &Node<'a>,
) -> Result<Node<'a>, NoMemory>
    ensures { IfOk result (λ made. (i : ℕ) (d : Bool) → control_of made
        ≡ first_after (copying i (located s.now) callee stood (control_of body.now) (kind_of (located s.now))) d) }
{
    match &s.stmt.what {
        StmtKind::Run(_, _, _, _) => {
            let body = Box::new(alloc, tree(alloc, body)?)?;
            Ok(Node::Run(at(alloc, s)?, callee, Phase::Body, stood, body))
        }
        _ => Ok(Node::Nil),
    }
}
