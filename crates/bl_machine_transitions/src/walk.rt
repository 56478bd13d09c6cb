//! The rules of statements, in one walk.

ghost use Rattle.std.specs.Prelude.{◌≡◌, ◌++◌, map, IfOk, OnOk};
ghost use Rattle.bl_graph_nodes.specs.Plain.{plain_body};
ghost use Rattle.bl_machine_transitions.specs.Listed.{layout_of, listed};
ghost use Rattle.bl_machine_transitions.specs.Told.{rule_in};
ghost use Rattle.bl_machine_transitions.specs.inner.Joined.{layout_in};
ghost use Rattle.bl_machine_transitions.specs.inner.Parts.{ArmsListed, arm_part, branch_part, cobegin, each, endless, part, part_of_block, until, when_part};
ghost use Rattle.bl_machine_transitions.specs.inner.Parts.{while};

use crate::changes::{body_ends, entered, one};
use crate::joins::{begun_branches, fork_nodes, put_joins};
use crate::nodes::{
    guard_nodes, put_act, put_await, put_flagged, put_run, put_tested, put_turned, put_watched,
};
use crate::ranks::{counted, ranks};
use crate::rests;
use crate::size::{after, fork_instant, is_bare, of_block, of_branches, of_statement};
use crate::table::Table;
use crate::transition::{Change, Silent, Task, Transition};
use bl_graph_nodes::plain_statements;
use bl_machine::Slot;
use bl_tree::tree::{Arm, Branch, Expr, Guard, Stmt, StmtKind};
use bl_tree::{List, NoMemory};
use std::alloc::Global;

/// Appends the rules of a block, whose first node and first resting place have the positions, and which that change follows.
#[cycle(listing)]
pub fn in_block<'a>(
    alloc: Global,
    t: &Table<'_>,
    body: &'a [Stmt],
    k: u32,
    p: u32,
    next: Change,
    into: &mut List<Transition<'a>>,
) -> Result<(), NoMemory>
    ensures { OnOk result (map rule_in into.new ≡ map rule_in into.old ++ (part_of_block (map part body.now)).rules (layout_in t.now) k p next) }
{
    let mut node = k;
    let mut place = p;
    let mut left = body.len();
    for s in body {
        left -= 1;
        let size = of_statement(s)?;
        let start = node;
        let at = place;
        node = after(start, size.nodes)?;
        place = after(at, size.places)?;
        let enters = entered(t, left == 0, node, next);
        in_statement(alloc, t, s, start, at, enters, into)?;
    }
    Ok(())
}

/// Appends the rules of a statement.
#[cycle(listing)]
fn in_statement<'a>(
    alloc: Global,
    t: &Table<'_>,
    s: &'a Stmt,
    k: u32,
    p: u32,
    next: Change,
    into: &mut List<Transition<'a>>,
) -> Result<(), NoMemory>
    ensures { OnOk result (map rule_in into.new ≡ map rule_in into.old ++ (part s.now).rules (layout_in t.now) k p next) }
{
    match &s.what {
        StmtKind::Declare(_, _) => put_act(alloc, t, s, k, next, into),
        StmtKind::Assign(_, _) => put_act(alloc, t, s, k, next, into),
        StmtKind::Call(_, _, _) => put_act(alloc, t, s, k, next, into),
        StmtKind::Return(_) => put_act(alloc, t, s, k, next, into),
        StmtKind::Await(e) => put_await(alloc, t, e, k, p, next, into),
        StmtKind::Run(target, unit, inputs, outputs) => {
            put_run(
                alloc, t, s.place, target, *unit, inputs, outputs, k, p, next, into,
            )
        }
        StmtKind::If(arms, other) => {
            // No `if` of a program is without an arm.
            if arms.is_empty() {
                Err(NoMemory)
            } else {
                let bare = is_bare(other);
                let (node, place) = in_arms(alloc, t, arms, bare, k, p, next, into)?;
                in_block(alloc, t, other, node, place, next, into)
            }
        }
        StmtKind::Cobegin(branches) => in_cobegin(alloc, t, branches, k, p, next, into),
        StmtKind::When(guard, e, body) => {
            in_guarded(alloc, t, *guard, body, e, k, p, next, into)
        }
        StmtKind::Repeat(body) => in_endless(alloc, t, body, k, p, into),
        StmtKind::Until(body, e) => in_until(alloc, t, body, e, k, p, next, into),
        StmtKind::While(e, body) => in_while(alloc, t, body, e, k, p, next, into),
    }
}

/// Appends the rules of the arms of an `if`, whose `else` part may be empty, and answers the positions of the node and the place behind them.
#[cycle(listing)]
fn in_arms<'a>(
    alloc: Global,
    t: &Table<'_>,
    arms: &'a [Arm],
    bare: bool,
    k: u32,
    p: u32,
    next: Change,
    into: &mut List<Transition<'a>>,
) -> Result<(u32, u32), NoMemory>
    ensures { IfOk result (λ behind. ArmsListed (layout_in t.now) (map arm_part arms.now) bare k p behind.0 behind.1 next
        (map rule_in into.old) (map rule_in into.new)) }
{
    let mut node = k;
    let mut place = p;
    let mut left = arms.len();
    for arm in arms {
        left -= 1;
        let body = arm.body.as_slice();
        let size = of_block(body)?;
        let start = node;
        let at = place;
        let inner = after(start, 1)?;
        node = after(inner, size.nodes)?;
        place = after(at, size.places)?;
        let empty = is_bare(body);
        let on_true = entered(t, empty, inner, next);
        let on_false = entered(t, (left == 0) & bare, node, next);
        put_tested(alloc, t, start, &arm.test, on_true, on_false, into)?;
        in_block(alloc, t, body, inner, at, next, into)?;
    }
    Ok((node, place))
}

/// Appends the rules of a `cobegin`.
#[cycle(listing)]
fn in_cobegin<'a>(
    alloc: Global,
    t: &Table<'_>,
    branches: &'a [Branch],
    k: u32,
    p: u32,
    next: Change,
    into: &mut List<Transition<'a>>,
) -> Result<(), NoMemory>
    ensures { OnOk result (map rule_in into.new ≡ map rule_in into.old
        ++ (cobegin (map branch_part branches.now)).rules (layout_in t.now) k p next) }
{
    let fork = of_branches(branches)?;
    let instant = fork_instant(fork);
    let inner = after(k, fork_nodes(instant))?;
    let first = begun_branches(alloc, t, branches, instant, t.number(k), inner, p)?;
    let begins = Task::Nothing(Silent::Fork);
    put_flagged(alloc, t, k, begins, first, into)?;
    put_joins(alloc, t, branches, instant, k, p, fork.places, next, into)?;
    in_branches(alloc, t, branches, inner, p, into)
}

/// Appends the rules of the branches of a `cobegin`.
#[cycle(listing)]
fn in_branches<'a>(
    alloc: Global,
    t: &Table<'_>,
    branches: &'a [Branch],
    k: u32,
    p: u32,
    into: &mut List<Transition<'a>>,
) -> Result<(), NoMemory>
    ensures { OnOk result (map rule_in into.new ≡ map rule_in into.old ++ each (layout_in t.now) k p (map branch_part branches.now)) }
{
    let mut node = k;
    let mut place = p;
    for branch in branches {
        let body = branch.body.as_slice();
        let size = of_block(body)?;
        let wide = after(size.places, 1)?;
        let rest = Change::SetCounter(t.slot(place));
        let inner = after(place, 1)?;
        in_block(alloc, t, body, node, inner, rest, into)?;
        node = after(node, size.nodes)?;
        place = after(place, wide)?;
    }
    Ok(())
}

/// Appends the rules of a `when`.
#[cycle(listing)]
fn in_guarded<'a>(
    alloc: Global,
    t: &Table<'_>,
    guard: Guard,
    body: &'a [Stmt],
    e: &'a Expr,
    k: u32,
    p: u32,
    next: Change,
    into: &mut List<Transition<'a>>,
) -> Result<(), NoMemory>
    ensures { OnOk result (map rule_in into.new ≡ map rule_in into.old
        ++ (when_part guard e.now (part_of_block (map part body.now))).rules (layout_in t.now) k p next) }
{
    let size = of_block(body)?;
    let mut rests = List::new(alloc);
    rests::in_block(t, body, p, &mut rests)?;
    let empty = is_bare(body);
    put_watched(alloc, t, k, p, guard, e, empty, size, rests, next, into)?;
    let ends = body_ends(t, k, size.instant)?;
    let inner = after(k, guard_nodes(size.instant))?;
    in_block(alloc, t, body, inner, p, ends, into)
}

/// Appends the rules of a loop without end.
#[cycle(listing)]
fn in_endless<'a>(
    alloc: Global,
    t: &Table<'_>,
    body: &'a [Stmt],
    k: u32,
    p: u32,
    into: &mut List<Transition<'a>>,
) -> Result<(), NoMemory>
    ensures { OnOk result (map rule_in into.new ≡ map rule_in into.old
        ++ (endless (part_of_block (map part body.now))).rules (layout_in t.now) k p Change.Finish) }
{
    let inner = after(k, 1)?;
    let again = Change::SetFlag(t.number(k));
    let first = one(alloc, entered(t, is_bare(body), inner, again))?;
    let head = Task::Nothing(Silent::Head);
    put_flagged(alloc, t, k, head, first, into)?;
    in_block(alloc, t, body, inner, p, again, into)
}

/// Appends the rules of a loop with its test at the end.
#[cycle(listing)]
fn in_until<'a>(
    alloc: Global,
    t: &Table<'_>,
    body: &'a [Stmt],
    e: &'a Expr,
    k: u32,
    p: u32,
    next: Change,
    into: &mut List<Transition<'a>>,
) -> Result<(), NoMemory>
    ensures { OnOk result (map rule_in into.new ≡ map rule_in into.old
        ++ (until (part_of_block (map part body.now)) e.now).rules (layout_in t.now) k p next) }
{
    put_turned(alloc, t, k, e, is_bare(body), next, into)?;
    let test = Change::SetFlag(t.number(after(k, 1)?));
    in_block(alloc, t, body, after(k, 2)?, p, test, into)
}

/// Appends the rules of a loop with its test at the start.
#[cycle(listing)]
fn in_while<'a>(
    alloc: Global,
    t: &Table<'_>,
    body: &'a [Stmt],
    e: &'a Expr,
    k: u32,
    p: u32,
    next: Change,
    into: &mut List<Transition<'a>>,
) -> Result<(), NoMemory>
    ensures { OnOk result (map rule_in into.new ≡ map rule_in into.old
        ++ (while e.now (part_of_block (map part body.now))).rules (layout_in t.now) k p next) }
{
    let inner = after(k, 1)?;
    let again = Change::SetFlag(t.number(k));
    let on_true = entered(t, is_bare(body), inner, again);
    put_tested(alloc, t, k, e, on_true, next, into)?;
    in_block(alloc, t, body, inner, p, again, into)
}

/// The rules of an activity's body, where the order of its blocks has the positions of nodes, and the list has the numbers of its resting
/// places, both in source order. Fails for want of memory, and where an `if` has no arm or the order has a position beyond its length, as no
/// activity of a program has.
pub fn rules<'a>(
    alloc: Global,
    body: &'a [Stmt],
    order: &[u32],
    slots: &[Slot],
) -> Result<List<Transition<'a>>, NoMemory>
    ensures { IfOk result (λ made. map rule_in made ≡ listed (layout_of order.now slots.now) (plain_body body.now)) }
{
    plain_statements();
    let ranks = ranks(alloc, order)?;
    let count = counted(order)?;
    let numbers = ranks.as_slice();
    let t = Table {
        ranks: numbers,
        count,
        slots,
    };
    let mut into = List::new(alloc);
    in_block(alloc, &t, body, 0, 0, Change::Finish, &mut into)?;
    Ok(into)
}
