//! The rules of single nodes.

ghost use Rattle.std.specs.Prelude.{◌≡◌, ◌∷◌, ◌++◌, [], map, IfOk, OnOk};
ghost use Rattle.bl_graph_nodes.specs.Nodes.{arguments_of};
ghost use Rattle.bl_machine_transitions.specs.Listed.{flagged_rule, guard_nodes, mark_change, resting_rule, tested_rule};
ghost use Rattle.bl_machine_transitions.specs.declared.transition.Silent.TheVariants as silent;
ghost use Rattle.bl_machine_transitions.specs.Told.{Acts, Enters, Nothing, Resumes, Tests, rule_in, task_in};
ghost use Rattle.bl_machine_transitions.specs.inner.Joined.{last, later, layout_in, looked, paused, turned, watched, where_so};

use crate::changes::{body_ends, entered, fired, forgotten, one, two};
use crate::size::{Size, after};
use crate::table::Table;
use crate::transition::{Change, Condition, Run, Silent, Task, Transition};
use bl_machine::Slot;
use bl_tree::tree::{Expr, Guard, Path, Stmt};
use bl_tree::{List, NoMemory, Place};
use std::alloc::Global;

/// Appends a rule.
pub fn put<'a>(rule: Transition<'a>, into: &mut List<Transition<'a>>) -> Result<(), NoMemory>
    ensures { OnOk result (map rule_in into.new ≡ map rule_in into.old ++ rule_in rule.entry ∷ []) }
{
    into.push(rule)?;
    Ok(())
}

/// Appends the rule of the node at the position, which waits by its flag and has one way on.
pub fn put_flagged<'a>(
    alloc: Global,
    t: &Table<'_>,
    k: u32,
    task: Task<'a>,
    on_true: List<Change>,
    into: &mut List<Transition<'a>>,
) -> Result<(), NoMemory>
    ensures { OnOk result (map rule_in into.new ≡ map rule_in into.old ++ flagged_rule (layout_in t.now) k (task_in task.entry) on_true ∷ []) }
{
    put(
        Transition {
            number: t.number(k),
            condition: Condition::Flagged,
            task,
            on_true,
            on_false: List::new(alloc),
        },
        into,
    )
}

/// Appends the rule of a node with a test, which waits by its flag.
pub fn put_tested<'a>(
    alloc: Global,
    t: &Table<'_>,
    k: u32,
    e: &'a Expr,
    on_true: Change,
    on_false: Change,
    into: &mut List<Transition<'a>>,
) -> Result<(), NoMemory>
    ensures { OnOk result (map rule_in into.new
        ≡ map rule_in into.old ++ tested_rule (layout_in t.now) k (Tests e.now) (on_true ∷ []) (on_false ∷ []) ∷ []) }
{
    put(
        Transition {
            number: t.number(k),
            condition: Condition::Flagged,
            task: Task::Test(e),
            on_true: one(alloc, on_true)?,
            on_false: one(alloc, on_false)?,
        },
        into,
    )
}

/// Appends the rule of a node that is woken where its counter held the number.
fn put_woken<'a>(
    alloc: Global,
    t: &Table<'_>,
    k: u32,
    slot: Slot,
    task: Task<'a>,
    next: Change,
    into: &mut List<Transition<'a>>,
) -> Result<(), NoMemory>
    ensures { OnOk result (map rule_in into.new
        ≡ map rule_in into.old ++ resting_rule (layout_in t.now) k slot (task_in task.entry) next ∷ []) }
{
    put(
        Transition {
            number: t.number(k),
            condition: Condition::Rested(slot),
            task,
            on_true: one(alloc, next)?,
            on_false: List::new(alloc),
        },
        into,
    )
}

/// Appends the rule of an act.
pub fn put_act<'a>(
    alloc: Global,
    t: &Table<'_>,
    s: &'a Stmt,
    k: u32,
    next: Change,
    into: &mut List<Transition<'a>>,
) -> Result<(), NoMemory>
    ensures { OnOk result (map rule_in into.new ≡ map rule_in into.old ++ flagged_rule (layout_in t.now) k (Acts s.now) (next ∷ []) ∷ []) }
{
    put_flagged(alloc, t, k, Task::Act(s), one(alloc, next)?, into)
}

/// Appends the two rules of a statement that rests at the place with the position.
fn put_paused<'a>(
    alloc: Global,
    t: &Table<'_>,
    first: Task<'a>,
    second: Task<'a>,
    k: u32,
    p: u32,
    next: Change,
    into: &mut List<Transition<'a>>,
) -> Result<(), NoMemory>
    ensures { OnOk result (map rule_in into.new
        ≡ map rule_in into.old ++ paused (layout_in t.now) k p (task_in first.entry) (task_in second.entry) next) }
{
    let slot = t.slot(p);
    put_flagged(
        alloc,
        t,
        k,
        first,
        one(alloc, Change::SetCounter(slot))?,
        into,
    )?;
    put_woken(alloc, t, after(k, 1)?, slot, second, next, into)
}

/// Appends the rules of an `await`.
pub fn put_await<'a>(
    alloc: Global,
    t: &Table<'_>,
    e: &'a Expr,
    k: u32,
    p: u32,
    next: Change,
    into: &mut List<Transition<'a>>,
) -> Result<(), NoMemory>
    ensures { OnOk result (map rule_in into.new
        ≡ map rule_in into.old ++ paused (layout_in t.now) k p (Nothing silent.Pause) (Tests e.now) next) }
{
    let pause = Task::Nothing(Silent::Pause);
    put_paused(alloc, t, pause, Task::Test(e), k, p, next, into)
}

/// Appends the rules of a `run`.
pub fn put_run<'a>(
    alloc: Global,
    t: &Table<'_>,
    place: Place,
    target: &'a Option<Path>,
    unit: u32,
    inputs: &'a [Expr],
    outputs: &'a [Path],
    k: u32,
    p: u32,
    next: Change,
    into: &mut List<Transition<'a>>,
) -> Result<(), NoMemory>
    ensures { OnOk result (let arguments = arguments_of target.now inputs.now outputs.now in
        map rule_in into.new ≡ map rule_in into.old ++ paused (layout_in t.now) k p (Enters place unit arguments) (Resumes place unit arguments) next) }
{
    let run = Run {
        place,
        unit,
        target: target.as_ref(),
        inputs,
        outputs,
    };
    put_paused(
        alloc,
        t,
        Task::Enter(run),
        Task::Resume(run),
        k,
        p,
        next,
        into,
    )
}

/// Appends the rule of the check of a `when`.
fn put_looked<'a>(
    alloc: Global,
    t: &Table<'_>,
    k: u32,
    p: u32,
    places: u32,
    rests: List<Slot>,
    e: &'a Expr,
    fires: Change,
    into: &mut List<Transition<'a>>,
) -> Result<(), NoMemory>
    ensures { OnOk result (map rule_in into.new
        ≡ map rule_in into.old ++ looked (layout_in t.now) k p places rests (Tests e.now) fires ∷ []) }
{
    put(
        Transition {
            number: t.number(k),
            condition: Condition::RestedIn(rests),
            task: Task::Test(e),
            on_true: forgotten(alloc, t, p, places, fires)?,
            on_false: List::new(alloc),
        },
        into,
    )
}

/// Appends the rule of the node by which a `when` ends in its first tick, where the test is true.
fn put_where<'a>(
    alloc: Global,
    t: &Table<'_>,
    test: bool,
    k: u32,
    next: Change,
    into: &mut List<Transition<'a>>,
) -> Result<(), NoMemory>
    ensures { OnOk result (map rule_in into.new
        ≡ map rule_in into.old ++ where_so test (flagged_rule (layout_in t.now) k (Nothing silent.End) (next ∷ []))) }
{
    if test {
        let end = Task::Nothing(Silent::End);
        put_flagged(alloc, t, k, end, one(alloc, next)?, into)?;
    }
    Ok(())
}

/// How far behind the first node of a construct the one stands by which it goes on in a later tick.
pub fn later(instant: bool) -> u32
    ensures { result ≡ later instant }
{
    if instant { 2 } else { 1 }
}

/// How far behind the first node of a construct the one stands by which it ends in a later tick.
fn last(instant: bool) -> u32
    ensures { result ≡ last instant }
{
    if instant { 3 } else { 2 }
}

/// How many nodes of a `when` stand before its body.
pub fn guard_nodes(instant: bool) -> u32
    ensures { result ≡ guard_nodes instant }
{
    if instant { 4 } else { 3 }
}

/// A change, and before it a mark, where the test is true.
fn begun(
    alloc: Global,
    instant: bool,
    number: u32,
    change: Change,
) -> Result<List<Change>, NoMemory>
    ensures { IfOk result (λ all. all ≡ mark_change instant number (change ∷ [])) }
{
    if instant {
        two(alloc, Change::SetMark(number), change)
    } else {
        one(alloc, change)
    }
}

/// Appends the rules of a `when`, whose body may be empty and rests at these numbers.
pub fn put_watched<'a>(
    alloc: Global,
    t: &Table<'_>,
    k: u32,
    p: u32,
    guard: Guard,
    e: &'a Expr,
    empty: bool,
    body: Size,
    rests: List<Slot>,
    next: Change,
    into: &mut List<Transition<'a>>,
) -> Result<(), NoMemory>
    ensures { OnOk result (map rule_in into.new
        ≡ map rule_in into.old ++ watched (layout_in t.now) k p guard (Tests e.now) empty body rests next) }
{
    let instant = body.instant;
    let ends = body_ends(t, k, instant)?;
    let inner = after(k, guard_nodes(instant))?;
    let first = begun(alloc, instant, t.number(k), entered(t, empty, inner, ends))?;
    let start = Task::Nothing(Silent::Start);
    put_flagged(alloc, t, k, start, first, into)?;
    put_where(alloc, t, instant, after(k, 1)?, next, into)?;
    let fires = fired(t, inner, guard, empty, ends, next);
    let check = after(k, later(instant))?;
    put_looked(alloc, t, check, p, body.places, rests, e, fires, into)?;
    let ending = after(k, last(instant))?;
    let end = Task::Nothing(Silent::End);
    put_flagged(alloc, t, ending, end, one(alloc, next)?, into)
}

/// Appends the rules of the two nodes of a loop with its test at the end.
pub fn put_turned<'a>(
    alloc: Global,
    t: &Table<'_>,
    k: u32,
    e: &'a Expr,
    empty: bool,
    next: Change,
    into: &mut List<Transition<'a>>,
) -> Result<(), NoMemory>
    ensures { OnOk result (map rule_in into.new ≡ map rule_in into.old ++ turned (layout_in t.now) k (Tests e.now) empty next) }
{
    let test = after(k, 1)?;
    let first = entered(t, empty, after(k, 2)?, Change::SetFlag(t.number(test)));
    let head = Task::Nothing(Silent::Head);
    put_flagged(alloc, t, k, head, one(alloc, first)?, into)?;
    put_tested(alloc, t, test, e, next, Change::SetFlag(t.number(k)), into)
}
