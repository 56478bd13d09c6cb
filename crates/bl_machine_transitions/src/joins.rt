//! What a `cobegin` begins, and its ends.

ghost use Rattle.std.specs.Prelude.{◌≡◌, ◌+◌, ◌∷◌, ◌++◌, [], map, IfOk, OnOk};
ghost use Rattle.std.specs.Prelude.{if◌then◌else◌};
ghost use Rattle.bl_machine_transitions.specs.Listed.{fork_nodes, mark_change};
ghost use Rattle.bl_machine_transitions.specs.Told.{rule_in};
ghost use Rattle.bl_machine_transitions.specs.inner.Joined.{all_joined, joined, layout_in, old, where_so};
ghost use Rattle.bl_machine_transitions.specs.inner.Parts.{branch_part, ends, entry_changes, needs};

use crate::changes::{entered, freed};
use crate::nodes::{later, put};
use crate::size::{after, is_bare, of_block, of_branches};
use crate::table::Table;
use crate::transition::{Age, Change, Condition, Needed, Silent, Task, Transition};
use bl_machine::Slot;
use bl_tree::tree::Branch;
use bl_tree::{List, NoMemory};
use std::alloc::Global;

/// How many nodes of a `cobegin` stand before its branches.
pub fn fork_nodes(instant: bool) -> u32
    ensures { result ≡ fork_nodes instant }
{
    if instant { 3 } else { 2 }
}

/// The numbers of the ends of branches, or of the strong ones alone.
fn ends(
    alloc: Global,
    t: &Table<'_>,
    branches: &[Branch],
    strong: bool,
    p: u32,
) -> Result<List<Slot>, NoMemory>
    ensures { IfOk result (λ slots. slots ≡ ends strong (layout_in t.now) p (map branch_part branches.now)) }
{
    let mut slots = List::new(alloc);
    let mut at = p;
    for branch in branches {
        let body = branch.body.as_slice();
        let size = of_block(body)?;
        let wide = after(size.places, 1)?;
        let slot = t.slot(at);
        put_unless(strong & branch.weak, slot, &mut slots)?;
        at = after(at, wide)?;
    }
    Ok(slots)
}

/// Appends a number, unless the test is true.
fn put_unless(test: bool, slot: Slot, slots: &mut List<Slot>) -> Result<(), NoMemory>
    ensures { OnOk result (slots.new ≡ slots.old ++ (if test then [] else slot ∷ [])) }
{
    if !test {
        slots.push(slot)?;
    }
    Ok(())
}

/// The ends for which a `cobegin` waits.
fn needs(alloc: Global, t: &Table<'_>, branches: &[Branch], p: u32) -> Result<Needed, NoMemory>
    ensures { IfOk result (λ made. made ≡ needs (layout_in t.now) p (map branch_part branches.now)) }
{
    let strong = of_branches(branches)?.strong;
    let slots = ends(alloc, t, branches, strong, p)?;
    Ok(Needed { all: strong, slots })
}

/// What the branches do where they begin, and before it a mark, where the test is true.
pub fn begun_branches(
    alloc: Global,
    t: &Table<'_>,
    branches: &[Branch],
    instant: bool,
    number: u32,
    k: u32,
    p: u32,
) -> Result<List<Change>, NoMemory>
    ensures { IfOk result (λ all. all ≡ mark_change instant number (entry_changes (layout_in t.now) k p (map branch_part branches.now))) }
{
    let mut all = List::new(alloc);
    if instant {
        all.push(Change::SetMark(number))?;
    }
    begin(t, branches, k, p, &mut all)?;
    Ok(all)
}

fn begin(
    t: &Table<'_>,
    branches: &[Branch],
    k: u32,
    p: u32,
    into: &mut List<Change>,
) -> Result<(), NoMemory>
    ensures { OnOk result (into.new ≡ into.old ++ entry_changes (layout_in t.now) k p (map branch_part branches.now)) }
{
    let mut node = k;
    let mut place = p;
    for branch in branches {
        let body = branch.body.as_slice();
        let size = of_block(body)?;
        let wide = after(size.places, 1)?;
        let rest = Change::SetCounter(t.slot(place));
        let empty = is_bare(body);
        let enters = entered(t, empty, node, rest);
        into.push(enters)?;
        node = after(node, size.nodes)?;
        place = after(place, wide)?;
    }
    Ok(())
}

/// The rule of an end of a `cobegin` at the node.
fn put_joined<'a>(
    alloc: Global,
    t: &Table<'_>,
    k: u32,
    p: u32,
    places: u32,
    needed: Needed,
    age: Age,
    next: Change,
    into: &mut List<Transition<'a>>,
) -> Result<(), NoMemory>
    ensures { OnOk result (map rule_in into.new
        ≡ map rule_in into.old ++ joined (layout_in t.now) k p places needed age next ∷ []) }
{
    put(
        Transition {
            number: t.number(k),
            condition: Condition::Ended(age, needed),
            task: Task::Nothing(Silent::Join),
            on_true: freed(alloc, t, p, places, next)?,
            on_false: List::new(alloc),
        },
        into,
    )
}

/// The age of a `cobegin` in a later tick.
fn old(instant: bool, number: u32) -> Age
    ensures { result ≡ old instant number }
{
    if instant { Age::Old(number) } else { Age::Any }
}

/// The rule of the end in the tick in which a `cobegin` begins, where the test is true.
fn put_new<'a>(
    alloc: Global,
    t: &Table<'_>,
    branches: &[Branch],
    instant: bool,
    k: u32,
    p: u32,
    places: u32,
    next: Change,
    into: &mut List<Transition<'a>>,
) -> Result<(), NoMemory>
    ensures { OnOk result (let layout = layout_in t.now in let needed = needs layout p (map branch_part branches.now) in
        map rule_in into.new ≡ map rule_in into.old ++ where_so instant (joined layout (k + 1) p places needed (Age.New (layout.number k)) next)) }
{
    if instant {
        let needed = needs(alloc, t, branches, p)?;
        let age = Age::New(t.number(k));
        put_joined(alloc, t, after(k, 1)?, p, places, needed, age, next, into)?;
    }
    Ok(())
}

/// The rules of the ends of a `cobegin` that begins at the node.
pub fn put_joins<'a>(
    alloc: Global,
    t: &Table<'_>,
    branches: &[Branch],
    instant: bool,
    k: u32,
    p: u32,
    places: u32,
    next: Change,
    into: &mut List<Transition<'a>>,
) -> Result<(), NoMemory>
    ensures { OnOk result (map rule_in into.new ≡ map rule_in into.old
        ++ all_joined (layout_in t.now) instant k p places (needs (layout_in t.now) p (map branch_part branches.now)) next) }
{
    put_new(alloc, t, branches, instant, k, p, places, next, into)?;
    let needed = needs(alloc, t, branches, p)?;
    let at = after(k, later(instant))?;
    let age = old(instant, t.number(k));
    put_joined(alloc, t, at, p, places, needed, age, next, into)
}
