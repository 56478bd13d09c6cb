//! Programs driven over rows of inputs, and what is seen of their runs.

ghost use Rattle.std.specs.Prelude.{◌≡◌, ◌<◌, ◌^◌, length, slice_get};
ghost use Rattle.bl_ctree.specs.Instances.{instances_of};
ghost use Rattle.bl_ctree_run.specs.Outputs.{count_of_outputs, outputs_of_unit};
ghost use Rattle.bl_ctree_run.specs.Running.{setting};

use bl_ctree_run::Tree;
use bl_eval::Did;
use bl_tree::{List, NoMemory, Program, Row};
use std::alloc::Global;

/// Which of the actions that may be done next is done.
#[derive(Clone, Copy, PartialEq, Eq, Debug)]
pub enum Order {
    First,
    Last,
    /// The first, then the second of the next ones, and so on, from the first again where there are not so many.
    Mixed,
}

pub const ORDERS: [Order; 3] = [Order::First, Order::Last, Order::Mixed];

/// How a run stands after its last row of inputs.
#[derive(Clone, Copy, PartialEq, Eq, Debug)]
pub enum Stand {
    Open,
    Ended,
    Trap,
    /// Something is left to do in the tick, and nothing may act.
    Stuck,
    /// The tick did not end within 1,000 actions.
    Endless,
}

/// What is seen of a run.
#[derive(Drop)]
pub struct Seen {
    /// The outputs of its ticks, one row after another.
    pub outs: List<i128>,
    /// The places of its actions' statements.
    pub steps: List<u32>,
    pub stand: Stand,
}

/// Which of so many actions is taken; no later one than the thousandth.
fn chosen(order: Order, turn: u32, count: usize) -> u32
    requires { 0 < count }
    ensures { result < count }
{
    let few = count.min(1000) as u32;
    match order {
        Order::First => 0,
        Order::Last => few - 1,
        Order::Mixed => turn % few,
    }
}

/// Takes actions until none may act or one traps.
fn tick(tree: &mut Tree, order: Order, steps: &mut List<u32>) -> Result<Stand, NoMemory>
    ensures { setting tree.new ≡ setting tree.old }
{
    for turn in 0..1000u32 {
        let count = tree.count()?;
        if count == 0 {
            return Ok(standing(tree));
        }
        let n = chosen(order, turn, count);
        let actions = tree.actions()?;
        steps.push(actions[n as usize].place.start)?;
        match tree.act(n)? {
            Did::Trap => return Ok(Stand::Trap),
            Did::Done => {}
        }
    }
    Ok(Stand::Endless)
}

fn standing(tree: &Tree) -> Stand {
    if tree.ended() {
        Stand::Ended
    } else if tree.settled() {
        Stand::Open
    } else {
        Stand::Stuck
    }
}

/// A row of these numbers, or of the first hundred.
fn row(alloc: Global, numbers: &[i128]) -> Result<Row, NoMemory> {
    let few = numbers.len().min(100) as u32;
    let mut row = Row::new(alloc, few)?;
    for k in 0..few {
        row.set(k, numbers[k as usize]);
    }
    Ok(row)
}

fn append(row: &Row, into: &mut List<i128>) -> Result<(), NoMemory> {
    for k in 0..row.len() {
        into.push(row.at(k))?;
    }
    Ok(())
}

/// Whether a row of outputs ends the tick.
fn leaves_row(stand: Stand) -> bool {
    stand == Stand::Open || stand == Stand::Ended
}

/// How many outputs the entry has.
fn width(program: &Program) -> u32
    ensures { result ≡ outputs_of_unit (slice_get program.now.units program.now.entry) }
{
    match program.units.as_slice().get(program.entry as usize) {
        Some(unit) => unit.outputs,
        None => 0,
    }
}

/// Appends the row of the outputs, of which there are so many.
fn append_row(alloc: Global, tree: &Tree, count: u32, into: &mut List<i128>) -> Result<(), NoMemory>
    requires { count ≡ count_of_outputs (setting tree.now) }
{
    let mut outs = Row::new(alloc, count)?;
    tree.outs(&mut outs);
    append(&outs, into)
}

/// One more tick over these numbers, where the run is open.
fn go_on(
    alloc: Global,
    tree: &mut Tree,
    order: Order,
    numbers: &[i128],
    count: u32,
    seen: &mut Seen,
) -> Result<(), NoMemory>
    requires { count ≡ count_of_outputs (setting tree.old) }
    ensures { setting tree.new ≡ setting tree.old }
{
    if seen.stand != Stand::Open {
        return Ok(());
    }
    tree.wake(&row(alloc, numbers)?)?;
    seen.stand = tick(tree, order, &mut seen.steps)?;
    if leaves_row(seen.stand) {
        append_row(alloc, tree, count, &mut seen.outs)?;
    }
    Ok(())
}

/// Runs the program over the rows, as far as it goes.
pub fn run(
    alloc: Global,
    program: &Program,
    order: Order,
    rows: &[&[i128]],
) -> Result<Seen, NoMemory>
    requires { length (instances_of program.now.units program.now.entry) < 2 ^ 32 }
{
    let mut seen = Seen {
        outs: List::new(alloc),
        steps: List::new(alloc),
        stand: Stand::Open,
    };
    let count = width(program);
    let mut tree = Tree::start(alloc, program)?;
    for numbers in rows {
        go_on(alloc, &mut tree, order, numbers, count, &mut seen)?;
    }
    Ok(seen)
}
