//! How many nodes and resting places stand in statements, and whether these may end in the tick in which they begin.

ghost use Rattle.std.specs.Prelude.{◌≡◌, ◌+◌, map, IfOk};
ghost use Rattle.bl_machine_transitions.specs.inner.Joined.{fork_instant, fork_of, fork_size, guarded_size, join_fork, or_size, sized, then_size};
ghost use Rattle.bl_machine_transitions.specs.inner.Parts.{Part, arm_part, branch_part, chain, forked, part, part_of_block};

use bl_tree::NoMemory;
use bl_tree::tree::{Arm, Branch, Stmt, StmtKind};

/// What stands in a part.
#[derive(Clone, Copy)]
pub struct Size {
    pub nodes: u32,
    pub places: u32,
    /// Whether it may end in the tick in which it begins.
    pub instant: bool,
}

/// What stands in branches.
#[derive(Clone, Copy)]
pub struct Fork {
    pub nodes: u32,
    pub places: u32,
    /// Whether some branch is strong.
    pub strong: bool,
    /// Whether each strong branch may end in the tick in which it begins.
    pub all: bool,
    /// Whether some branch may.
    pub some: bool,
}

/// A number so much further on. One that doesn't fit is want of memory.
pub fn after(k: u32, count: u32) -> Result<u32, NoMemory>
    ensures { IfOk result (λ next. next ≡ k + count) }
{
    k.checked_add(count).ok_or(NoMemory)
}

/// A part of which so many nodes stand before those of its body.
fn sized(own: u32, instant: bool, inner: Size) -> Result<Size, NoMemory>
    ensures { IfOk result (λ size. size ≡ sized own instant inner) }
{
    Ok(Size {
        nodes: after(own, inner.nodes)?,
        places: inner.places,
        instant,
    })
}

/// Two parts one after another.
fn follow(first: Size, second: Size) -> Result<Size, NoMemory>
    ensures { IfOk result (λ size. size ≡ then_size first second) }
{
    Ok(Size {
        nodes: after(first.nodes, second.nodes)?,
        places: after(first.places, second.places)?,
        instant: first.instant & second.instant,
    })
}

/// Two parts of which one is chosen.
fn either(first: Size, second: Size) -> Result<Size, NoMemory>
    ensures { IfOk result (λ size. size ≡ or_size first second) }
{
    Ok(Size {
        nodes: after(first.nodes, second.nodes)?,
        places: after(first.places, second.places)?,
        instant: first.instant | second.instant,
    })
}

/// Branches beside others.
fn beside(first: Fork, second: Fork) -> Result<Fork, NoMemory>
    ensures { IfOk result (λ fork. fork ≡ join_fork first second) }
{
    Ok(Fork {
        nodes: after(first.nodes, second.nodes)?,
        places: after(first.places, second.places)?,
        strong: first.strong | second.strong,
        all: first.all & second.all,
        some: first.some | second.some,
    })
}

/// One branch.
fn branch(weak: bool, body: Size) -> Result<Fork, NoMemory>
    ensures { IfOk result (λ fork. fork ≡ fork_of weak body) }
{
    Ok(Fork {
        nodes: body.nodes,
        places: after(body.places, 1)?,
        strong: !weak,
        all: weak | body.instant,
        some: body.instant,
    })
}

/// Whether a `cobegin` with these branches may end in the tick in which it begins.
pub fn fork_instant(fork: Fork) -> bool
    ensures { result ≡ fork_instant fork }
{
    if fork.strong { fork.all } else { fork.some }
}

/// A `cobegin` with these branches.
fn of_fork(fork: Fork) -> Result<Size, NoMemory>
    ensures { IfOk result (λ size. size ≡ fork_size fork) }
{
    let instant = fork_instant(fork);
    let own = if instant { 3 } else { 2 };
    Ok(Size {
        nodes: after(own, fork.nodes)?,
        places: fork.places,
        instant,
    })
}

/// A `when` with this body.
fn of_guarded(body: Size) -> Result<Size, NoMemory>
    ensures { IfOk result (λ size. size ≡ guarded_size body) }
{
    let own = if body.instant { 4 } else { 3 };
    sized(own, body.instant, body)
}

/// Statements one after another.
#[cycle(measuring)]
pub fn of_block(body: &[Stmt]) -> Result<Size, NoMemory>
    ensures { IfOk result (λ size. size ≡ (part_of_block (map part body.now)).size) }
{
    let mut all = Size {
        nodes: 0,
        places: 0,
        instant: true,
    };
    for s in body {
        let size = of_statement(s)?;
        let next = follow(all, size)?;
        all = next;
    }
    Ok(all)
}

/// A statement. No `if` of a program is without an arm.
#[cycle(measuring)]
pub fn of_statement(s: &Stmt) -> Result<Size, NoMemory>
    ensures { IfOk result (λ size. size ≡ (part s.now).size) }
{
    match &s.what {
        StmtKind::Declare(_, _)
        | StmtKind::Assign(_, _)
        | StmtKind::Call(_, _, _)
        | StmtKind::Return(_) => Ok(Size {
            nodes: 1,
            places: 0,
            instant: true,
        }),
        StmtKind::Await(_) | StmtKind::Run(_, _, _, _) => Ok(Size {
            nodes: 2,
            places: 1,
            instant: false,
        }),
        StmtKind::If(arms, other) => {
            if arms.is_empty() {
                Err(NoMemory)
            } else {
                let some = of_arms(arms)?;
                let rest = of_block(other)?;
                let size = either(some, rest)?;
                Ok(size)
            }
        }
        StmtKind::Cobegin(branches) => of_fork(of_branches(branches)?),
        StmtKind::When(_, _, body) => of_guarded(of_block(body)?),
        StmtKind::Repeat(body) => sized(1, false, of_block(body)?),
        StmtKind::Until(body, _) => {
            let inner = of_block(body)?;
            sized(2, inner.instant, inner)
        }
        StmtKind::While(_, body) => sized(1, true, of_block(body)?),
    }
}

/// The arms of an `if`.
#[cycle(measuring)]
fn of_arms(arms: &[Arm]) -> Result<Size, NoMemory>
    ensures { IfOk result (λ size. (other : Part) → or_size size other.size ≡ (chain (map arm_part arms.now) other).size) }
{
    let mut all = Size {
        nodes: 0,
        places: 0,
        instant: false,
    };
    for arm in arms {
        let inner = of_block(&arm.body)?;
        let size = sized(1, inner.instant, inner)?;
        let next = either(all, size)?;
        all = next;
    }
    Ok(all)
}

/// Branches.
#[cycle(measuring)]
pub fn of_branches(branches: &[Branch]) -> Result<Fork, NoMemory>
    ensures { IfOk result (λ fork. fork ≡ forked (map branch_part branches.now)) }
{
    let mut all = Fork {
        nodes: 0,
        places: 0,
        strong: false,
        all: true,
        some: false,
    };
    for each in branches {
        let size = of_block(&each.body)?;
        let one = branch(each.weak, size)?;
        let next = beside(all, one)?;
        all = next;
    }
    Ok(all)
}

/// Whether nothing stands in a block.
pub fn is_bare(body: &[Stmt]) -> bool
    ensures { result ≡ (part_of_block (map part body.now)).empty }
{
    body.is_empty()
}
