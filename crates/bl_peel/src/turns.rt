//! Bodies with first turns are made in one walk, which tells on its way whether what begins a branch may end at once.

ghost use Rattle.std.specs.Prelude.{◌≡◌, ◌∷◌, [], ◌++◌, ◌&&◌, ◌||◌, false, true, map, IfOk, OnOk};
ghost use Rattle.bl_tree.specs.declared.tree.StmtKind.TheOpen.{StmtKind-F};
ghost use Rattle.bl_peel.specs.Peeled.{deep_of, front_ends, front_of, kind_front, made_if, peeling};
ghost use Rattle.bl_peel.specs.inner.Parts.{deep_of_kind, front_arm, front_arms, front_block, front_branches, fronted, placed_stmt};
ghost use Rattle.bl_peel.specs.inner.Parts.{peeling_of_arm, peeling_of_branch, peeling_of_kind};

use crate::copies::{expr, without_block};
use crate::ends::Ends;
use bl_tree::tree::{Arm, Branch, Expr, Guard, Stmt, StmtKind};
use bl_tree::{List, NoMemory, Place};
use std::alloc::Global;

/// A block as it begins a branch.
#[derive(Drop)]
pub struct FrontBlock {
    pub body: List<Stmt>,
    /// Whether it may end in its first tick.
    pub instant: bool,
}

/// An arm as it begins a branch.
#[derive(Drop)]
pub struct FrontArm {
    pub arm: Arm,
    /// Whether it may end in its first tick.
    pub instant: bool,
}

/// The arms of an `if` that begins a branch.
#[derive(Drop)]
pub struct FrontArms {
    pub arms: List<Arm>,
    /// Whether one of them may end in its first tick.
    pub instant: bool,
}

/// The branches of a `cobegin`, each of which begins with first turns.
#[derive(Drop)]
pub struct FrontBranches {
    pub branches: List<Branch>,
    /// Whether the `cobegin` may end in its first tick.
    pub instant: bool,
}

// ---- parts that are there already

/// Appends a statement.
fn append(place: Place, what: StmtKind, into: &mut List<Stmt>) -> Result<(), NoMemory>
    ensures { OnOk result (into.new ≡ into.old ++ placed_stmt place what ∷ []) }
{
    into.push(Stmt { place, what })?;
    Ok(())
}

/// Appends an `if` that tests the condition of a loop, and stands at that condition.
fn append_test(
    alloc: Global,
    e: &Expr,
    body: List<Stmt>,
    other: List<Stmt>,
    into: &mut List<Stmt>,
) -> Result<(), NoMemory>
    ensures { OnOk result (into.new ≡ into.old ++ made_if e.now body other ∷ []) }
{
    let test = expr(alloc, e)?;
    let mut arms = List::new(alloc);
    arms.push(Arm { test, body })?;
    append(e.place, StmtKind::If(arms, other), into)
}

/// Appends what follows the first turn of a loop with its test behind: the test, and where it fails the loop.
fn append_until(
    alloc: Global,
    turns: List<Stmt>,
    e: &Expr,
    place: Place,
    into: &mut List<Stmt>,
) -> Result<(), NoMemory>
    ensures { OnOk result (into.new ≡ into.old ++ made_if e.now [] (placed_stmt place (StmtKind.Until turns e.now) ∷ []) ∷ []) }
{
    let again = expr(alloc, e)?;
    let mut other = List::new(alloc);
    append(place, StmtKind::Until(turns, again), &mut other)?;
    append_test(alloc, e, List::new(alloc), other, into)
}

/// Appends the first turn of a loop with its test before, which is tested, and the loop behind it.
fn append_while(
    alloc: Global,
    first: List<Stmt>,
    turns: List<Stmt>,
    e: &Expr,
    place: Place,
    into: &mut List<Stmt>,
) -> Result<(), NoMemory>
    ensures { OnOk result (into.new ≡ into.old ++ made_if e.now (first ++ placed_stmt place (StmtKind.While e.now turns) ∷ []) [] ∷ []) }
{
    let again = expr(alloc, e)?;
    let mut body = first;
    append(place, StmtKind::While(again, turns), &mut body)?;
    append_test(alloc, e, body, List::new(alloc), into)
}

/// Appends an `if` that begins a branch; answers whether it may end in its first tick.
fn append_if(
    place: Place,
    tested: FrontArms,
    otherwise: FrontBlock,
    into: &mut List<Stmt>,
) -> Result<bool, NoMemory>
    ensures instant { IfOk result (λ ends. ends ≡ (tested.instant || otherwise.instant)) }
    ensures made { OnOk result (into.new ≡ into.old ++ placed_stmt place (StmtKind.If tested.arms otherwise.body) ∷ []) }
{
    let FrontArms { arms, instant } = tested;
    let FrontBlock {
        body,
        instant: other,
    } = otherwise;
    append(place, StmtKind::If(arms, body), into)?;
    Ok(instant | other)
}

/// Appends a `when` that begins a branch; answers whether it may end in its first tick.
fn append_when(
    alloc: Global,
    inside: FrontBlock,
    guard: Guard,
    e: &Expr,
    place: Place,
    into: &mut List<Stmt>,
) -> Result<bool, NoMemory>
    ensures instant { IfOk result (λ ends. ends ≡ inside.instant) }
    ensures made { OnOk result (into.new ≡ into.old ++ placed_stmt place (StmtKind.When guard e.now inside.body) ∷ []) }
{
    let FrontBlock { body, instant } = inside;
    let test = expr(alloc, e)?;
    append(place, StmtKind::When(guard, test, body), into)?;
    Ok(instant)
}

/// Appends a `cobegin`; answers whether it may end in its first tick.
fn append_cobegin(
    place: Place,
    inside: FrontBranches,
    into: &mut List<Stmt>,
) -> Result<bool, NoMemory>
    ensures instant { IfOk result (λ ends. ends ≡ inside.instant) }
    ensures made { OnOk result (into.new ≡ into.old ++ placed_stmt place (StmtKind.Cobegin inside.branches) ∷ []) }
{
    let FrontBranches { branches, instant } = inside;
    append(place, StmtKind::Cobegin(branches), into)?;
    Ok(instant)
}

// ---- outside of first turns

/// The statements as they are outside of first turns. Fails only for want of memory.
#[cycle(turns)]
pub fn deep_block(alloc: Global, body: &[Stmt]) -> Result<List<Stmt>, NoMemory>
    ensures { IfOk result (λ made. made ≡ deep_of (map peeling body.now)) }
{
    let mut made = List::new(alloc);
    for s in body {
        made.push(deep(alloc, s)?)?;
    }
    Ok(made)
}

#[cycle(turns)]
fn deep(alloc: Global, s: &Stmt) -> Result<Stmt, NoMemory>
    ensures { IfOk result (λ made. made ≡ (peeling s.now).deep) }
{
    let what = deep_kind(alloc, &s.what)?;
    Ok(Stmt {
        place: s.place,
        what,
    })
}

#[cycle(turns)]
fn deep_kind(alloc: Global, what: &StmtKind) -> Result<StmtKind, NoMemory>
    ensures { IfOk result (λ made. made ≡ deep_of_kind what.now) }
{
    match what {
        StmtKind::Declare(_, _)
        | StmtKind::Assign(_, _)
        | StmtKind::Call(_, _, _)
        | StmtKind::Await(_)
        | StmtKind::Run(_, _, _, _)
        | StmtKind::Return(_) => without_block(alloc, what),
        StmtKind::If(arms, other) => {
            let arms = deep_arms(alloc, arms)?;
            Ok(StmtKind::If(arms, deep_block(alloc, other)?))
        }
        StmtKind::Cobegin(all) => {
            let inside = front_branches(alloc, all)?;
            Ok(StmtKind::Cobegin(inside.branches))
        }
        StmtKind::When(guard, e, body) => {
            let e = expr(alloc, e)?;
            Ok(StmtKind::When(*guard, e, deep_block(alloc, body)?))
        }
        StmtKind::Repeat(body) => Ok(StmtKind::Repeat(deep_block(alloc, body)?)),
        StmtKind::Until(body, e) => {
            let e = expr(alloc, e)?;
            Ok(StmtKind::Until(deep_block(alloc, body)?, e))
        }
        StmtKind::While(e, body) => {
            let e = expr(alloc, e)?;
            Ok(StmtKind::While(e, deep_block(alloc, body)?))
        }
    }
}

#[cycle(turns)]
fn deep_arms(alloc: Global, arms: &[Arm]) -> Result<List<Arm>, NoMemory>
    ensures { IfOk result (λ made. made ≡ map (λ arm. arm.deep) (map peeling_of_arm arms.now)) }
{
    let mut made = List::new(alloc);
    for arm in arms {
        made.push(deep_arm(alloc, arm)?)?;
    }
    Ok(made)
}

#[cycle(turns)]
fn deep_arm(alloc: Global, arm: &Arm) -> Result<Arm, NoMemory>
    ensures { IfOk result (λ made. made ≡ (peeling_of_arm arm.now).deep) }
{
    let test = expr(alloc, &arm.test)?;
    let body = deep_block(alloc, &arm.body)?;
    Ok(Arm { test, body })
}

// ---- where a branch begins

/// Appends statements as they begin a branch; answers whether they may end in their first tick.
#[cycle(turns)]
fn fronts(alloc: Global, body: &[Stmt], into: &mut List<Stmt>) -> Result<bool, NoMemory>
    ensures instant { IfOk result (λ ends. ends ≡ front_ends (map peeling body.now)) }
    ensures made { OnOk result (into.new ≡ into.old ++ front_of (map peeling body.now)) }
{
    let mut begins = true;
    for s in body {
        begins = fronted(alloc, s, begins, into)?;
    }
    Ok(begins)
}

/// Appends a statement of a list that begins a branch; answers whether it and those before it may end in their first tick.
#[cycle(turns)]
fn fronted(alloc: Global, s: &Stmt, begins: bool, into: &mut List<Stmt>) -> Result<bool, NoMemory>
    ensures instant { IfOk result (λ ends. ends ≡ (begins && (peeling s.now).instant)) }
    ensures made { OnOk result (into.new ≡ into.old ++ fronted begins (peeling s.now)) }
{
    if begins {
        return front(alloc, &s.what, s.place, into);
    }
    into.push(deep(alloc, s)?)?;
    Ok(false)
}

#[cycle(turns)]
fn front(
    alloc: Global,
    what: &StmtKind,
    place: Place,
    into: &mut List<Stmt>,
) -> Result<bool, NoMemory>
    ensures instant { IfOk result (λ ends. ends ≡ (peeling_of_kind what.now place).instant) }
    ensures made { OnOk result (into.new ≡ into.old ++ (peeling_of_kind what.now place).front) }
{
    match what {
        StmtKind::Declare(_, _)
        | StmtKind::Assign(_, _)
        | StmtKind::Call(_, _, _)
        | StmtKind::Return(_) => {
            append(place, without_block(alloc, what)?, into)?;
            Ok(true)
        }
        StmtKind::Await(_) | StmtKind::Run(_, _, _, _) => {
            append(place, without_block(alloc, what)?, into)?;
            Ok(false)
        }
        StmtKind::If(arms, other) => {
            let tested = front_arms(alloc, arms)?;
            append_if(place, tested, front_block(alloc, other)?, into)
        }
        StmtKind::Cobegin(all) => append_cobegin(place, front_branches(alloc, all)?, into),
        StmtKind::When(guard, e, body) => {
            let inside = front_block(alloc, body)?;
            append_when(alloc, inside, *guard, e, place, into)
        }
        StmtKind::Repeat(body) => front_repeat(alloc, body, place, into),
        StmtKind::Until(body, e) => front_until(alloc, body, e, place, into),
        StmtKind::While(e, body) => front_while(alloc, body, e, place, into),
    }
}

#[cycle(turns)]
fn front_repeat(
    alloc: Global,
    body: &[Stmt],
    place: Place,
    into: &mut List<Stmt>,
) -> Result<bool, NoMemory>
    ensures instant { IfOk result (λ ends. ends ≡ false) }
    ensures made { OnOk result (into.new ≡ into.old ++ kind_front (StmtKind-F.Repeat (map peeling body.now)) place) }
{
    fronts(alloc, body, into)?;
    let turns = deep_block(alloc, body)?;
    append(place, StmtKind::Repeat(turns), into)?;
    Ok(false)
}

#[cycle(turns)]
fn front_until(
    alloc: Global,
    body: &[Stmt],
    e: &Expr,
    place: Place,
    into: &mut List<Stmt>,
) -> Result<bool, NoMemory>
    ensures instant { IfOk result (λ ends. ends ≡ front_ends (map peeling body.now)) }
    ensures made { OnOk result (into.new ≡ into.old ++ kind_front (StmtKind-F.Until (map peeling body.now) e.now) place) }
{
    let ends = fronts(alloc, body, into)?;
    let turns = deep_block(alloc, body)?;
    append_until(alloc, turns, e, place, into)?;
    Ok(ends)
}

#[cycle(turns)]
fn front_while(
    alloc: Global,
    body: &[Stmt],
    e: &Expr,
    place: Place,
    into: &mut List<Stmt>,
) -> Result<bool, NoMemory>
    ensures instant { IfOk result (λ ends. ends ≡ true) }
    ensures made { OnOk result (into.new ≡ into.old ++ kind_front (StmtKind-F.While e.now (map peeling body.now)) place) }
{
    let first = front_block(alloc, body)?;
    let turns = deep_block(alloc, body)?;
    append_while(alloc, first.body, turns, e, place, into)?;
    Ok(true)
}

#[cycle(turns)]
fn front_block(alloc: Global, body: &[Stmt]) -> Result<FrontBlock, NoMemory>
    ensures { IfOk result (λ made. made ≡ front_block (map peeling body.now)) }
{
    let mut made = List::new(alloc);
    let instant = fronts(alloc, body, &mut made)?;
    Ok(FrontBlock {
        body: made,
        instant,
    })
}

#[cycle(turns)]
fn front_arms(alloc: Global, all: &[Arm]) -> Result<FrontArms, NoMemory>
    ensures { IfOk result (λ made. made ≡ front_arms (map peeling_of_arm all.now)) }
{
    let mut arms = List::new(alloc);
    let mut instant = false;
    for one in all {
        let made = front_arm(alloc, one)?;
        instant |= made.instant;
        arms.push(made.arm)?;
    }
    Ok(FrontArms { arms, instant })
}

#[cycle(turns)]
fn front_arm(alloc: Global, arm: &Arm) -> Result<FrontArm, NoMemory>
    ensures { IfOk result (λ made. made ≡ front_arm (peeling_of_arm arm.now)) }
{
    let test = expr(alloc, &arm.test)?;
    let FrontBlock { body, instant } = front_block(alloc, &arm.body)?;
    Ok(FrontArm {
        arm: Arm { test, body },
        instant,
    })
}

/// The branches of a `cobegin`, wherever it stands.
#[cycle(turns)]
fn front_branches(alloc: Global, all: &[Branch]) -> Result<FrontBranches, NoMemory>
    ensures { IfOk result (λ made. made ≡ front_branches (map peeling_of_branch all.now)) }
{
    let mut branches = List::new(alloc);
    let mut ends = Ends::new();
    for one in all {
        let FrontBlock { body, instant } = front_block(alloc, &one.body)?;
        ends = ends.with(one.weak, instant);
        branches.push(Branch {
            weak: one.weak,
            body,
        })?;
    }
    Ok(FrontBranches {
        branches,
        instant: ends.at_once(),
    })
}
