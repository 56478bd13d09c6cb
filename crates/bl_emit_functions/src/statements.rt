//! The statements of a function.

ghost use Rattle.std.specs.Prelude.{◌≡◌, ◌+◌, ◌∷◌, [], IfOk, map, option_map, true};
ghost use Rattle.bl_tree.specs.declared.tree.Expr.{out-Expr};
ghost use Rattle.bl_tree.specs.declared.tree.ExprKind.{out-ExprKind};
ghost use Rattle.bl_emit_acts.specs.Acts.{code_made};
ghost use Rattle.bl_emit_acts.specs.Sites.{site_in};
ghost use Rattle.bl_emit_functions.specs.Statements as codes;
ghost use Rattle.bl_emit_functions.specs.Trees.{c_return, c_truth};

use crate::coded::{ArmsCoded, Coded, Free};
use crate::parts::{both, choice, flag as flag_at, looping, returning, set_flag, truth};
use bl_emit_acts::parts::{joined, read, single, statement as stated};
use bl_emit_acts::{UnitSite, act, code, expression};
use bl_tree::c::{CExpr, CStmt, CStmtKind};
use bl_tree::tree::{Arm, Expr, ExprKind, Path, Stmt, StmtKind};
use bl_tree::{List, NoMemory};
use std::alloc::Global;

/// The number after one. No memory holds so many statements that there is none.
fn next(number: u64) -> Result<u64, NoMemory>
    ensures { IfOk result (λ next. next ≡ number + 1) }
{
    number.checked_add(1).ok_or(NoMemory)
}

fn flag_taken(free: Free) -> Result<Free, NoMemory>
    ensures { IfOk result (λ taken. taken ≡ codes.flag_taken free) }
{
    Ok(Free {
        flags: next(free.flags)?,
        turns: free.turns,
    })
}

fn turn_taken(free: Free) -> Result<Free, NoMemory>
    ensures { IfOk result (λ taken. taken ≡ codes.turn_taken free) }
{
    Ok(Free {
        flags: free.flags,
        turns: next(free.turns)?,
    })
}

/// C that takes no number.
fn only(code: List<CStmt>, free: Free) -> Coded
    ensures { result ≡ codes.only_code code free }
{
    Coded { code, free }
}

/// The C of an expression.
fn value(alloc: Global, site: &UnitSite, e: &Expr) -> Result<CExpr, NoMemory>
    ensures { IfOk result (λ made. made ≡ code_made (site_in site.entry.now) e.now) }
{
    Ok(code(expression(alloc, site, e)?))
}

/// Whether an expression reads the whole variable at a position.
fn reads_whole(k: u32, e: &Expr) -> bool
    ensures { result ≡ codes.reads_whole k (out-ExprKind (out-Expr e.now).what) }
{
    match &e.what {
        ExprKind::Read(path) => k == path.root && path.parts.is_empty(),
        _ => false,
    }
}

/// Whether an assignment sets a whole variable to itself.
fn sets_itself(path: &Path, e: &Expr) -> bool
    ensures { result ≡ codes.sets_itself path.now e.now }
{
    path.parts.is_empty() && reads_whole(path.root, e)
}

/// The C of a statement of a function, from the numbers that are free before it. Fails only for want of memory.
#[cycle(statements)]
fn statement(alloc: Global, site: &UnitSite, s: &Stmt, free: Free) -> Result<Coded, NoMemory>
    ensures { IfOk result (λ coded. coded ≡ codes.codes_of (site_in site.entry.now) s.now free) }
{
    match &s.what {
        StmtKind::If(arms, other) => {
            let arms = chosen(alloc, site, arms, free)?;
            let other = block(alloc, site, other, free_after(&arms))?;
            closed(alloc, arms, other)
        }
        StmtKind::Repeat(body) => repeating(alloc, site, body, free),
        StmtKind::Until(body, e) => until(alloc, site, body, e, free),
        StmtKind::While(e, body) => while_true(alloc, site, body, e, free),
        StmtKind::Return(e) => returned(alloc, site, e, free),
        StmtKind::Assign(path, e) if sets_itself(path, e) => Ok(only(List::new(alloc), free)),
        StmtKind::Declare(_, _) | StmtKind::Assign(_, _) | StmtKind::Call(_, _, _) => {
            Ok(only(act(alloc, site, &[], s)?, free))
        }
        StmtKind::Await(_)
        | StmtKind::Run(_, _, _, _)
        | StmtKind::Cobegin(_)
        | StmtKind::When(_, _, _) => Ok(only(List::new(alloc), free)),
    }
}

/// The C of statements in order, from the numbers that are free before them. Fails only for want of memory.
#[cycle(statements)]
pub fn block(alloc: Global, site: &UnitSite, body: &[Stmt], free: Free) -> Result<Coded, NoMemory>
    ensures { IfOk result (λ coded. coded ≡ codes.block_codes (map (codes.codes_of (site_in site.entry.now)) body.now) free) }
{
    let mut code = List::new(alloc);
    let mut left = free;
    for s in body {
        let coded = statement(alloc, site, s, left)?;
        code = joined(code, coded.code)?;
        left = coded.free;
    }
    Ok(Coded { code, free: left })
}

/// The C of the arms of an `if`.
#[cycle(statements)]
fn chosen(alloc: Global, site: &UnitSite, arms: &[Arm], free: Free) -> Result<ArmsCoded, NoMemory>
    ensures { IfOk result (λ made. made ≡ codes.arms_coded (map (codes.codes_of_arm (site_in site.entry.now)) arms.now) free) }
{
    match arms {
        [arm] => {
            let test = value(alloc, site, &arm.test)?;
            let body = block(alloc, site, &arm.body, free)?;
            Ok(ArmsCoded::One(test, body))
        }
        [first, second] => {
            let test = value(alloc, site, &first.test)?;
            let body = block(alloc, site, &first.body, free)?;
            let further = value(alloc, site, &second.test)?;
            let inner = block(alloc, site, &second.body, body.free)?;
            Ok(ArmsCoded::Two(test, body, further, inner))
        }
        _ => {
            let taken = arms_taken(alloc, site, arms, free.flags, flag_taken(free)?)?;
            Ok(ArmsCoded::Several(free.flags, taken))
        }
    }
}

/// The numbers that are free after the arms.
fn free_after(arms: &ArmsCoded) -> Free
    ensures { result ≡ codes.free_after arms.now }
{
    match arms {
        ArmsCoded::One(_, body) => body.free,
        ArmsCoded::Two(_, _, _, inner) => inner.free,
        ArmsCoded::Several(_, taken) => taken.free,
    }
}

/// The arms, and behind them what is done else.
fn closed(alloc: Global, arms: ArmsCoded, other: Coded) -> Result<Coded, NoMemory>
    ensures { IfOk result (λ coded. coded ≡ codes.closed_by arms other) }
{
    match arms {
        ArmsCoded::One(test, body) => either(alloc, test, body, other),
        ArmsCoded::Two(test, body, further, inner) => {
            let rest = either(alloc, further, inner, other)?;
            either(alloc, test, body, rest)
        }
        ArmsCoded::Several(flag, taken) => flagged(alloc, flag, taken, other),
    }
}

/// One arm and what is done else, where the C of both is made.
fn either(alloc: Global, test: CExpr, body: Coded, other: Coded) -> Result<Coded, NoMemory>
    ensures { IfOk result (λ coded. coded ≡ codes.either_by test body other) }
{
    let s = choice(alloc, test, body.code, else_block(other.code))?;
    Ok(only(single(alloc, s)?, other.free))
}

/// An `else`, which is left out where it is empty.
fn else_block(code: List<CStmt>) -> Option<List<CStmt>>
    ensures { result ≡ codes.else_code code }
{
    if code.is_empty() { None } else { Some(code) }
}

/// Several arms, and what is done else. A flag tells whether no arm was taken.
fn flagged(alloc: Global, flag: u64, arms: Coded, other: Coded) -> Result<Coded, NoMemory>
    ensures { IfOk result (λ coded. coded ≡ codes.flagged_by flag arms other) }
{
    let start = single(alloc, set_flag(alloc, flag, true)?)?;
    let rest = untaken(alloc, flag, other.code)?;
    let code = joined(start, joined(arms.code, rest)?)?;
    Ok(only(code, other.free))
}

/// The arms that a flag of this number guards.
#[cycle(statements)]
fn arms_taken(
    alloc: Global,
    site: &UnitSite,
    arms: &[Arm],
    flag: u64,
    free: Free,
) -> Result<Coded, NoMemory>
    ensures { IfOk result (λ coded. coded ≡ codes.arms_taken flag (map (codes.codes_of_arm (site_in site.entry.now)) arms.now) free) }
{
    let mut code = List::new(alloc);
    let mut left = free;
    for arm in arms {
        let taken = arm_taken(alloc, site, arm, flag, left)?;
        code = joined(code, taken.code)?;
        left = taken.free;
    }
    Ok(Coded { code, free: left })
}

/// One of them.
#[cycle(statements)]
fn arm_taken(
    alloc: Global,
    site: &UnitSite,
    arm: &Arm,
    flag: u64,
    free: Free,
) -> Result<Coded, NoMemory>
    ensures { IfOk result (λ coded. coded ≡ codes.arm_taken flag (codes.codes_of_arm (site_in site.entry.now) arm.now) free) }
{
    let test = value(alloc, site, &arm.test)?;
    let body = block(alloc, site, &arm.body, free)?;
    let untaken = read(flag_at(alloc, flag)?);
    let taken = joined(single(alloc, set_flag(alloc, flag, false)?)?, body.code)?;
    let s = choice(alloc, both(alloc, untaken, test)?, taken, None)?;
    Ok(only(single(alloc, s)?, body.free))
}

/// What is done where the flag tells that no arm was taken; nothing where that is empty.
fn untaken(alloc: Global, flag: u64, code: List<CStmt>) -> Result<List<CStmt>, NoMemory>
    ensures { IfOk result (λ made. made ≡ codes.untaken_code flag code) }
{
    if code.is_empty() {
        return Ok(code);
    }
    let test = read(flag_at(alloc, flag)?);
    single(alloc, choice(alloc, test, code, None)?)
}

/// A loop that goes on until it returns or has too many turns.
#[cycle(statements)]
fn repeating(alloc: Global, site: &UnitSite, body: &[Stmt], free: Free) -> Result<Coded, NoMemory>
    ensures { IfOk result (λ coded. coded ≡ codes.loop_code free.turns (c_truth true) []
        (codes.block_codes (map (codes.codes_of (site_in site.entry.now)) body.now) (codes.turn_taken free))) }
{
    let body = block(alloc, site, body, turn_taken(free)?)?;
    turning(alloc, free.turns, truth(true), List::new(alloc), body)
}

/// A loop that ends where the condition is true after its body.
#[cycle(statements)]
fn until(
    alloc: Global,
    site: &UnitSite,
    body: &[Stmt],
    e: &Expr,
    free: Free,
) -> Result<Coded, NoMemory>
    ensures { IfOk result (λ coded. coded ≡ codes.loop_code free.turns (c_truth true) (codes.break_code (code_made (site_in site.entry.now) e.now))
        (codes.block_codes (map (codes.codes_of (site_in site.entry.now)) body.now) (codes.turn_taken free))) }
{
    let body = block(alloc, site, body, turn_taken(free)?)?;
    let last = breaking(alloc, value(alloc, site, e)?)?;
    turning(alloc, free.turns, truth(true), last, body)
}

/// A loop that goes on while the condition is true before its body.
#[cycle(statements)]
fn while_true(
    alloc: Global,
    site: &UnitSite,
    body: &[Stmt],
    e: &Expr,
    free: Free,
) -> Result<Coded, NoMemory>
    ensures { IfOk result (λ coded. coded ≡ codes.loop_code free.turns (code_made (site_in site.entry.now) e.now) []
        (codes.block_codes (map (codes.codes_of (site_in site.entry.now)) body.now) (codes.turn_taken free))) }
{
    let test = value(alloc, site, e)?;
    let body = block(alloc, site, body, turn_taken(free)?)?;
    turning(alloc, free.turns, test, List::new(alloc), body)
}

/// A loop by its number, its condition, what stands behind its body in each turn, and the body.
fn turning(
    alloc: Global,
    turn: u64,
    test: CExpr,
    last: List<CStmt>,
    body: Coded,
) -> Result<Coded, NoMemory>
    ensures { IfOk result (λ coded. coded ≡ codes.loop_code turn test last body) }
{
    let s = looping(alloc, turn, test, joined(body.code, last)?)?;
    Ok(only(single(alloc, s)?, body.free))
}

/// The loop ends where the condition is true.
fn breaking(alloc: Global, test: CExpr) -> Result<List<CStmt>, NoMemory>
    ensures { IfOk result (λ code. code ≡ codes.break_code test) }
{
    let end = single(alloc, stated(CStmtKind::Break))?;
    single(alloc, choice(alloc, test, end, None)?)
}

/// A `return`.
fn returned(alloc: Global, site: &UnitSite, e: &Option<Expr>, free: Free) -> Result<Coded, NoMemory>
    ensures { IfOk result (λ coded. coded ≡ codes.only_code (c_return (option_map (code_made (site_in site.entry.now)) e.now) ∷ []) free) }
{
    let value = match e {
        Some(e) => Some(value(alloc, site, e)?),
        None => None,
    };
    let s = returning(alloc, value)?;
    Ok(only(single(alloc, s)?, free))
}
