//! Counters of an activity: which of them a body tests, and by which numbers. What is found here is a choice, of which no
//! clause speaks.

use bl_simplify_facts::copy::expr as copy_of;
use bl_simplify_facts::entries::{Case, Entry};
use bl_simplify_facts::spots::spot_in;
use bl_simplify_facts::told::number_of;
use bl_simplify_laws::facts::CSpot;
use bl_tree::c::{CExpr, CExprKind, CPlace, CStep, CStmt, CStmtKind};
use bl_tree::{Box, List, NoMemory, Op, Text};
use std::alloc::Global;

// ---- names

/// Whether a member is a counter: `c` and digits.
fn is_counter(member: &str) -> bool {
    match member.as_bytes() {
        [b'c', digits @ ..] => are_digits(digits),
        _ => false,
    }
}

fn are_digits(bytes: &[u8]) -> bool {
    for byte in bytes {
        if !byte.is_ascii_digit() {
            return false;
        }
    }
    !bytes.is_empty()
}

/// Whether a local is the copy of a counter: `w` and the counter's digits.
fn is_copy(local: &str, counter: &str) -> bool {
    match (local.as_bytes(), counter.as_bytes()) {
        ([b'w', digits @ ..], [b'c', others @ ..]) => digits == others,
        _ => false,
    }
}

/// The member that a place is, where it is a counter behind a pointer.
fn counter_at(at: &CPlace) -> Option<&Text> {
    match at.steps.as_slice() {
        [step] if at.through && step.index.is_none() && is_counter(&step.member) => {
            Some(&step.member)
        }
        _ => None,
    }
}

/// Whether a place is this counter, or the copy of it.
fn reads(at: &CPlace, counter: &str) -> bool {
    match counter_at(at) {
        Some(member) => member.as_str() == counter,
        None => !at.through && at.steps.is_empty() && is_copy(&at.name, counter),
    }
}

// ---- the test of a counter for that of its copy

/// The comparison of a counter in place of its copy, where the first case knows such a counter.
pub fn counter_test(
    alloc: Global,
    cases: &[Case],
    condition: &CExpr,
) -> Result<Option<CExpr>, NoMemory> {
    match (cases, &condition.what) {
        ([case, ..], CExprKind::Two(op, left, right)) => {
            match counter_read(alloc, case, left)? {
                Some(read) => {
                    let left = Box::new(alloc, read)?;
                    let right = Box::new(alloc, copy_of(alloc, right)?)?;
                    Ok(Some(CExpr {
                        place: condition.place,
                        what: CExprKind::Two(*op, left, right),
                    }))
                }
                None => Ok(None),
            }
        }
        _ => Ok(None),
    }
}

/// The same comparison by `==`, of one by `>=`.
pub fn equal_test(alloc: Global, test: &CExpr) -> Result<Option<CExpr>, NoMemory> {
    match &test.what {
        CExprKind::Two(Op::Ge, left, right) => {
            let left = Box::new(alloc, copy_of(alloc, left)?)?;
            let right = Box::new(alloc, copy_of(alloc, right)?)?;
            Ok(Some(CExpr {
                place: test.place,
                what: CExprKind::Two(Op::Eq, left, right),
            }))
        }
        _ => Ok(None),
    }
}

/// The read of the counter that a case knows of which a read local is the copy.
fn counter_read(alloc: Global, case: &[Entry], copy: &CExpr) -> Result<Option<CExpr>, NoMemory> {
    match &copy.what {
        CExprKind::Read(at) if !at.through && at.steps.is_empty() => {
            match counter_in(alloc, case, &at.name)? {
                Some(counter) => Ok(Some(CExpr {
                    place: copy.place,
                    what: CExprKind::Read(counter),
                })),
                None => Ok(None),
            }
        }
        _ => Ok(None),
    }
}

/// The place of the counter that a case knows of which a local is the copy.
fn counter_in(alloc: Global, case: &[Entry], copy: &str) -> Result<Option<CPlace>, NoMemory> {
    for entry in case {
        if let Some(member) = &entry.spot.first {
            if entry.spot.through && is_copy(copy, member) {
                return Ok(Some(member_at(alloc, &entry.spot.name, member)?));
            }
        }
    }
    Ok(None)
}

/// The place of a member of what a pointer leads to.
fn member_at(alloc: Global, pointer: &str, member: &str) -> Result<CPlace, NoMemory> {
    let mut steps = List::new(alloc);
    steps.push(CStep {
        member: Text::copy_of(alloc, member)?,
        index: None,
    })?;
    Ok(CPlace {
        through: true,
        name: Text::copy_of(alloc, pointer)?,
        steps,
    })
}

/// The tests of counters that flags of a body are set to, where these cases hold.
pub fn tests_in(alloc: Global, cases: &[Case], body: &[CStmt]) -> Result<List<CExpr>, NoMemory> {
    let mut tests = List::new(alloc);
    add_tests(alloc, cases, body, &mut tests)?;
    Ok(tests)
}

#[cycle(comparing)]
fn add_tests(
    alloc: Global,
    cases: &[Case],
    block: &[CStmt],
    tests: &mut List<CExpr>,
) -> Result<(), NoMemory> {
    for stmt in block {
        add_tests_of(alloc, cases, stmt, tests)?;
    }
    Ok(())
}

#[cycle(comparing)]
fn add_tests_of(
    alloc: Global,
    cases: &[Case],
    stmt: &CStmt,
    tests: &mut List<CExpr>,
) -> Result<(), NoMemory> {
    match &stmt.what {
        CStmtKind::Set(_, value) => add_test(alloc, cases, value, tests),
        CStmtKind::If(_, block, None) | CStmtKind::Loop(_, _, block) => {
            add_tests(alloc, cases, block, tests)
        }
        CStmtKind::If(_, block, Some(other)) => {
            add_tests(alloc, cases, block, tests)?;
            add_tests(alloc, cases, other, tests)
        }
        _ => Ok(()),
    }
}

fn add_test(
    alloc: Global,
    cases: &[Case],
    value: &CExpr,
    tests: &mut List<CExpr>,
) -> Result<(), NoMemory> {
    if let Some(test) = counter_test(alloc, cases, value)? {
        tests.push(test)?;
    }
    Ok(())
}

// ---- counters that a body reads

/// Adds the counters that a block reads, each once.
#[cycle(finding)]
pub fn add_counters(
    alloc: Global,
    block: &[CStmt],
    counters: &mut List<CSpot>,
) -> Result<(), NoMemory> {
    for stmt in block {
        add_in_stmt(alloc, stmt, counters)?;
    }
    Ok(())
}

#[cycle(finding)]
fn add_in_stmt(alloc: Global, stmt: &CStmt, counters: &mut List<CSpot>) -> Result<(), NoMemory> {
    match &stmt.what {
        CStmtKind::Set(_, value) => add_in_expr(alloc, value, counters),
        CStmtKind::If(condition, block, None) => {
            add_in_expr(alloc, condition, counters)?;
            add_counters(alloc, block, counters)
        }
        CStmtKind::If(condition, block, Some(other)) => {
            add_in_expr(alloc, condition, counters)?;
            add_counters(alloc, block, counters)?;
            add_counters(alloc, other, counters)
        }
        CStmtKind::Loop(_, condition, body) => {
            add_in_expr(alloc, condition, counters)?;
            add_counters(alloc, body, counters)
        }
        _ => Ok(()),
    }
}

#[cycle(reading)]
fn add_in_expr(alloc: Global, e: &CExpr, counters: &mut List<CSpot>) -> Result<(), NoMemory> {
    match &e.what {
        CExprKind::Read(at) => add_read(alloc, at, counters),
        CExprKind::Not(operand) => add_in_expr(alloc, operand, counters),
        CExprKind::Two(_, left, right) => {
            add_in_expr(alloc, left, counters)?;
            add_in_expr(alloc, right, counters)
        }
        _ => Ok(()),
    }
}

fn add_read(alloc: Global, at: &CPlace, counters: &mut List<CSpot>) -> Result<(), NoMemory> {
    if let Some(member) = counter_at(at) {
        if !has_counter(counters, &at.name, member) {
            counters.push(spot_in(alloc, at)?)?;
        }
    }
    Ok(())
}

fn has_counter(counters: &[CSpot], pointer: &str, member: &str) -> bool {
    for counter in counters {
        if counter.name.as_str() == pointer && is_member(counter, member) {
            return true;
        }
    }
    false
}

/// Whether a spot is the member of this name of what contains it.
fn is_member(spot: &CSpot, member: &str) -> bool {
    match &spot.first {
        Some(first) => first.as_str() == member,
        None => false,
    }
}

// ---- counters that a body names

/// Adds the counters that a block reads or sets, each once.
#[cycle(naming)]
pub fn add_named(
    alloc: Global,
    block: &[CStmt],
    counters: &mut List<CSpot>,
) -> Result<(), NoMemory> {
    for stmt in block {
        add_named_by(alloc, stmt, counters)?;
    }
    Ok(())
}

#[cycle(naming)]
fn add_named_by(alloc: Global, stmt: &CStmt, counters: &mut List<CSpot>) -> Result<(), NoMemory> {
    match &stmt.what {
        CStmtKind::Set(at, value) => {
            add_read(alloc, at, counters)?;
            add_in_expr(alloc, value, counters)
        }
        CStmtKind::If(condition, block, None) | CStmtKind::Loop(_, condition, block) => {
            add_in_expr(alloc, condition, counters)?;
            add_named(alloc, block, counters)
        }
        CStmtKind::If(condition, block, Some(other)) => {
            add_in_expr(alloc, condition, counters)?;
            add_named(alloc, block, counters)?;
            add_named(alloc, other, counters)
        }
        _ => Ok(()),
    }
}

// ---- the numbers by which a counter is tested

/// The greatest number with which a body compares a counter or its copy, -1 where there is none.
pub fn greatest_of(body: &[CStmt], counter: &CSpot) -> i128 {
    match &counter.first {
        Some(member) => greatest_test(body, member),
        None => -1,
    }
}

#[cycle(numbering)]
fn greatest_test(block: &[CStmt], counter: &str) -> i128 {
    let mut greatest = -1;
    for stmt in block {
        greatest = greatest.max(greatest_in_stmt(stmt, counter));
    }
    greatest
}

#[cycle(numbering)]
fn greatest_in_stmt(stmt: &CStmt, counter: &str) -> i128 {
    match &stmt.what {
        CStmtKind::Set(_, value) => greatest_in(value, counter),
        CStmtKind::If(condition, block, None) => {
            greatest_in(condition, counter).max(greatest_test(block, counter))
        }
        CStmtKind::If(condition, block, Some(other)) => {
            let inside = greatest_test(block, counter).max(greatest_test(other, counter));
            greatest_in(condition, counter).max(inside)
        }
        CStmtKind::Loop(_, condition, body) => {
            greatest_in(condition, counter).max(greatest_test(body, counter))
        }
        _ => -1,
    }
}

#[cycle(testing)]
fn greatest_in(e: &CExpr, counter: &str) -> i128 {
    match &e.what {
        CExprKind::Not(operand) => greatest_in(operand, counter),
        CExprKind::Two(Op::And | Op::Or, left, right) => {
            greatest_in(left, counter).max(greatest_in(right, counter))
        }
        CExprKind::Two(_, left, right) => number_tested(left, right, counter),
        _ => -1,
    }
}

/// The number with which a comparison compares the counter or its copy, else -1. The number may stand in a cast.
fn number_tested(left: &CExpr, right: &CExpr, counter: &str) -> i128 {
    match &left.what {
        CExprKind::Read(at) if reads(at, counter) => number_of(&[], right).unwrap_or(-1),
        _ => -1,
    }
}
