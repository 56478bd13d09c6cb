//! Small parts of C trees. What is made has no place in a text.

ghost use Rattle.std.specs.Prelude.{◌≡◌, ◌∷◌, ◌++◌, [], IfOk, IfSome, codes, slice_get, true};
ghost use Rattle.std.specs.Fmt.{decimal};
ghost use Rattle.bl_emit_acts.specs.Acts.{c_clear, c_set, c_stmt};
ghost use Rattle.bl_emit_acts.specs.Trees.{c_called, c_element, c_index, c_literal, c_not, c_place, c_read, c_step, c_two};
ghost use Rattle.bl_emit_acts.specs.Types.{numbered_name, source_name as name_in_source};

use arrayvec::ArrayString;
use bl_tree::c::{CArg, CCall, CExpr, CExprKind, CIndex, CPlace, CStep, CStmt, CStmtKind};
use bl_tree::slices::element as element_of;
use bl_tree::tree::Var;
use bl_tree::{Box, List, NoMemory, Op, Place, Scalar, Text};
use itoa::Buffer;
use std::alloc::Global;

/// The place of all that stands in no text.
pub const NOWHERE: Place = Place { start: 0, end: 0 };

// ---- names and places

/// How many bytes a `Text` keeps in itself.
const SHORT: usize = 16;

/// Two pieces together, where they are so short that their text takes no memory.
fn short(front: &str, back: &str) -> Option<ArrayString<SHORT>>
    ensures { IfSome result (λ text. text.bytes ≡ front.now ++ back.now) }
{
    let mut text = ArrayString::new();
    text.try_push_str(front).ok()?;
    text.try_push_str(back).ok()?;
    Some(text)
}

/// A prefix that keeps a name of the source apart from the names of C.
pub fn prefixed(alloc: Global, prefix: &str, name: &str) -> Result<Text, NoMemory>
    ensures { IfOk result (λ text. text ≡ prefix.now ++ name.now) }
{
    if let Some(text) = short(prefix, name) {
        return Ok(Text::copy_of(alloc, text.as_str())?);
    }
    let mut text = String::with_capacity(alloc, prefix.len().saturating_add(name.len()))?;
    text.push_str(prefix)?;
    text.push_str(name)?;
    Ok(Text::from_string(text))
}

/// A prefix and a number.
pub fn numbered(alloc: Global, prefix: &str, number: u64) -> Result<Text, NoMemory>
    ensures { IfOk result (λ text. text ≡ prefix.now ++ decimal number) }
{
    let mut buffer = Buffer::new();
    prefixed(alloc, prefix, buffer.format(number))
}

/// The name in the source of the variable at a position.
pub fn source_name(vars: &[Var], k: usize) -> &str
    ensures { result.now ≡ name_in_source (slice_get vars.now k) }
{
    match element_of(vars, k) {
        Some(var) => var.name.as_str(),
        None => "",
    }
}

/// A letter, digits, `_` and a word, where they are so short that their text takes no memory.
fn short_spelled(letter: &str, digits: &str, word: &str) -> Option<ArrayString<SHORT>>
    ensures { IfSome result (λ text. text.bytes ≡ letter.now ++ (digits.now ++ (codes "_" ++ word.now))) }
{
    let mut text = ArrayString::new();
    text.try_push_str(letter).ok()?;
    text.try_push_str(digits).ok()?;
    text.try_push_str("_").ok()?;
    text.try_push_str(word).ok()?;
    Some(text)
}

/// A letter, digits, `_` and a word.
fn spelled(alloc: Global, letter: &str, digits: &str, word: &str) -> Result<Text, NoMemory>
    ensures { IfOk result (λ text. text ≡ letter.now ++ (digits.now ++ (codes "_" ++ word.now))) }
{
    if let Some(text) = short_spelled(letter, digits, word) {
        return Ok(Text::copy_of(alloc, text.as_str())?);
    }
    let length = (letter.len().saturating_add(digits.len())).saturating_add(word.len());
    let mut text = String::with_capacity(alloc, length.saturating_add(1))?;
    text.push_str(letter)?;
    text.push_str(digits)?;
    text.push_str("_")?;
    text.push_str(word)?;
    Ok(Text::from_string(text))
}

/// A letter, a number, `_` and a word.
pub fn worded(alloc: Global, letter: &str, number: u64, word: &str) -> Result<Text, NoMemory>
    ensures { IfOk result (λ text. text ≡ letter.now ++ (decimal number ++ (codes "_" ++ word.now))) }
{
    let mut buffer = Buffer::new();
    spelled(alloc, letter, buffer.format(number), word)
}

/// The name in C of the variable at a position, or of a copy of it: a letter, the position, and the name in the source.
pub fn named(alloc: Global, letter: &str, vars: &[Var], k: usize) -> Result<Text, NoMemory>
    ensures { IfOk result (λ text. text ≡ letter.now ++ numbered_name vars.now k) }
{
    let mut buffer = Buffer::new();
    spelled(alloc, letter, buffer.format(k), source_name(vars, k))
}

/// A member, which is no array.
pub fn step(member: Text) -> CStep
    ensures { result ≡ c_step member }
{
    CStep {
        member,
        index: None,
    }
}

/// An element of a member that is an array of a length.
pub fn element(
    alloc: Global,
    member: &str,
    signed: bool,
    at: CExpr,
    length: u32,
) -> Result<CStep, NoMemory>
    ensures { IfOk result (λ step. step ≡ c_element member.now (c_index signed at length)) }
{
    Ok(CStep {
        member: Text::copy_of(alloc, member)?,
        index: Some(Box::new(alloc, CIndex { signed, at, length })?),
    })
}

/// What the steps lead to, from a variable or from what a pointer leads to.
pub fn target(through: bool, name: Text, steps: List<CStep>) -> CPlace
    ensures { result ≡ c_place through name steps }
{
    CPlace {
        through,
        name,
        steps,
    }
}

/// A variable, or what a pointer leads to, without a step into it.
pub fn whole(alloc: Global, through: bool, name: Text) -> CPlace
    ensures { result ≡ c_place through name [] }
{
    target(through, name, List::new(alloc))
}

/// A member of what a pointer leads to.
pub fn member_at(alloc: Global, pointer: &str, member: Text) -> Result<CPlace, NoMemory>
    ensures { IfOk result (λ place. place ≡ c_place true pointer.now (c_step member ∷ [])) }
{
    let name = Text::copy_of(alloc, pointer)?;
    let steps = single(alloc, step(member))?;
    Ok(target(true, name, steps))
}

// ---- expressions

pub fn read(place: CPlace) -> CExpr
    ensures { result ≡ c_read place }
{
    CExpr {
        place: NOWHERE,
        what: CExprKind::Read(place),
    }
}

pub fn literal(ty: Scalar, n: i128) -> CExpr
    ensures { result ≡ c_literal ty n }
{
    CExpr {
        place: NOWHERE,
        what: CExprKind::Literal(ty, n),
    }
}

pub fn negated(alloc: Global, operand: CExpr) -> Result<CExpr, NoMemory>
    ensures { IfOk result (λ e. e ≡ c_not operand) }
{
    Ok(CExpr {
        place: NOWHERE,
        what: CExprKind::Not(Box::new(alloc, operand)?),
    })
}

/// A comparison, `&&` or `||`.
pub fn two(alloc: Global, op: Op, left: CExpr, right: CExpr) -> Result<CExpr, NoMemory>
    ensures { IfOk result (λ e. e ≡ c_two op left right) }
{
    let left = Box::new(alloc, left)?;
    let right = Box::new(alloc, right)?;
    Ok(CExpr {
        place: NOWHERE,
        what: CExprKind::Two(op, left, right),
    })
}

/// The value of a call.
pub fn called(name: Text, args: List<CArg>) -> CExpr
    ensures { result ≡ c_called name args }
{
    CExpr {
        place: NOWHERE,
        what: CExprKind::Call(CCall { name, args }),
    }
}

// ---- statements

pub fn statement(what: CStmtKind) -> CStmt
    ensures { result ≡ c_stmt what }
{
    CStmt {
        place: NOWHERE,
        what,
    }
}

pub fn set(alloc: Global, at: CPlace, value: CExpr) -> Result<CStmt, NoMemory>
    ensures { IfOk result (λ s. s ≡ c_set at value) }
{
    let value = Box::new(alloc, value)?;
    Ok(statement(CStmtKind::Set(at, value)))
}

/// Sets a struct of this name to 0 or false everywhere.
pub fn clear(alloc: Global, at: CPlace, name: Text) -> Result<CStmt, NoMemory>
    ensures { IfOk result (λ s. s ≡ c_clear at name) }
{
    let at = Box::new(alloc, at)?;
    Ok(statement(CStmtKind::Clear(at, name)))
}

// ---- lists

/// One thing, alone.
pub fn single<T: Drop>(alloc: Global, one: T) -> Result<List<T>, NoMemory>
    ensures { IfOk result (λ list. list ≡ one ∷ []) }
{
    let mut list = List::new(alloc);
    list.push(one)?;
    Ok(list)
}

/// Some things, and others behind them.
pub fn joined<T: Drop>(first: List<T>, rest: List<T>) -> Result<List<T>, NoMemory>
    ensures { IfOk result (λ all. all ≡ first ++ rest) }
{
    let mut all = first.into_vec();
    let mut behind = rest.into_vec();
    all.append(&mut behind)?;
    Ok(List::from_vec(all))
}
