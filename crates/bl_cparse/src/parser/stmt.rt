//! Statements. `room` is how many brackets may still be opened. Open braces are kept on a stack of our own, so that
//! nested statements take no more of the machine's.

ghost use Rattle.std.specs.Prelude.{◌≡◌, ℕ, ◌<◌, ◌≤◌, ◌-◌, true, false, List, [], ◌∷◌, ◌++◌, map, codes, length};
ghost use Rattle.std.specs.Prelude.{IsTrue, IsFalse, IfOk, IfErr, OnOk};
ghost use Rattle.std.specs.Prelude.{MatchResult};
ghost use Rattle.bl_tree.specs.Reduce.{all_of, joined};
ghost use Rattle.bl_ctext.specs.Names.{is_name, is_callee, is_turn_name};
ghost use Rattle.bl_ctext.specs.Spelling.{expr_tokens, place_tokens, root_tokens, ccall_tokens, stmt_tokens, stmt_kind_tokens, condition_tokens};
ghost use Rattle.bl_ctext.specs.Spelling.{turn_declared, turn_counted};
ghost use Rattle.bl_ctext.specs.Spellable.{spells_expr, spells_place, spells_stmt, spells_stmt_kind, has_any};
ghost use Rattle.bl_cparse.specs.inner.Nest.{opened_tokens, frame_tokens, spells_frame, nest_tokens, spells_nest};
ghost use Rattle.bl_cparse_syntax.specs.declared.grammar.Part.{Part};
ghost use Rattle.bl_cparse_syntax.specs.Pieces.{first_piece};
ghost use Rattle.bl_cparse_syntax.specs.Classes.{Class, matches};
ghost use Rattle.bl_cparse_syntax.specs.Grammar.{Wanted};
ghost use Rattle.bl_cparse_syntax.specs.Tables.{has};
ghost use Rattle.bl_cparse_syntax.specs.Expects.{Expects};
ghost use Rattle.bl_cparse.specs.inner.Reading.{sign, name_of, part, turn_wanted, other_starts, Follows};
ghost use Rattle.bl_cparse.specs.Places.{WantsMemory};
ghost use Rattle.bl_cparse.specs.inner.Awaiting.{frame_wanted, outside, nest_wanted, Nests, NestStays};

use crate::make_stmt;
use crate::parser::{expr, name, place};
use crate::reader::Reader;
use crate::refusal::CRefusal;
use crate::room::fitted;
use bl_cparse_syntax::words;
use bl_tree::c::{CExpr, CPlace, CStmt, CStmtKind};
use bl_tree::{Box, List, Text};
use std::alloc::AllocError;

/// The front of a statement up to its open brace.
#[derive(Drop)]
pub enum Opened {
    /// The condition of an `if`.
    Then(Box<CExpr>),
    /// A condition, and the statements before its `else`.
    Else(Box<CExpr>, List<CStmt>),
    /// The name of a loop's turns, and its condition.
    Turns(Text, Box<CExpr>),
}

/// An open brace, and what stands before it.
#[derive(Drop)]
pub struct Frame {
    pub before: List<CStmt>,
    /// The room where the open statement begins.
    pub room: u32,
    pub opened: Opened,
}

/// What is read of the statements of a function.
#[derive(Drop)]
pub struct Nest {
    /// From the outermost brace on.
    pub outer: Vec<Frame>,
    /// The statements in the innermost one.
    pub body: List<CStmt>,
    pub room: u32,
}

/// The statements before a `}`.
pub fn stmts(r: &mut Reader<'_>, room: u32) -> Result<List<CStmt>, CRefusal>
    ensures read { IfOk result (λ body. (r.old ≡ joined (map stmt_tokens body) ++ r.new) × IsTrue (all_of (map spells_stmt body))) }
    ensures follows { Follows result (part Part.Stmts room ∷ sign (codes "}") ∷ []) (sign (codes "}") ∷ []) r.old r.new }
{
    let mut nest = Nest {
        outer: Vec::new(r.alloc()),
        body: List::new(r.alloc()),
        room,
    };
    while !is_closed(r, &nest) {
        nest = further(r, nest)?;
    }
    Ok(nest.body)
}

/// Whether no brace is open and a `}` stands next.
fn is_closed(r: &Reader<'_>, nest: &Nest) -> bool
    ensures outer { IsTrue result → nest.now.outer.items ≡ [] }
    ensures closed { IsTrue result → matches (Class.exactly (codes "}")) (first_piece r.now) ≡ true }
    ensures open { IsFalse result → IsTrue (matches (Class.exactly (codes "}")) (first_piece r.now)) → IsTrue (has_any nest.now.outer.items) }
{
    if r.sees("}") {
        nest.outer.is_empty()
    } else {
        false
    }
}

/// One statement more, or the front or the end of one that holds others.
fn further(r: &mut Reader<'_>, nest: Nest) -> Result<Nest, CRefusal>
    requires spells { IsTrue (spells_nest nest) }
    requires open { IsTrue (matches (Class.exactly (codes "}")) (first_piece r.old)) → IsTrue (has_any nest.outer.items) }
    ensures read { IfOk result (λ next. (nest_tokens nest ++ r.old ≡ nest_tokens next ++ r.new) × IsTrue (spells_nest next)) }
    ensures shorter { OnOk result (length r.new < length r.old) }
    ensures follows { Nests result (nest_wanted nest) r.old r.new }
{
    if r.sees("}") {
        let next = closed(r, nest)?;
        Ok(next)
    } else if r.sees("if") {
        let next = opened_branch(r, nest)?;
        Ok(next)
    } else if r.sees("{") {
        let next = opened_turns(r, nest)?;
        Ok(next)
    } else {
        let next = one(r, nest)?;
        Ok(next)
    }
}

/// A statement that holds no others.
fn one(r: &mut Reader<'_>, nest: Nest) -> Result<Nest, CRefusal>
    requires { IsTrue (spells_nest nest) }
    ensures read { IfOk result (λ next. (nest_tokens nest ++ r.old ≡ nest_tokens next ++ r.new) × IsTrue (spells_nest next)) }
    ensures shorter { OnOk result (length r.new < length r.old) }
    ensures follows { matches (Class.exactly (codes "if")) (first_piece r.old) ≡ false
        → matches (Class.exactly (codes "{")) (first_piece r.old) ≡ false → Nests result (part Part.Stmt nest.room ∷ nest_wanted nest) r.old r.new }
{
    let Nest { outer, body, room } = nest;
    let what = simple(r, room)?;
    let body = with(body, make_stmt::stmt(what))?;
    Ok(Nest { outer, body, room })
}

/// The statements with one more.
fn with(body: List<CStmt>, stmt: CStmt) -> Result<List<CStmt>, CRefusal>
    ensures read { IfOk result (λ longer. longer ≡ body ++ stmt ∷ []) }
    ensures memory { IfErr result WantsMemory }
{
    let mut body = body;
    body.push(stmt)?;
    Ok(body)
}

fn opened_branch(r: &mut Reader<'_>, nest: Nest) -> Result<Nest, CRefusal>
    requires { IsTrue (spells_nest nest) }
    ensures read { IfOk result (λ next. (nest_tokens nest ++ r.old ≡ nest_tokens next ++ r.new) × IsTrue (spells_nest next)) }
    ensures shorter { OnOk result (length r.new < length r.old) }
    ensures follows { 1 ≤ nest.room → Nests result (sign (codes "if") ∷ sign (codes "(") ∷ part Part.Expr (nest.room - 1) ∷ sign (codes ")")
        ∷ sign (codes "{") ∷ part Part.Stmts (nest.room - 1) ∷ sign (codes "}") ∷ part Part.Else nest.room ∷ nest_wanted nest) r.old r.new }
{
    let Nest { outer, body, room } = nest;
    if room == 0 {
        return Err(r.refusal());
    }
    let test = branch_front(r, room - 1)?;
    let frame = Frame {
        before: body,
        room,
        opened: Opened::Then(test),
    };
    let next = inside(r, outer, frame, room - 1)?;
    Ok(next)
}

/// The front of an `if`, where so many brackets may be opened in its parts.
fn branch_front(r: &mut Reader<'_>, room: u32) -> Result<Box<CExpr>, CRefusal>
    ensures read { IfOk result (λ test. (r.old ≡ opened_tokens (Opened.Then test) ++ r.new) × IsTrue (spells_expr test)) }
    ensures follows { Follows result (sign (codes "if") ∷ sign (codes "(") ∷ part Part.Expr room ∷ sign (codes ")")
        ∷ sign (codes "{") ∷ []) [] r.old r.new }
{
    r.take("if")?;
    let test = condition(r, room)?;
    r.take("{")?;
    Ok(test)
}

/// The inside of a brace that is opened.
fn inside(r: &Reader<'_>, outer: Vec<Frame>, frame: Frame, room: u32) -> Result<Nest, CRefusal>
    requires outer { IsTrue (all_of (map spells_frame outer.items)) }
    requires frame { IsTrue (spells_frame frame) }
    ensures read { IfOk result (λ next. (nest_tokens next ≡ joined (map frame_tokens outer.items) ++ frame_tokens frame) × IsTrue (spells_nest next)) }
    ensures awaits { NestStays result (part Part.Stmts room ∷ sign (codes "}") ∷ (frame_wanted frame ++ outside outer.items)) }
{
    let mut outer = outer;
    match outer.push(frame) {
        Ok(()) => Ok(Nest {
            outer,
            body: List::new(r.alloc()),
            room,
        }),
        Err(failed) => Err(AllocError::from(failed).into()),
    }
}

fn opened_turns(r: &mut Reader<'_>, nest: Nest) -> Result<Nest, CRefusal>
    requires { IsTrue (spells_nest nest) }
    ensures read { IfOk result (λ next. (nest_tokens nest ++ r.old ≡ nest_tokens next ++ r.new) × IsTrue (spells_nest next)) }
    ensures shorter { OnOk result (length r.new < length r.old) }
    ensures follows { 3 ≤ nest.room → Nests result (sign (codes "{") ∷ sign (codes "uint32_t") ∷ part Part.Turns nest.room
        ∷ nest_wanted nest) r.old r.new }
{
    let Nest { outer, body, room } = nest;
    // The parenthesis of `bl_turn` stands in two braces.
    if room < 3 {
        return Err(r.refusal());
    }
    let front = turns_front(r, room)?;
    let frame = Frame {
        before: body,
        room,
        opened: Opened::Turns(front.turn, front.test),
    };
    let next = inside(r, outer, frame, room - 2)?;
    Ok(next)
}

/// The name of a loop's turns, and its condition.
#[derive(Drop)]
struct TurnsFront {
    turn: Text,
    test: Box<CExpr>,
}

/// The front of a loop, where so many brackets may be opened around it.
#[tactic(auto, using(crate::proofs::TokenLemmas::turn_name_any))]
fn turns_front(r: &mut Reader<'_>, room: u32) -> Result<TurnsFront, CRefusal>
    requires { 2 ≤ room }
    ensures read { IfOk result (λ front. (r.old ≡ opened_tokens (Opened.Turns front.turn front.test) ++ r.new)
        × (IsTrue (is_turn_name front.turn) × IsTrue (spells_expr front.test))) }
    ensures follows { Follows result (sign (codes "{") ∷ sign (codes "uint32_t") ∷ part Part.Turns room ∷ []) (part Part.Stmts (room - 2)
        ∷ sign (codes "}")
        ∷ sign (codes "}") ∷ []) r.old r.new }
{
    let turn = declared_turn(r)?;
    let test = condition(r, room - 2)?;
    counted_turn(r, turn.as_str())?;
    Ok(TurnsFront { turn, test })
}

/// The end of the innermost brace.
fn closed(r: &mut Reader<'_>, nest: Nest) -> Result<Nest, CRefusal>
    requires spells { IsTrue (spells_nest nest) }
    requires open { IsTrue (has_any nest.outer.items) }
    ensures read { IfOk result (λ next. (nest_tokens nest ++ r.old ≡ nest_tokens next ++ r.new) × IsTrue (spells_nest next)) }
    ensures shorter { OnOk result (length r.new < length r.old) }
    ensures follows { Nests result (sign (codes "}") ∷ outside nest.outer.items) r.old r.new }
{
    let Nest {
        mut outer,
        body,
        room: _room,
    } = nest;
    match outer.pop() {
        Some(frame) => {
            let next = closed_frame(r, outer, frame, body)?;
            Ok(next)
        }
        None => unreachable!(),
    }
}

/// The end of this brace, with the statements in it.
fn closed_frame(
    r: &mut Reader<'_>,
    outer: Vec<Frame>,
    frame: Frame,
    body: List<CStmt>,
) -> Result<Nest, CRefusal>
    requires outer { IsTrue (all_of (map spells_frame outer.items)) }
    requires frame { IsTrue (spells_frame frame) }
    requires body { IsTrue (all_of (map spells_stmt body)) }
    ensures read { IfOk result (λ next. (joined (map frame_tokens outer.items) ++ (frame_tokens frame ++ (joined (map stmt_tokens body) ++ r.old))
        ≡ nest_tokens next ++ r.new) × IsTrue (spells_nest next)) }
    ensures shorter { OnOk result (length r.new < length r.old) }
    ensures follows { Nests result (sign (codes "}") ∷ (frame_wanted frame ++ outside outer.items)) r.old r.new }
{
    let body = fitted(body);
    let place = Outside {
        before: frame.before,
        room: frame.room,
    };
    match frame.opened {
        Opened::Then(test) => {
            let next = closed_then(r, outer, place, test, body)?;
            Ok(next)
        }
        Opened::Else(test, then_part) => {
            let next = closed_else(r, outer, place, Parts { test, then_part }, body)?;
            Ok(next)
        }
        Opened::Turns(turn, test) => {
            let next = closed_turns(r, outer, place, TurnsFront { turn, test }, body)?;
            Ok(next)
        }
    }
}

/// What stands before a statement, and the room there.
#[derive(Drop)]
struct Outside {
    before: List<CStmt>,
    room: u32,
}

/// The condition of an `if` and the statements before its `else`.
#[derive(Drop)]
struct Parts {
    test: Box<CExpr>,
    then_part: List<CStmt>,
}

/// The end of the first part of an `if`, and the front of the second where there is one.
fn closed_then(
    r: &mut Reader<'_>,
    outer: Vec<Frame>,
    place: Outside,
    test: Box<CExpr>,
    body: List<CStmt>,
) -> Result<Nest, CRefusal>
    requires outer { IsTrue (all_of (map spells_frame outer.items)) }
    requires before { IsTrue (all_of (map spells_stmt place.before)) }
    requires test { IsTrue (spells_expr test) }
    requires body { IsTrue (all_of (map spells_stmt body)) }
    ensures read { IfOk result (λ next. (joined (map frame_tokens outer.items) ++
        ((joined (map stmt_tokens place.before) ++ opened_tokens (Opened.Then test)) ++ (joined (map stmt_tokens body) ++ r.old)) ≡ nest_tokens next ++ r.new)
        × IsTrue (spells_nest next)) }
    ensures shorter { OnOk result (length r.new < length r.old) }
    ensures follows { Nests result (sign (codes "}") ∷ part Part.Else place.room ∷ part Part.Stmts place.room ∷ sign (codes "}")
        ∷ outside outer.items) r.old
        r.new }
{
    r.take("}")?;
    if !r.eat("else") {
        let what = make_stmt::branch(test, body);
        let next = ended(outer, place, what)?;
        return Ok(next);
    }
    let next = reopened(
        r,
        outer,
        place,
        Parts {
            test,
            then_part: body,
        },
    )?;
    Ok(next)
}

fn one_less(room: u32) -> u32
    ensures { result ≡ room - 1 }
{
    room.saturating_sub(1)
}

/// The brace behind an `else`.
fn reopened(
    r: &mut Reader<'_>,
    outer: Vec<Frame>,
    place: Outside,
    parts: Parts,
) -> Result<Nest, CRefusal>
    requires outer { IsTrue (all_of (map spells_frame outer.items)) }
    requires before { IsTrue (all_of (map spells_stmt place.before)) }
    requires test { IsTrue (spells_expr parts.test) }
    requires then_part { IsTrue (all_of (map spells_stmt parts.then_part)) }
    ensures read { IfOk result (λ next. (r.old ≡ codes "{" ∷ r.new)
        × ((nest_tokens next ≡ joined (map frame_tokens outer.items) ++
        (joined (map stmt_tokens place.before) ++ opened_tokens (Opened.Else parts.test parts.then_part))) × IsTrue (spells_nest next))) }
    ensures follows { Nests result (sign (codes "{") ∷ part Part.Stmts (place.room - 1) ∷ sign (codes "}") ∷ part Part.Stmts place.room
        ∷ sign (codes "}")
        ∷ outside outer.items) r.old r.new }
{
    r.take("{")?;
    let room = one_less(place.room);
    let frame = Frame {
        before: place.before,
        room: place.room,
        opened: Opened::Else(parts.test, parts.then_part),
    };
    let next = inside(r, outer, frame, room)?;
    Ok(next)
}

fn closed_else(
    r: &mut Reader<'_>,
    outer: Vec<Frame>,
    place: Outside,
    parts: Parts,
    body: List<CStmt>,
) -> Result<Nest, CRefusal>
    requires outer { IsTrue (all_of (map spells_frame outer.items)) }
    requires before { IsTrue (all_of (map spells_stmt place.before)) }
    requires test { IsTrue (spells_expr parts.test) }
    requires then_part { IsTrue (all_of (map spells_stmt parts.then_part)) }
    requires body { IsTrue (all_of (map spells_stmt body)) }
    ensures read { IfOk result (λ next. (joined (map frame_tokens outer.items) ++
        ((joined (map stmt_tokens place.before) ++ opened_tokens (Opened.Else parts.test parts.then_part)) ++ (joined (map stmt_tokens body) ++ r.old))
        ≡ nest_tokens next ++ r.new) × IsTrue (spells_nest next)) }
    ensures shorter { OnOk result (length r.new < length r.old) }
    ensures follows { Nests result (sign (codes "}") ∷ part Part.Stmts place.room ∷ sign (codes "}") ∷ outside outer.items) r.old r.new }
{
    r.take("}")?;
    let what = make_stmt::branches(parts.test, parts.then_part, body);
    let next = ended(outer, place, what)?;
    Ok(next)
}

fn closed_turns(
    r: &mut Reader<'_>,
    outer: Vec<Frame>,
    place: Outside,
    front: TurnsFront,
    body: List<CStmt>,
) -> Result<Nest, CRefusal>
    requires outer { IsTrue (all_of (map spells_frame outer.items)) }
    requires before { IsTrue (all_of (map spells_stmt place.before)) }
    requires turn { IsTrue (is_turn_name front.turn) }
    requires test { IsTrue (spells_expr front.test) }
    requires body { IsTrue (all_of (map spells_stmt body)) }
    ensures read { IfOk result (λ next. (joined (map frame_tokens outer.items) ++
        ((joined (map stmt_tokens place.before) ++ opened_tokens (Opened.Turns front.turn front.test)) ++ (joined (map stmt_tokens body) ++ r.old))
        ≡ nest_tokens next ++ r.new) × IsTrue (spells_nest next)) }
    ensures shorter { OnOk result (length r.new < length r.old) }
    ensures follows { Nests result (sign (codes "}") ∷ sign (codes "}") ∷ part Part.Stmts place.room ∷ sign (codes "}")
        ∷ outside outer.items) r.old r.new }
{
    r.take("}")?;
    r.take("}")?;
    let what = make_stmt::turns(front.turn, front.test, body);
    let next = ended(outer, place, what)?;
    Ok(next)
}

/// The statements outside of a brace, with the one that it closed.
fn ended(outer: Vec<Frame>, place: Outside, what: CStmtKind) -> Result<Nest, CRefusal>
    requires outer { IsTrue (all_of (map spells_frame outer.items)) }
    requires before { IsTrue (all_of (map spells_stmt place.before)) }
    requires what { IsTrue (spells_stmt_kind what) }
    ensures read { IfOk result (λ next. (nest_tokens next ≡ joined (map frame_tokens outer.items) ++
        (joined (map stmt_tokens place.before) ++ stmt_kind_tokens what)) × IsTrue (spells_nest next)) }
    ensures awaits { NestStays result (part Part.Stmts place.room ∷ sign (codes "}") ∷ outside outer.items) }
{
    let stmt = make_stmt::stmt(what);
    let body = with(place.before, stmt)?;
    Ok(Nest {
        outer,
        body,
        room: place.room,
    })
}

fn simple(r: &mut Reader<'_>, room: u32) -> Result<CStmtKind, CRefusal>
    ensures read { IfOk result (λ k. (r.old ≡ stmt_kind_tokens k ++ r.new) × IsTrue (spells_stmt_kind k)) }
    ensures follows { matches (Class.exactly (codes "if")) (first_piece r.old) ≡ false
        → matches (Class.exactly (codes "{")) (first_piece r.old) ≡ false → Follows result (part Part.Stmt room ∷ []) [] r.old r.new }
{
    if r.eat("break") {
        r.take(";")?;
        return Ok(make_stmt::stop());
    }
    if r.eat("return") {
        return returned(r, room);
    }
    acted(r, room)
}

/// A statement that begins with a place or a call.
fn acted(r: &mut Reader<'_>, room: u32) -> Result<CStmtKind, CRefusal>
    ensures read { IfOk result (λ k. (r.old ≡ stmt_kind_tokens k ++ r.new) × IsTrue (spells_stmt_kind k)) }
    ensures follows { has other_starts (first_piece r.old) ≡ false → Follows result (part Part.Stmt room ∷ []) [] r.old r.new }
{
    if r.sees("(") {
        let name = place::star(r, room)?;
        return set(r, true, name, room);
    }
    if words::is_name(r.piece()) {
        return named(r, room);
    }
    let name = name::callee(r)?;
    called(r, name, room)
}

/// A statement that begins with a name.
#[tactic(auto, using(crate::proofs::TokenLemmas::name_callee))]
fn named(r: &mut Reader<'_>, room: u32) -> Result<CStmtKind, CRefusal>
    ensures read { IfOk result (λ k. (r.old ≡ stmt_kind_tokens k ++ r.new) × IsTrue (spells_stmt_kind k)) }
    ensures follows { Follows result (name_of ∷ part Part.AfterName room ∷ []) [] r.old r.new }
{
    let name = name::name(r)?;
    if r.sees("(") {
        called(r, name, room)
    } else {
        set(r, false, name, room)
    }
}

fn returned(r: &mut Reader<'_>, room: u32) -> Result<CStmtKind, CRefusal>
    ensures read { IfOk result (λ k. (codes "return" ∷ r.old ≡ stmt_kind_tokens k ++ r.new) × IsTrue (spells_stmt_kind k)) }
    ensures follows { Follows result (part Part.Result room ∷ []) [] r.old r.new }
{
    if r.eat(";") {
        return Ok(make_stmt::give(None));
    }
    let value = expr::boxed(r, room)?;
    r.take(";")?;
    Ok(make_stmt::give(Some(value)))
}

fn called(r: &mut Reader<'_>, name: Text, room: u32) -> Result<CStmtKind, CRefusal>
    requires { IsTrue (is_callee name) }
    ensures read { IfOk result (λ k. (name ∷ r.old ≡ stmt_kind_tokens k ++ r.new) × IsTrue (spells_stmt_kind k)) }
    ensures follows { 1 ≤ room → Follows result (sign (codes "(") ∷ part Part.Args (room - 1) ∷ sign (codes ")") ∷ sign (codes ";")
        ∷ []) [] r.old r.new }
{
    let call = place::call(r, name, room)?;
    r.take(";")?;
    Ok(make_stmt::call(call))
}

/// What is assigned to a place whose root is read.
fn set(r: &mut Reader<'_>, through: bool, name: Text, room: u32) -> Result<CStmtKind, CRefusal>
    requires { IsTrue (is_name name) }
    ensures read { IfOk result (λ k. (root_tokens through name ++ r.old ≡ stmt_kind_tokens k ++ r.new) × IsTrue (spells_stmt_kind k)) }
    ensures follows { Follows result (part Part.AssignTail room ∷ []) [] r.old r.new }
{
    let at = place::place(r, through, name, room)?;
    assigned(r, at, room)
}

fn assigned(r: &mut Reader<'_>, at: CPlace, room: u32) -> Result<CStmtKind, CRefusal>
    requires { IsTrue (spells_place at) }
    ensures read { IfOk result (λ k. (place_tokens at ++ r.old ≡ stmt_kind_tokens k ++ r.new) × IsTrue (spells_stmt_kind k)) }
    ensures follows { matches (Class.exactly (codes ".")) (first_piece r.old) ≡ false → Follows result (part Part.AssignTail room ∷ []) [] r.old r.new }
{
    r.take("=")?;
    if r.sees("(") {
        return bracketed(r, at, room);
    }
    let value = expr::expr(r, room)?;
    stored(r, at, value)
}

/// What is assigned, where it begins with a parenthesis.
fn bracketed(r: &mut Reader<'_>, at: CPlace, room: u32) -> Result<CStmtKind, CRefusal>
    requires { IsTrue (spells_place at) }
    ensures read { IfOk result (λ k. (place_tokens at ++ codes "=" ∷ r.old ≡ stmt_kind_tokens k ++ r.new) × IsTrue (spells_stmt_kind k)) }
    ensures follows { 1 ≤ room → Follows result (sign (codes "(") ∷ part Part.AfterOpen room ∷ sign (codes ";") ∷ []) [] r.old r.new }
{
    if room == 0 {
        return Err(r.refusal());
    }
    r.take("(")?;
    if r.eat("struct") {
        return cleared(r, at);
    }
    let value = expr::bracketed(r, room)?;
    stored(r, at, value)
}

fn stored(r: &mut Reader<'_>, at: CPlace, value: CExpr) -> Result<CStmtKind, CRefusal>
    requires at { IsTrue (spells_place at) }
    requires value { IsTrue (spells_expr value) }
    ensures read { IfOk result (λ k. (place_tokens at ++ codes "=" ∷ (expr_tokens value ++ r.old) ≡ stmt_kind_tokens k ++ r.new)
        × IsTrue (spells_stmt_kind k)) }
    ensures follows { Follows result (sign (codes ";") ∷ []) [] r.old r.new }
{
    r.take(";")?;
    Ok(make_stmt::set(at, Box::new(r.alloc(), value)?))
}

/// What follows `(struct` where a place is set to zeros.
fn cleared(r: &mut Reader<'_>, at: CPlace) -> Result<CStmtKind, CRefusal>
    requires { IsTrue (spells_place at) }
    ensures read { IfOk result (λ k. (place_tokens at ++ codes "=" ∷ codes "(" ∷ codes "struct" ∷ r.old ≡ stmt_kind_tokens k ++ r.new)
        × IsTrue (spells_stmt_kind k)) }
    ensures follows { (room : ℕ) → Follows result (part Part.StructName room ∷ sign (codes ")")
        ∷ sign (codes "{") ∷ sign (codes "0") ∷ sign (codes "}")
        ∷ sign (codes ";") ∷ []) [] r.old r.new }
{
    let of = name::struct_name(r)?;
    r.take(")")?;
    zeros(r)?;
    r.take(";")?;
    Ok(make_stmt::clear(Box::new(r.alloc(), at)?, of))
}

/// A struct of zeros.
pub fn zeros(r: &mut Reader<'_>) -> Result<(), CRefusal>
    ensures read { OnOk result (r.old ≡ codes "{" ∷ codes "0" ∷ codes "}" ∷ r.new) }
    ensures follows { Follows result (sign (codes "{") ∷ sign (codes "0") ∷ sign (codes "}") ∷ []) [] r.old r.new }
{
    r.take("{")?;
    r.take("0")?;
    r.take("}")
}

/// A condition in its parentheses, where so many brackets may be opened in it.
fn condition(r: &mut Reader<'_>, room: u32) -> Result<Box<CExpr>, CRefusal>
    ensures read { IfOk result (λ test. (r.old ≡ condition_tokens test ++ r.new) × IsTrue (spells_expr test)) }
    ensures follows { Follows result (sign (codes "(") ∷ part Part.Expr room ∷ sign (codes ")") ∷ []) [] r.old r.new }
{
    r.take("(")?;
    let test = expr::boxed(r, room)?;
    r.take(")")?;
    Ok(test)
}

/// The front of a loop, and the name of its turns.
fn declared_turn(r: &mut Reader<'_>) -> Result<Text, CRefusal>
    ensures read { IfOk result (λ turn. (r.old ≡ turn_declared turn ++ r.new) × IsTrue (is_turn_name turn)) }
    ensures follows { (room : ℕ) (rest : List Wanted) → Expects
        (sign (codes "{") ∷ sign (codes "uint32_t") ∷ part Part.Turns room ∷ rest) r.old
        → MatchResult result (λ turn. Expects (sign (codes "(") ∷ part Part.Expr (room - 2) ∷ sign (codes ")")
        ∷ (turn_wanted turn ++ part Part.Stmts (room - 2) ∷ sign (codes "}") ∷ sign (codes "}") ∷ rest)) r.new) WantsMemory }
{
    r.take("{")?;
    r.take("uint32_t")?;
    let turn = name::turn_name(r)?;
    begun_turns(r)?;
    Ok(turn)
}

/// What a loop's turns begin with, and the `while` behind it.
fn begun_turns(r: &mut Reader<'_>) -> Result<(), CRefusal>
    ensures read { OnOk result (r.old ≡ codes "=" ∷ codes "0" ∷ codes ";" ∷ codes "while" ∷ r.new) }
    ensures follows { Follows result (sign (codes "=") ∷ sign (codes "0") ∷ sign (codes ";") ∷ sign (codes "while") ∷ []) [] r.old r.new }
{
    r.take("=")?;
    r.take("0")?;
    r.take(";")?;
    r.take("while")
}

/// The front of a loop's body.
fn counted_turn(r: &mut Reader<'_>, turn: &str) -> Result<(), CRefusal>
    requires { IsTrue (has_any turn.now) }
    ensures read { OnOk result (r.old ≡ turn_counted turn.now ++ r.new) }
    ensures follows { Follows result (turn_wanted turn.now) [] r.old r.new }
{
    r.take("{")?;
    r.take(turn)?;
    r.take("=")?;
    next_turn(r, turn)
}

/// The call that gives the next turn.
fn next_turn(r: &mut Reader<'_>, turn: &str) -> Result<(), CRefusal>
    requires { IsTrue (has_any turn.now) }
    ensures read { OnOk result (r.old ≡ codes "bl_turn" ∷ codes "(" ∷ turn.now ∷ codes ")" ∷ codes ";" ∷ r.new) }
    ensures follows { Follows result (sign (codes "bl_turn") ∷ sign (codes "(") ∷ sign turn.now ∷ sign (codes ")") ∷ sign (codes ";")
        ∷ []) [] r.old r.new }
{
    r.take("bl_turn")?;
    r.take("(")?;
    r.take(turn)?;
    r.take(")")?;
    r.take(";")
}
