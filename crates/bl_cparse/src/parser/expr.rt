//! Expressions. Brackets that are open are kept on a stack of our own, so that nested expressions take no more of the
//! machine's. `room` is how many brackets may still be opened.

ghost use Rattle.std.specs.Prelude.{◌≡◌, ℕ, ◌+◌, ◌-◌, ◌*◌, ◌<◌, ◌≤◌, false, List, [], ◌∷◌, ◌++◌, codes};
ghost use Rattle.std.specs.Prelude.{length, map, IsTrue, IsFalse, IfOk, MatchResult};
ghost use Rattle.bl_tree.specs.Reduce.{all_of};
ghost use Rattle.bl_ctext.specs.Names.{is_name, is_callee};
ghost use Rattle.bl_ctext.specs.Spelling.{with_commas, operator_sign, expr_tokens, step_tokens, arg_tokens};
ghost use Rattle.bl_ctext.specs.Spellable.{has_any, is_c_operator, spells_expr, spells_step, spells_arg};
ghost use Rattle.bl_cparse.specs.inner.Partial.{called_front, use_tokens, place_front, held_tokens, on_stack, partial_tokens, spells_called};
ghost use Rattle.bl_cparse.specs.inner.Partial.{spells_use, spells_root, spells_held, spells_partial, work_left};
ghost use Rattle.bl_ctext.specs.Token.{Token};
ghost use Rattle.bl_cparse_syntax.specs.declared.grammar.Part.{Part};
ghost use Rattle.bl_cparse_syntax.specs.Pieces.{first_piece};
ghost use Rattle.bl_cparse_syntax.specs.Classes.{Class, matches};
ghost use Rattle.bl_cparse_syntax.specs.Grammar.{Wanted};
ghost use Rattle.bl_cparse_syntax.specs.Tables.{has};
ghost use Rattle.bl_cparse_syntax.specs.Expects.{Expects};
ghost use Rattle.bl_cparse.specs.inner.Reading.{sign, name_of, prelude_function, elements, part, literal_starts, Follows};
ghost use Rattle.bl_cparse.specs.Places.{WantsMemory};
ghost use Rattle.bl_cparse.specs.inner.Awaiting.{use_wanted, held_wanted, behind, partial_wanted, is_whole_next, GoesOn, Stays, Awaits};

use crate::parser::{literal, name, place};
use crate::reader::Reader;
use crate::refusal::CRefusal;
use crate::{make, room};
use bl_cparse_syntax::words;
use bl_tree::c::{CArg, CExpr, CStep};
use bl_tree::{Box, List, Op, Text};
use std::alloc::{AllocError, Global};

/// A call up to one of its arguments, and the room inside.
#[derive(Drop)]
pub struct CallFront {
    pub name: Text,
    pub args: List<CArg>,
    pub room: u32,
}

/// A place up to one of its steps.
#[derive(Drop)]
pub struct PlaceFront {
    pub through: bool,
    pub name: Text,
    pub steps: List<CStep>,
    pub room: u32,
}

/// What a place is read for.
#[derive(Drop)]
pub enum Use {
    /// Its value.
    Value,
    /// Its address, as an argument of a call.
    Address(CallFront),
}

/// A place up to an index.
#[derive(Drop)]
pub struct IndexFront {
    pub of: Use,
    pub place: PlaceFront,
    pub member: Text,
    pub signed: bool,
}

/// The front of what holds an expression, up to that expression.
#[derive(Drop)]
pub enum Held {
    /// `(!`.
    Negation,
    /// The `(` before a first operand, and the room inside.
    First(u32),
    /// The `(`, a first operand and its operator.
    Second(CExpr, Op),
    Argument(CallFront),
    Index(IndexFront),
}

/// What stands next.
#[derive(Drop)]
pub enum Next {
    /// An expression, in which so many brackets may be opened.
    Wanted(u32),
    /// An argument of a call.
    Argument(CallFront),
    /// A step of a place, or what follows it.
    Place(Use, PlaceFront),
    /// What follows an expression.
    Whole(CExpr),
}

/// What is read of an expression.
#[derive(Drop)]
pub struct Partial {
    /// From the outermost bracket on.
    pub outer: Vec<Held>,
    pub next: Next,
}

pub fn expr(r: &mut Reader<'_>, room: u32) -> Result<CExpr, CRefusal>
    ensures read { IfOk result (λ e. (r.old ≡ expr_tokens e ++ r.new) × IsTrue (spells_expr e)) }
    ensures follows { Follows result (part Part.Expr room ∷ []) [] r.old r.new }
{
    let outer = Vec::new(r.alloc());
    whole(
        r,
        Partial {
            outer,
            next: Next::Wanted(room),
        },
    )
}

/// The same in a box.
pub fn boxed(r: &mut Reader<'_>, room: u32) -> Result<Box<CExpr>, CRefusal>
    ensures read { IfOk result (λ e. (r.old ≡ expr_tokens e ++ r.new) × IsTrue (spells_expr e)) }
    ensures follows { Follows result (part Part.Expr room ∷ []) [] r.old r.new }
{
    let e = expr(r, room)?;
    Ok(Box::new(r.alloc(), e)?)
}

/// An expression whose `(` is read, where there was room for it.
pub fn bracketed(r: &mut Reader<'_>, room: u32) -> Result<CExpr, CRefusal>
    requires { 1 ≤ room }
    ensures read { IfOk result (λ e. (codes "(" ∷ r.old ≡ expr_tokens e ++ r.new) × IsTrue (spells_expr e)) }
    ensures follows { Follows result (part Part.Inside room ∷ []) [] r.old r.new }
{
    let outer = Vec::new(r.alloc());
    let partial = opened(r, outer, room)?;
    whole(r, partial)
}

/// The rest of an expression.
fn whole(r: &mut Reader<'_>, partial: Partial) -> Result<CExpr, CRefusal>
    requires { IsTrue (spells_partial partial) }
    ensures read { IfOk result (λ e. (partial_tokens partial ++ r.old ≡ expr_tokens e ++ r.new) × IsTrue (spells_expr e)) }
    ensures follows { Follows result (partial_wanted partial) [] r.old r.new }
{
    let mut partial = partial;
    while !is_whole(&partial) {
        partial = further(r, partial)?;
    }
    Ok(last(partial))
}

/// The expression that is whole.
fn last(partial: Partial) -> CExpr
    requires outer { partial.outer.items ≡ [] }
    requires whole { IsTrue (is_whole_next partial.next) }
    requires spells { IsTrue (spells_partial partial) }
    ensures tokens { partial_tokens partial ≡ expr_tokens result }
    ensures spells { IsTrue (spells_expr result) }
    ensures nothing { partial_wanted partial ≡ [] }
{
    let Partial {
        outer: _outer,
        next,
    } = partial;
    match next {
        Next::Whole(e) => e,
        Next::Wanted(_room) => unreachable!(),
        Next::Argument(_call) => unreachable!(),
        Next::Place(_of, _place) => unreachable!(),
    }
}

fn is_whole(partial: &Partial) -> bool
    ensures outer { IsTrue result → partial.now.outer.items ≡ [] }
    ensures whole { IsTrue result → IsTrue (is_whole_next partial.now.next) }
    ensures open { IsFalse result → IsTrue (is_whole_next partial.now.next) → IsTrue (has_any partial.now.outer.items) }
{
    match partial.next {
        Next::Whole(_) => partial.outer.is_empty(),
        _ => false,
    }
}

/// One part more.
fn further(r: &mut Reader<'_>, partial: Partial) -> Result<Partial, CRefusal>
    requires spells { IsTrue (spells_partial partial) }
    requires open { IsTrue (is_whole_next partial.next) → IsTrue (has_any partial.outer.items) }
    ensures read { IfOk result (λ p. (partial_tokens partial ++ r.old ≡ partial_tokens p ++ r.new) × IsTrue (spells_partial p)) }
    ensures less { IfOk result (λ p. 2 * length r.new + work_left p.next < 2 * length r.old + work_left partial.next) }
    ensures follows { GoesOn result (partial_wanted partial) r.old r.new }
{
    let Partial { outer, next } = partial;
    match next {
        Next::Wanted(room) => {
            let p = begun(r, outer, room)?;
            Ok(p)
        }
        Next::Argument(call) => {
            let p = argument(r, outer, call)?;
            Ok(p)
        }
        Next::Place(of, place) => {
            let p = step(r, outer, of, place)?;
            Ok(p)
        }
        Next::Whole(e) => {
            let p = closed(r, outer, e)?;
            Ok(p)
        }
    }
}

/// The front of what holds an expression, which stands next.
fn inside(outer: Vec<Held>, held: Held, room: u32) -> Result<Partial, CRefusal>
    requires outer { IsTrue (all_of (map spells_held outer.items)) }
    requires held { IsTrue (spells_held held) }
    ensures tokens { IfOk result (λ p. (partial_tokens p ≡ on_stack outer.items ++ held_tokens held) × IsTrue (spells_partial p)) }
    ensures wanted { IfOk result (λ p. work_left p.next ≡ 0) }
    ensures awaits { Stays result (part Part.Expr room ∷ (held_wanted held ++ behind outer.items)) }
{
    let mut outer = outer;
    match outer.push(held) {
        Ok(()) => Ok(Partial {
            outer,
            next: Next::Wanted(room),
        }),
        Err(failed) => Err(AllocError::from(failed).into()),
    }
}

/// An expression in the brackets that are open.
fn ended(outer: Vec<Held>, e: CExpr) -> Partial
    requires outer { IsTrue (all_of (map spells_held outer.items)) }
    requires whole { IsTrue (spells_expr e) }
    ensures tokens { partial_tokens result ≡ on_stack outer.items ++ expr_tokens e }
    ensures spells { IsTrue (spells_partial result) }
    ensures work { work_left result.next ≡ 0 }
    ensures awaits { Awaits result (behind outer.items) }
{
    Partial {
        outer,
        next: Next::Whole(e),
    }
}

/// A call up to an argument, in the brackets that are open.
fn awaiting(outer: Vec<Held>, call: CallFront) -> Partial
    requires outer { IsTrue (all_of (map spells_held outer.items)) }
    requires call { IsTrue (spells_called call) }
    ensures tokens { partial_tokens result ≡ on_stack outer.items ++ called_front call }
    ensures spells { IsTrue (spells_partial result) }
    ensures work { work_left result.next ≡ 1 }
    ensures awaits { Awaits result (part Part.Arg call.room ∷ part Part.ArgRest call.room ∷ sign (codes ")") ∷ behind outer.items) }
{
    Partial {
        outer,
        next: Next::Argument(call),
    }
}

/// A place up to a step, in the brackets that are open.
fn rooted(outer: Vec<Held>, of: Use, place: PlaceFront) -> Partial
    requires outer { IsTrue (all_of (map spells_held outer.items)) }
    requires of { IsTrue (spells_use of) }
    requires place { IsTrue (spells_root place) }
    ensures tokens { partial_tokens result ≡ on_stack outer.items ++ (use_tokens of ++ place_front place) }
    ensures spells { IsTrue (spells_partial result) }
    ensures work { work_left result.next ≡ 1 }
    ensures awaits { Awaits result (part Part.Steps place.room ∷ (use_wanted of ++ behind outer.items)) }
{
    Partial {
        outer,
        next: Next::Place(of, place),
    }
}

/// The front of an expression.
fn begun(r: &mut Reader<'_>, outer: Vec<Held>, room: u32) -> Result<Partial, CRefusal>
    requires outer { IsTrue (all_of (map spells_held outer.items)) }
    ensures read { IfOk result (λ p. (on_stack outer.items ++ r.old ≡ partial_tokens p ++ r.new) × IsTrue (spells_partial p)) }
    ensures less { IfOk result (λ p. 2 * length r.new + work_left p.next < 2 * length r.old) }
    ensures follows { GoesOn result (part Part.Expr room ∷ behind outer.items) r.old r.new }
{
    if r.sees("(") {
        let p = open(r, outer, room)?;
        Ok(p)
    } else {
        let p = simple(r, outer, room)?;
        Ok(p)
    }
}

/// The front of an expression that begins with no parenthesis.
fn simple(r: &mut Reader<'_>, outer: Vec<Held>, room: u32) -> Result<Partial, CRefusal>
    requires outer { IsTrue (all_of (map spells_held outer.items)) }
    ensures read { IfOk result (λ p. (on_stack outer.items ++ r.old ≡ partial_tokens p ++ r.new) × IsTrue (spells_partial p)) }
    ensures less { IfOk result (λ p. 2 * length r.new + work_left p.next < 2 * length r.old) }
    ensures follows { GoesOn result (part Part.Simple room ∷ behind outer.items) r.old r.new }
{
    match literal::literal(r)? {
        Some(what) => Ok(ended(outer, make::expr(what))),
        None => {
            let p = named(r, outer, room)?;
            Ok(p)
        }
    }
}

/// The front of an expression that begins with a parenthesis.
fn open(r: &mut Reader<'_>, outer: Vec<Held>, room: u32) -> Result<Partial, CRefusal>
    requires outer { IsTrue (all_of (map spells_held outer.items)) }
    ensures read { IfOk result (λ p. (on_stack outer.items ++ r.old ≡ partial_tokens p ++ r.new) × IsTrue (spells_partial p)) }
    ensures less { IfOk result (λ p. 2 * length r.new + work_left p.next < 2 * length r.old) }
    ensures follows { 1 ≤ room → GoesOn result (sign (codes "(") ∷ part Part.Inside room ∷ behind outer.items) r.old r.new }
{
    if room == 0 {
        return Err(r.refusal());
    }
    r.take("(")?;
    let p = opened(r, outer, room)?;
    Ok(p)
}

/// What follows the `(` of an expression, for which there was room.
fn opened(r: &mut Reader<'_>, outer: Vec<Held>, room: u32) -> Result<Partial, CRefusal>
    requires outer { IsTrue (all_of (map spells_held outer.items)) }
    requires room { 1 ≤ room }
    ensures read { IfOk result (λ p. (on_stack outer.items ++ codes "(" ∷ r.old ≡ partial_tokens p ++ r.new) × IsTrue (spells_partial p)) }
    ensures less { IfOk result (λ p. 2 * length r.new + work_left p.next < 2 * length r.old + 2) }
    ensures follows { GoesOn result (part Part.Inside room ∷ behind outer.items) r.old r.new }
{
    if r.eat("*") {
        let p = starred(r, outer, room)?;
        return Ok(p);
    }
    if r.sees("-") {
        let p = negative(r, outer)?;
        return Ok(p);
    }
    if r.eat("!") {
        let p = inside(outer, Held::Negation, room - 1)?;
        return Ok(p);
    }
    let p = inside(outer, Held::First(room - 1), room - 1)?;
    Ok(p)
}

/// A pointer behind its `(*`.
fn starred(r: &mut Reader<'_>, outer: Vec<Held>, room: u32) -> Result<Partial, CRefusal>
    requires outer { IsTrue (all_of (map spells_held outer.items)) }
    ensures read { IfOk result (λ p. (on_stack outer.items ++ codes "(" ∷ codes "*" ∷ r.old ≡ partial_tokens p ++ r.new) × IsTrue (spells_partial p)) }
    ensures less { IfOk result (λ p. 2 * length r.new + work_left p.next < 2 * length r.old + 2) }
    ensures follows { GoesOn result (name_of ∷ sign (codes ")") ∷ part Part.Steps room ∷ behind outer.items) r.old r.new }
{
    let name = place::pointer(r)?;
    let root = PlaceFront {
        through: true,
        name,
        steps: List::new(r.alloc()),
        room,
    };
    Ok(rooted(outer, Use::Value, root))
}

/// A negative number behind its `(`.
fn negative(r: &mut Reader<'_>, outer: Vec<Held>) -> Result<Partial, CRefusal>
    requires outer { IsTrue (all_of (map spells_held outer.items)) }
    ensures read { IfOk result (λ p. (on_stack outer.items ++ codes "(" ∷ r.old ≡ partial_tokens p ++ r.new) × IsTrue (spells_partial p)) }
    ensures less { IfOk result (λ p. 2 * length r.new + work_left p.next < 2 * length r.old + 2) }
    ensures follows { (room : ℕ) → GoesOn result (sign (codes "-") ∷ part Part.Negative room ∷ sign (codes ")") ∷ behind outer.items) r.old r.new }
{
    r.take("-")?;
    let what = literal::negative(r)?;
    Ok(ended(outer, make::expr(what)))
}

/// An expression that begins with a name or a function of the prelude.
fn named(r: &mut Reader<'_>, outer: Vec<Held>, room: u32) -> Result<Partial, CRefusal>
    requires outer { IsTrue (all_of (map spells_held outer.items)) }
    ensures read { IfOk result (λ p. (on_stack outer.items ++ r.old ≡ partial_tokens p ++ r.new) × IsTrue (spells_partial p)) }
    ensures less { IfOk result (λ p. 2 * length r.new + work_left p.next < 2 * length r.old) }
    ensures follows { has literal_starts (first_piece r.old) ≡ false → GoesOn result (part Part.Simple room ∷ behind outer.items) r.old r.new }
{
    if words::is_name(r.piece()) {
        let p = name_used(r, outer, room)?;
        Ok(p)
    } else {
        let p = prelude_called(r, outer, room)?;
        Ok(p)
    }
}

/// A call of a function of the prelude.
fn prelude_called(r: &mut Reader<'_>, outer: Vec<Held>, room: u32) -> Result<Partial, CRefusal>
    requires outer { IsTrue (all_of (map spells_held outer.items)) }
    ensures read { IfOk result (λ p. (on_stack outer.items ++ r.old ≡ partial_tokens p ++ r.new) × IsTrue (spells_partial p)) }
    ensures less { IfOk result (λ p. 2 * length r.new + work_left p.next < 2 * length r.old) }
    ensures follows { 1 ≤ room → GoesOn result (prelude_function ∷ sign (codes "(") ∷ part Part.Args (room - 1) ∷ sign (codes ")")
        ∷ behind outer.items) r.old
        r.new }
{
    let name = name::callee(r)?;
    let p = call(r, outer, name, room)?;
    Ok(p)
}

/// A name, and the `(` behind it where it is called.
#[tactic(auto, using(crate::proofs::TokenLemmas::name_callee))]
fn name_used(r: &mut Reader<'_>, outer: Vec<Held>, room: u32) -> Result<Partial, CRefusal>
    requires outer { IsTrue (all_of (map spells_held outer.items)) }
    ensures read { IfOk result (λ p. (on_stack outer.items ++ r.old ≡ partial_tokens p ++ r.new) × IsTrue (spells_partial p)) }
    ensures less { IfOk result (λ p. 2 * length r.new + work_left p.next < 2 * length r.old) }
    ensures follows { GoesOn result (name_of ∷ part Part.NameUse room ∷ behind outer.items) r.old r.new }
{
    let name = name::name(r)?;
    if r.sees("(") {
        let p = call(r, outer, name, room)?;
        return Ok(p);
    }
    let root = PlaceFront {
        through: false,
        name,
        steps: List::new(r.alloc()),
        room,
    };
    Ok(rooted(outer, Use::Value, root))
}

/// The `(` of a call whose name is read, and the `)` where it has no arguments.
fn call(r: &mut Reader<'_>, outer: Vec<Held>, name: Text, room: u32) -> Result<Partial, CRefusal>
    requires outer { IsTrue (all_of (map spells_held outer.items)) }
    requires name { IsTrue (is_callee name) }
    ensures read { IfOk result (λ p. (on_stack outer.items ++ name ∷ r.old ≡ partial_tokens p ++ r.new) × IsTrue (spells_partial p)) }
    ensures less { IfOk result (λ p. 2 * length r.new + work_left p.next < 2 * length r.old) }
    ensures follows { 1 ≤ room → GoesOn result (sign (codes "(") ∷ part Part.Args (room - 1) ∷ sign (codes ")") ∷ behind outer.items) r.old r.new }
{
    place::open(r, room)?;
    let front = CallFront {
        name,
        args: List::new(r.alloc()),
        room: room - 1,
    };
    if r.eat(")") {
        return Ok(called(outer, front));
    }
    Ok(awaiting(outer, front))
}

/// A call that is read.
fn called(outer: Vec<Held>, front: CallFront) -> Partial
    requires outer { IsTrue (all_of (map spells_held outer.items)) }
    requires call { IsTrue (spells_called front) }
    ensures tokens { partial_tokens result ≡ on_stack outer.items ++ front.name
        ∷ codes "(" ∷ (with_commas (map arg_tokens front.args) ++ codes ")" ∷ []) }
    ensures spells { IsTrue (spells_partial result) }
    ensures work { work_left result.next ≡ 0 }
    ensures awaits { Awaits result (behind outer.items) }
{
    let what = make::called(make::call(front.name, front.args));
    ended(outer, make::expr(what))
}

/// The front of an argument.
fn argument(r: &mut Reader<'_>, outer: Vec<Held>, call: CallFront) -> Result<Partial, CRefusal>
    requires outer { IsTrue (all_of (map spells_held outer.items)) }
    requires call { IsTrue (spells_called call) }
    ensures read { IfOk result (λ p. (on_stack outer.items ++ (called_front call ++ r.old) ≡ partial_tokens p ++ r.new) × IsTrue (spells_partial p)) }
    ensures less { IfOk result (λ p. 2 * length r.new + work_left p.next < 2 * length r.old + 1) }
    ensures follows { GoesOn result (part Part.Arg call.room ∷ part Part.ArgRest call.room ∷ sign (codes ")") ∷ behind outer.items) r.old r.new }
{
    if r.eat("&") {
        let p = address(r, outer, call)?;
        return Ok(p);
    }
    let room = call.room;
    let p = inside(outer, Held::Argument(call), room)?;
    Ok(p)
}

/// The root of a place behind its `&`.
fn address(r: &mut Reader<'_>, outer: Vec<Held>, call: CallFront) -> Result<Partial, CRefusal>
    requires outer { IsTrue (all_of (map spells_held outer.items)) }
    requires call { IsTrue (spells_called call) }
    ensures read { IfOk result (λ p. (on_stack outer.items ++ (called_front call ++ codes "&" ∷ r.old) ≡ partial_tokens p ++ r.new)
        × IsTrue (spells_partial p)) }
    ensures less { IfOk result (λ p. 2 * length r.new + work_left p.next < 2 * length r.old + 3) }
    ensures follows { GoesOn result (part Part.Place call.room ∷ part Part.ArgRest call.room ∷ sign (codes ")") ∷ behind outer.items) r.old r.new }
{
    let root = place::place_root(r, call.room)?;
    let front = PlaceFront {
        through: root.through,
        name: root.name,
        steps: List::new(r.alloc()),
        room: call.room,
    };
    Ok(rooted(outer, Use::Address(call), front))
}

/// A step of a place, or what follows it where it has no further one.
fn step(
    r: &mut Reader<'_>,
    outer: Vec<Held>,
    of: Use,
    place: PlaceFront,
) -> Result<Partial, CRefusal>
    requires outer { IsTrue (all_of (map spells_held outer.items)) }
    requires of { IsTrue (spells_use of) }
    requires place { IsTrue (spells_root place) }
    ensures read { IfOk result (λ p. (on_stack outer.items ++ ((use_tokens of ++ place_front place) ++ r.old) ≡ partial_tokens p ++ r.new)
        × IsTrue (spells_partial p)) }
    ensures less { IfOk result (λ p. 2 * length r.new + work_left p.next < 2 * length r.old + 1) }
    ensures follows { GoesOn result (part Part.Steps place.room ∷ (use_wanted of ++ behind outer.items)) r.old r.new }
{
    if !r.eat(".") {
        let p = placed(r, outer, of, place)?;
        return Ok(p);
    }
    let member = name::name(r)?;
    if r.sees("[") {
        let p = indexed(r, outer, of, place, member)?;
        return Ok(p);
    }
    let place = stepped(r.alloc(), place, make::step(member, None))?;
    Ok(rooted(outer, of, place))
}

/// The place with one step more.
fn stepped(alloc: Global, place: PlaceFront, step: CStep) -> Result<PlaceFront, CRefusal>
    requires place { IsTrue (spells_root place) }
    requires step { IsTrue (spells_step step) }
    ensures read { IfOk result (λ longer. (place_front longer ≡ place_front place ++ step_tokens step) × IsTrue (spells_root longer)) }
    ensures awaits { (rest : List Wanted) (pieces : List Token) → Expects (part Part.Steps place.room ∷ rest) pieces
        → MatchResult result (λ longer. Expects (part Part.Steps longer.room ∷ rest) pieces) WantsMemory }
{
    let mut place = place;
    room::push(alloc, &mut place.steps, step, 1)?;
    Ok(place)
}

/// The front of an index behind a member.
fn indexed(
    r: &mut Reader<'_>,
    outer: Vec<Held>,
    of: Use,
    place: PlaceFront,
    member: Text,
) -> Result<Partial, CRefusal>
    requires outer { IsTrue (all_of (map spells_held outer.items)) }
    requires of { IsTrue (spells_use of) }
    requires place { IsTrue (spells_root place) }
    requires member { IsTrue (is_name member) }
    ensures read { IfOk result (λ p. (on_stack outer.items ++ ((use_tokens of ++ place_front place) ++ codes "." ∷ member ∷ r.old)
        ≡ partial_tokens p ++ r.new) × IsTrue (spells_partial p)) }
    ensures less { IfOk result (λ p. 2 * length r.new + work_left p.next < 2 * length r.old) }
    ensures follows { IsTrue (matches (Class.exactly (codes "[")) (first_piece r.old))
        → GoesOn result (part Part.Index place.room ∷ part Part.Steps place.room ∷ (use_wanted of ++ behind outer.items)) r.old r.new }
{
    if place.room < 2 {
        return Err(r.refusal());
    }
    let room = place.room - 2;
    let signed = place::index_front(r)?;
    let front = IndexFront {
        of,
        place,
        member,
        signed,
    };
    let p = inside(outer, Held::Index(front), room)?;
    Ok(p)
}

/// A place that is read, as what it is read for.
fn placed(
    r: &mut Reader<'_>,
    outer: Vec<Held>,
    of: Use,
    place: PlaceFront,
) -> Result<Partial, CRefusal>
    requires outer { IsTrue (all_of (map spells_held outer.items)) }
    requires of { IsTrue (spells_use of) }
    requires place { IsTrue (spells_root place) }
    ensures read { IfOk result (λ p. (on_stack outer.items ++ ((use_tokens of ++ place_front place) ++ r.old) ≡ partial_tokens p ++ r.new)
        × IsTrue (spells_partial p)) }
    ensures less { IfOk result (λ p. 2 * length r.new + work_left p.next < 2 * length r.old + 1) }
    ensures follows { GoesOn result (use_wanted of ++ behind outer.items) r.old r.new }
{
    let at = make::place(place.through, place.name, place.steps);
    match of {
        Use::Value => {
            let e = make::expr(make::read(at));
            Ok(ended(outer, e))
        }
        Use::Address(call) => {
            let p = argued(r, outer, call, make::address(at))?;
            Ok(p)
        }
    }
}

/// An argument that is read, and the sign behind it.
fn argued(
    r: &mut Reader<'_>,
    outer: Vec<Held>,
    call: CallFront,
    arg: CArg,
) -> Result<Partial, CRefusal>
    requires outer { IsTrue (all_of (map spells_held outer.items)) }
    requires call { IsTrue (spells_called call) }
    requires arg { IsTrue (spells_arg arg) }
    ensures read { IfOk result (λ p. (on_stack outer.items ++ (called_front call ++ (arg_tokens arg ++ r.old)) ≡ partial_tokens p ++ r.new)
        × IsTrue (spells_partial p)) }
    ensures less { IfOk result (λ p. 2 * length r.new + work_left p.next < 2 * length r.old) }
    ensures follows { GoesOn result (part Part.ArgRest call.room ∷ sign (codes ")") ∷ behind outer.items) r.old r.new }
{
    let call = with_argument(r.alloc(), call, arg)?;
    if r.eat(",") {
        return Ok(awaiting(outer, call));
    }
    r.take(")")?;
    Ok(called(outer, call))
}

/// The call with one argument more.
fn with_argument(alloc: Global, call: CallFront, arg: CArg) -> Result<CallFront, CRefusal>
    requires call { IsTrue (spells_called call) }
    requires arg { IsTrue (spells_arg arg) }
    ensures tokens { IfOk result (λ more. more.name ∷ codes "(" ∷ with_commas (map arg_tokens more.args) ≡ called_front call ++ arg_tokens arg) }
    ensures spells { IfOk result (λ more. IsTrue (spells_called more) × IsTrue (has_any more.args)) }
    ensures awaits { (rest : List Wanted) (pieces : List Token) → Expects (part Part.ArgRest call.room ∷ rest) pieces
        → MatchResult result (λ more. Expects (part Part.ArgRest more.room ∷ rest) pieces) WantsMemory }
{
    let mut call = call;
    room::push(alloc, &mut call.args, arg, 2)?;
    Ok(call)
}

/// What follows an expression in the innermost open bracket.
fn closed(r: &mut Reader<'_>, outer: Vec<Held>, e: CExpr) -> Result<Partial, CRefusal>
    requires outer { IsTrue (all_of (map spells_held outer.items)) }
    requires open { IsTrue (has_any outer.items) }
    requires whole { IsTrue (spells_expr e) }
    ensures read { IfOk result (λ p. (on_stack outer.items ++ (expr_tokens e ++ r.old) ≡ partial_tokens p ++ r.new) × IsTrue (spells_partial p)) }
    ensures less { IfOk result (λ p. 2 * length r.new + work_left p.next < 2 * length r.old) }
    ensures follows { GoesOn result (behind outer.items) r.old r.new }
{
    let mut outer = outer;
    match outer.pop() {
        Some(held) => {
            let p = closed_held(r, outer, held, e)?;
            Ok(p)
        }
        None => unreachable!(),
    }
}

fn closed_held(
    r: &mut Reader<'_>,
    outer: Vec<Held>,
    held: Held,
    e: CExpr,
) -> Result<Partial, CRefusal>
    requires outer { IsTrue (all_of (map spells_held outer.items)) }
    requires held { IsTrue (spells_held held) }
    requires whole { IsTrue (spells_expr e) }
    ensures read { IfOk result (λ p. (on_stack outer.items ++ (held_tokens held ++ (expr_tokens e ++ r.old)) ≡ partial_tokens p ++ r.new)
        × IsTrue (spells_partial p)) }
    ensures less { IfOk result (λ p. 2 * length r.new + work_left p.next < 2 * length r.old) }
    ensures follows { GoesOn result (held_wanted held ++ behind outer.items) r.old r.new }
{
    match held {
        Held::Negation => {
            let p = negated(r, outer, e)?;
            Ok(p)
        }
        Held::First(room) => {
            let op = literal::operator(r)?;
            let p = inside(outer, Held::Second(e, op), room)?;
            Ok(p)
        }
        Held::Second(left, op) => {
            let p = compared(r, outer, Operands { op, left, right: e })?;
            Ok(p)
        }
        Held::Argument(call) => {
            let p = argued(r, outer, call, make::value(e))?;
            Ok(p)
        }
        Held::Index(front) => {
            let p = closed_index(r, outer, front, e)?;
            Ok(p)
        }
    }
}

/// The `)` behind the operand of `!`.
fn negated(r: &mut Reader<'_>, outer: Vec<Held>, e: CExpr) -> Result<Partial, CRefusal>
    requires outer { IsTrue (all_of (map spells_held outer.items)) }
    requires whole { IsTrue (spells_expr e) }
    ensures read { IfOk result (λ p. (on_stack outer.items ++ codes "(" ∷ codes "!" ∷ (expr_tokens e ++ r.old) ≡ partial_tokens p ++ r.new)
        × IsTrue (spells_partial p)) }
    ensures less { IfOk result (λ p. 2 * length r.new + work_left p.next < 2 * length r.old) }
    ensures follows { GoesOn result (sign (codes ")") ∷ behind outer.items) r.old r.new }
{
    r.take(")")?;
    let what = make::not(Box::new(r.alloc(), e)?);
    Ok(ended(outer, make::expr(what)))
}

/// What a comparison, `&&` or `||` is made of.
#[derive(Drop)]
struct Operands {
    op: Op,
    left: CExpr,
    right: CExpr,
}

/// The `)` behind the second operand.
fn compared(r: &mut Reader<'_>, outer: Vec<Held>, operands: Operands) -> Result<Partial, CRefusal>
    requires outer { IsTrue (all_of (map spells_held outer.items)) }
    requires op { IsTrue (is_c_operator operands.op) }
    requires left { IsTrue (spells_expr operands.left) }
    requires right { IsTrue (spells_expr operands.right) }
    ensures read { IfOk result (λ p. (on_stack outer.items ++ codes
        "(" ∷ (expr_tokens operands.left ++ operator_sign operands.op ∷ (expr_tokens operands.right ++ r.old)) ≡ partial_tokens p ++ r.new)
        × IsTrue (spells_partial p)) }
    ensures less { IfOk result (λ p. 2 * length r.new + work_left p.next < 2 * length r.old) }
    ensures follows { GoesOn result (sign (codes ")") ∷ behind outer.items) r.old r.new }
{
    r.take(")")?;
    let left = Box::new(r.alloc(), operands.left)?;
    let right = Box::new(r.alloc(), operands.right)?;
    let what = make::two(operands.op, left, right);
    Ok(ended(outer, make::expr(what)))
}

/// The end of an index behind its expression.
fn closed_index(
    r: &mut Reader<'_>,
    outer: Vec<Held>,
    front: IndexFront,
    e: CExpr,
) -> Result<Partial, CRefusal>
    requires outer { IsTrue (all_of (map spells_held outer.items)) }
    requires front { IsTrue (spells_held (Held.Index front)) }
    requires whole { IsTrue (spells_expr e) }
    ensures read { IfOk result (λ p. (on_stack outer.items ++ (held_tokens (Held.Index front) ++ (expr_tokens e ++ r.old)) ≡ partial_tokens p ++ r.new)
        × IsTrue (spells_partial p)) }
    ensures less { IfOk result (λ p. 2 * length r.new + work_left p.next < 2 * length r.old) }
    ensures follows { GoesOn result (sign (codes ",") ∷ elements ∷ sign (codes ")") ∷ sign (codes "]") ∷ part Part.Steps front.place.room
        ∷ (use_wanted front.of ++ behind outer.items)) r.old r.new }
{
    let length = place::index_length(r)?;
    let index = make::index(front.signed, e, length);
    let step = make::step(front.member, Some(Box::new(r.alloc(), index)?));
    let place = stepped(r.alloc(), front.place, step)?;
    Ok(rooted(outer, front.of, place))
}
