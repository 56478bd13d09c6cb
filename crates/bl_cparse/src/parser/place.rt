//! Places and calls as statements begin with them, and parts that they share with those in expressions. `room` is how
//! many brackets may still be opened.

ghost use Rattle.std.specs.Prelude.{◌≡◌, ◌≤◌, ◌<◌, ◌-◌, length, false, [], ◌∷◌, ◌++◌, codes, map, option_map, IsTrue, IfOk, OnOk};
ghost use Rattle.bl_tree.specs.Reduce.{all_of};
ghost use Rattle.std.specs.Fmt.{decimal};
ghost use Rattle.bl_ctext.specs.Names.{is_name, is_callee};
ghost use Rattle.bl_ctext.specs.Spelling.{with_commas, if_any, root_tokens, index_front, place_tokens, step_tokens, index_tokens, ccall_tokens, arg_tokens};
ghost use Rattle.bl_ctext.specs.Spellable.{is_length, none_or, spells_place, spells_step, spells_index, spells_call, spells_arg};
ghost use Rattle.bl_cparse_syntax.specs.declared.grammar.Part.{Part};
ghost use Rattle.bl_cparse_syntax.specs.Pieces.{first_piece};
ghost use Rattle.bl_cparse_syntax.specs.Classes.{Class, matches};
ghost use Rattle.bl_cparse.specs.inner.Reading.{sign, name_of, index_function, elements, part, index_word, GoesOnAPlace, Follows};

use crate::parser::{expr, literal, name};
use crate::reader::Reader;
use crate::refusal::CRefusal;
use crate::{make, room};
use bl_tree::c::{CArg, CCall, CIndex, CPlace, CStep};
use bl_tree::{Box, List, Text};

/// The `(` of an expression or a place, where there is room for it.
pub fn open(r: &mut Reader<'_>, room: u32) -> Result<(), CRefusal>
    ensures read { OnOk result (r.old ≡ codes "(" ∷ r.new) }
    ensures room { OnOk result (1 ≤ room) }
    ensures follows { 1 ≤ room → Follows result (sign (codes "(") ∷ []) [] r.old r.new }
{
    if room == 0 {
        return Err(r.refusal());
    }
    r.take("(")
}

/// A pointer's name and the `)` behind it.
pub fn pointer(r: &mut Reader<'_>) -> Result<Text, CRefusal>
    ensures read { IfOk result (λ name. (r.old ≡ name ∷ codes ")" ∷ r.new) × IsTrue (is_name name)) }
    ensures follows { Follows result (name_of ∷ sign (codes ")") ∷ []) [] r.old r.new }
{
    let name = name::name(r)?;
    r.take(")")?;
    Ok(name)
}

/// `(*`, a pointer's name and `)`.
pub fn star(r: &mut Reader<'_>, room: u32) -> Result<Text, CRefusal>
    ensures read { IfOk result (λ name. (r.old ≡ codes "(" ∷ codes "*" ∷ name ∷ codes ")" ∷ r.new) × IsTrue (is_name name)) }
    ensures follows { 1 ≤ room → Follows result (sign (codes "(") ∷ sign (codes "*") ∷ name_of ∷ sign (codes ")") ∷ []) [] r.old r.new }
{
    open(r, room)?;
    r.take("*")?;
    pointer(r)
}

/// What a place begins with.
#[derive(Drop)]
pub struct Root {
    /// Whether it is a pointer, `(*`, its name and `)`.
    pub through: bool,
    pub name: Text,
}

pub fn place_root(r: &mut Reader<'_>, room: u32) -> Result<Root, CRefusal>
    ensures read { IfOk result (λ root. (r.old ≡ root_tokens root.through root.name ++ r.new) × IsTrue (is_name root.name)) }
    ensures follows { Follows result (part Part.Place room ∷ []) (part Part.Steps room ∷ []) r.old r.new }
{
    if r.sees("(") {
        let name = star(r, room)?;
        return Ok(Root {
            through: true,
            name,
        });
    }
    let name = name::name(r)?;
    Ok(Root {
        through: false,
        name,
    })
}

/// The steps of a place whose root is read.
pub fn place(r: &mut Reader<'_>, through: bool, name: Text, room: u32) -> Result<CPlace, CRefusal>
    requires { IsTrue (is_name name) }
    ensures read { IfOk result (λ at. (root_tokens through name ++ r.old ≡ place_tokens at ++ r.new) × IsTrue (spells_place at)) }
    ensures follows { (tail : Part) → GoesOnAPlace tail → Follows result (part tail room ∷ []) (part tail room ∷ []) r.old r.new }
    ensures ends { OnOk result (matches (Class.exactly (codes ".")) (first_piece r.new) ≡ false) }
{
    let mut steps = List::new(r.alloc());
    while r.sees(".") {
        let step = step(r, room)?;
        room::push(r.alloc(), &mut steps, step, 1)?;
    }
    Ok(make::place(through, name, steps))
}

fn step(r: &mut Reader<'_>, room: u32) -> Result<CStep, CRefusal>
    ensures read { IfOk result (λ s. (r.old ≡ step_tokens s ++ r.new) × IsTrue (spells_step s)) }
    ensures shorter { OnOk result (length r.new < length r.old) }
    ensures follows { Follows result (sign (codes ".") ∷ name_of ∷ part Part.Index room ∷ []) [] r.old r.new }
{
    r.take(".")?;
    let member = name::name(r)?;
    let index = maybe_index(r, room)?;
    Ok(make::step(member, index))
}

/// The index behind a member, where there is one.
fn maybe_index(r: &mut Reader<'_>, room: u32) -> Result<Option<Box<CIndex>>, CRefusal>
    ensures read { IfOk result (λ i. (r.old ≡ if_any (option_map index_tokens i) ++ r.new) × IsTrue (none_or (option_map spells_index i))) }
    ensures follows { Follows result (part Part.Index room ∷ []) [] r.old r.new }
{
    if r.sees("[") {
        let index = index(r, room)?;
        return Ok(Some(Box::new(r.alloc(), index)?));
    }
    Ok(None)
}

fn index(r: &mut Reader<'_>, room: u32) -> Result<CIndex, CRefusal>
    requires { IsTrue (matches (Class.exactly (codes "[")) (first_piece r.old)) }
    ensures read { IfOk result (λ i. (r.old ≡ index_tokens i ++ r.new) × IsTrue (spells_index i)) }
    ensures follows { Follows result (part Part.Index room ∷ []) [] r.old r.new }
{
    if room < 2 {
        return Err(r.refusal());
    }
    let signed = index_front(r)?;
    let at = expr::expr(r, room - 2)?;
    let length = index_length(r)?;
    Ok(make::index(signed, at, length))
}

/// The front of an index, and whether it is a signed one.
pub fn index_front(r: &mut Reader<'_>) -> Result<bool, CRefusal>
    ensures read { IfOk result (λ signed. r.old ≡ index_front signed ++ r.new) }
    ensures follows { Follows result (sign (codes "[") ∷ index_function ∷ sign (codes "(") ∷ []) [] r.old r.new }
{
    r.take("[")?;
    let signed = index_sign(r)?;
    r.take("(")?;
    Ok(signed)
}

/// The function that takes an index, and whether that is a signed one.
fn index_sign(r: &mut Reader<'_>) -> Result<bool, CRefusal>
    ensures read { IfOk result (λ signed. r.old ≡ index_word signed ∷ r.new) }
    ensures follows { Follows result (index_function ∷ []) [] r.old r.new }
{
    if r.eat("bl_ix_s") {
        return Ok(true);
    }
    r.take("bl_ix_u")?;
    Ok(false)
}

/// What follows the expression of an index.
pub fn index_length(r: &mut Reader<'_>) -> Result<u32, CRefusal>
    ensures read { IfOk result (λ n. (r.old ≡ codes "," ∷ decimal n ∷ codes ")" ∷ codes "]" ∷ r.new) × IsTrue (is_length n)) }
    ensures follows { Follows result (sign (codes ",") ∷ elements ∷ sign (codes ")") ∷ sign (codes "]") ∷ []) [] r.old r.new }
{
    r.take(",")?;
    let length = length(r)?;
    r.take(")")?;
    r.take("]")?;
    Ok(length)
}

/// The number of elements of an array.
pub fn length(r: &mut Reader<'_>) -> Result<u32, CRefusal>
    ensures read { IfOk result (λ n. (r.old ≡ decimal n ∷ r.new) × IsTrue (is_length n)) }
    ensures follows { Follows result (elements ∷ []) [] r.old r.new }
{
    Ok(literal::number(r, 1, 65_536)? as u32)
}

/// The arguments of a call whose name is read.
pub fn call(r: &mut Reader<'_>, name: Text, room: u32) -> Result<CCall, CRefusal>
    requires { IsTrue (is_callee name) }
    ensures read { IfOk result (λ c. (name ∷ r.old ≡ ccall_tokens c ++ r.new) × IsTrue (spells_call c)) }
    ensures follows { 1 ≤ room → Follows result (sign (codes "(") ∷ part Part.Args (room - 1) ∷ sign (codes ")") ∷ []) [] r.old r.new }
{
    open(r, room)?;
    let args = arguments(r, room - 1)?;
    r.take(")")?;
    Ok(make::call(name, args))
}

/// The arguments before a `)`.
fn arguments(r: &mut Reader<'_>, room: u32) -> Result<List<CArg>, CRefusal>
    ensures read { IfOk result (λ args. (r.old ≡ with_commas (map arg_tokens args) ++ r.new) × IsTrue (all_of (map spells_arg args))) }
    ensures follows { Follows result (part Part.Args room ∷ sign (codes ")") ∷ []) (sign (codes ")") ∷ []) r.old r.new }
{
    let mut args = List::new(r.alloc());
    if r.sees(")") {
        return Ok(args);
    }
    let first = argument(r, room)?;
    room::push(r.alloc(), &mut args, first, 2)?;
    while r.eat(",") {
        let next = argument(r, room)?;
        room::push(r.alloc(), &mut args, next, 2)?;
    }
    Ok(args)
}

fn argument(r: &mut Reader<'_>, room: u32) -> Result<CArg, CRefusal>
    ensures read { IfOk result (λ arg. (r.old ≡ arg_tokens arg ++ r.new) × IsTrue (spells_arg arg)) }
    ensures follows { Follows result (part Part.Arg room ∷ []) [] r.old r.new }
{
    if r.eat("&") {
        let root = place_root(r, room)?;
        let at = place(r, root.through, root.name, room)?;
        return Ok(make::address(at));
    }
    Ok(make::value(expr::expr(r, room)?))
}
