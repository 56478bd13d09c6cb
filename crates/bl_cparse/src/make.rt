//! Parts of a tree, with what spells them. Their places are set when the whole file is read.

ghost use Rattle.std.specs.Prelude.{◌≡◌, [], ◌∷◌, ◌++◌, ◌&&◌, map, option_map, codes};
ghost use Rattle.std.specs.Fmt.{decimal};
ghost use Rattle.bl_tree.specs.Reduce.{all_of, joined};
ghost use Rattle.bl_ctext.specs.Names.{is_name, is_callee};
ghost use Rattle.bl_ctext.specs.Spelling.{literal_tokens, operator_sign, call_tokens, index_front, root_tokens, if_any, expr_tokens, kind_tokens};
ghost use Rattle.bl_ctext.specs.Spelling.{place_tokens, step_tokens, index_tokens, ccall_tokens, arg_tokens};
ghost use Rattle.bl_ctext.specs.Spellable.{is_literal, is_c_operator, is_length, none_or, spells_expr, spells_kind, spells_place, spells_step};
ghost use Rattle.bl_ctext.specs.Spellable.{spells_index, spells_call, spells_arg};

use crate::room::fitted;
use bl_tree::c::{CArg, CCall, CExpr, CExprKind, CIndex, CPlace, CStep};
use bl_tree::{Box, List, Op, Place, Scalar, Text};

/// The place of a part until that is done.
pub const NOWHERE: Place = Place { start: 0, end: 0 };

pub fn literal(scalar: Scalar, n: i128) -> CExprKind
    ensures tokens { kind_tokens result ≡ literal_tokens scalar n }
    ensures spells { spells_kind result ≡ is_literal scalar n }
{
    CExprKind::Literal(scalar, n)
}

pub fn expr(what: CExprKind) -> CExpr
    ensures tokens { expr_tokens result ≡ kind_tokens what }
    ensures spells { spells_expr result ≡ spells_kind what }
{
    CExpr {
        place: NOWHERE,
        what,
    }
}

pub fn not(operand: Box<CExpr>) -> CExprKind
    ensures tokens { kind_tokens result ≡ codes "(" ∷ codes "!" ∷ (expr_tokens operand ++ codes ")" ∷ []) }
    ensures spells { spells_kind result ≡ spells_expr operand }
{
    CExprKind::Not(operand)
}

pub fn two(op: Op, left: Box<CExpr>, right: Box<CExpr>) -> CExprKind
    ensures tokens { kind_tokens result ≡ codes "(" ∷ (expr_tokens left ++ (operator_sign op ∷ (expr_tokens right ++ codes ")" ∷ []))) }
    ensures spells { spells_kind result ≡ is_c_operator op && (spells_expr left && spells_expr right) }
{
    CExprKind::Two(op, left, right)
}

pub fn read(at: CPlace) -> CExprKind
    ensures tokens { kind_tokens result ≡ place_tokens at }
    ensures spells { spells_kind result ≡ spells_place at }
{
    CExprKind::Read(at)
}

pub fn called(call: CCall) -> CExprKind
    ensures tokens { kind_tokens result ≡ ccall_tokens call }
    ensures spells { spells_kind result ≡ spells_call call }
{
    CExprKind::Call(call)
}

pub fn call(name: Text, args: List<CArg>) -> CCall
    ensures tokens { ccall_tokens result ≡ call_tokens name (map arg_tokens args) }
    ensures spells { spells_call result ≡ is_callee name && all_of (map spells_arg args) }
{
    CCall {
        name,
        args: fitted(args),
    }
}

pub fn value(value: CExpr) -> CArg
    ensures tokens { arg_tokens result ≡ expr_tokens value }
    ensures spells { spells_arg result ≡ spells_expr value }
{
    CArg::Value(value)
}

pub fn address(at: CPlace) -> CArg
    ensures tokens { arg_tokens result ≡ codes "&" ∷ place_tokens at }
    ensures spells { spells_arg result ≡ spells_place at }
{
    CArg::Address(at)
}

pub fn place(through: bool, name: Text, steps: List<CStep>) -> CPlace
    ensures tokens { place_tokens result ≡ root_tokens through name ++ joined (map step_tokens steps) }
    ensures spells { spells_place result ≡ is_name name && all_of (map spells_step steps) }
{
    CPlace {
        through,
        name,
        steps: fitted(steps),
    }
}

pub fn step(member: Text, index: Option<Box<CIndex>>) -> CStep
    ensures tokens { step_tokens result ≡ codes "." ∷ member ∷ if_any (option_map index_tokens index) }
    ensures spells { spells_step result ≡ is_name member && none_or (option_map spells_index index) }
{
    CStep { member, index }
}

pub fn index(signed: bool, at: CExpr, length: u32) -> CIndex
    ensures tokens { index_tokens result ≡ index_front signed ++ (expr_tokens at ++ codes "," ∷ decimal length ∷ codes ")" ∷ codes "]" ∷ []) }
    ensures spells { spells_index result ≡ spells_expr at && is_length length }
{
    CIndex { signed, at, length }
}
