//! Statements of a tree, with what spells them.

ghost use Rattle.std.specs.Prelude.{◌≡◌, [], ◌∷◌, ◌++◌, ◌&&◌, map, option_map, codes, true};
ghost use Rattle.bl_tree.specs.Reduce.{all_of, joined};
ghost use Rattle.bl_ctext.specs.Names.{is_struct_name, is_turn_name};
ghost use Rattle.bl_ctext.specs.Spelling.{expr_tokens, place_tokens, ccall_tokens, stmt_tokens, stmt_kind_tokens, braced, condition_tokens};
ghost use Rattle.bl_ctext.specs.Spelling.{result_tokens, zeros_tokens, turn_declared, turn_counted};
ghost use Rattle.bl_ctext.specs.Spellable.{spells_expr, spells_place, spells_call, spells_stmt, spells_stmt_kind, spells_result};

use crate::make::NOWHERE;
use bl_tree::c::{CCall, CExpr, CPlace, CStmt, CStmtKind};
use bl_tree::{Box, List, Text};

pub fn stmt(what: CStmtKind) -> CStmt
    ensures tokens { stmt_tokens result ≡ stmt_kind_tokens what }
    ensures spells { spells_stmt result ≡ spells_stmt_kind what }
{
    CStmt {
        place: NOWHERE,
        what,
    }
}

pub fn set(at: CPlace, value: Box<CExpr>) -> CStmtKind
    ensures tokens { stmt_kind_tokens result ≡ place_tokens at ++ (codes "=" ∷ (expr_tokens value ++ codes ";" ∷ [])) }
    ensures spells { spells_stmt_kind result ≡ spells_place at && spells_expr value }
{
    CStmtKind::Set(at, value)
}

pub fn clear(at: Box<CPlace>, of: Text) -> CStmtKind
    ensures tokens { stmt_kind_tokens result ≡ place_tokens at ++ zeros_tokens of }
    ensures spells { spells_stmt_kind result ≡ spells_place at && is_struct_name of }
{
    CStmtKind::Clear(at, of)
}

pub fn call(call: CCall) -> CStmtKind
    ensures tokens { stmt_kind_tokens result ≡ ccall_tokens call ++ codes ";" ∷ [] }
    ensures spells { spells_stmt_kind result ≡ spells_call call }
{
    CStmtKind::Call(call)
}

pub fn branch(test: Box<CExpr>, then_part: List<CStmt>) -> CStmtKind
    ensures tokens { stmt_kind_tokens result ≡ codes "if" ∷ (condition_tokens test ++ (braced (map stmt_tokens then_part) ++ [])) }
    ensures spells { spells_stmt_kind result ≡ spells_expr test && (all_of (map spells_stmt then_part) && true) }
{
    CStmtKind::If(test, then_part, None)
}

pub fn branches(test: Box<CExpr>, then_part: List<CStmt>, else_part: List<CStmt>) -> CStmtKind
    ensures tokens { stmt_kind_tokens result ≡ codes "if" ∷ (condition_tokens test ++
        (braced (map stmt_tokens then_part) ++ codes "else" ∷ braced (map stmt_tokens else_part))) }
    ensures spells { spells_stmt_kind result ≡ spells_expr test && (all_of (map spells_stmt then_part) && all_of (map spells_stmt else_part)) }
{
    CStmtKind::If(test, then_part, Some(else_part))
}

pub fn turns(turn: Text, test: Box<CExpr>, body: List<CStmt>) -> CStmtKind
    ensures tokens { stmt_kind_tokens result ≡ turn_declared turn ++
        (condition_tokens test ++ (turn_counted turn ++ (joined (map stmt_tokens body) ++ codes "}" ∷ codes "}" ∷ []))) }
    ensures spells { spells_stmt_kind result ≡ is_turn_name turn && (spells_expr test && all_of (map spells_stmt body)) }
{
    CStmtKind::Loop(turn, test, body)
}

pub fn stop() -> CStmtKind
    ensures tokens { stmt_kind_tokens result ≡ codes "break" ∷ codes ";" ∷ [] }
    ensures spells { spells_stmt_kind result ≡ true }
{
    CStmtKind::Break
}

pub fn give(value: Option<Box<CExpr>>) -> CStmtKind
    ensures tokens { stmt_kind_tokens result ≡ codes "return" ∷ (result_tokens value ++ codes ";" ∷ []) }
    ensures spells { spells_stmt_kind result ≡ spells_result value }
{
    CStmtKind::Return(value)
}
