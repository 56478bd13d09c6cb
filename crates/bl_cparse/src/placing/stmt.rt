//! Places of statements.

ghost use Rattle.std.specs.Prelude.{◌≡◌, ℕ, List, [], ◌∷◌, ◌++◌, codes, map, option_map};
ghost use Rattle.bl_ctext.specs.Spelling.{expr_tokens, result_tokens, stmt_kind_tokens, stmt_tokens, turn_counted, turn_declared, zeros_tokens};
ghost use Rattle.bl_ctext.specs.Spellable.{spells_expr, spells_result, spells_stmt, spells_stmt_kind};
ghost use Rattle.bl_cparse.specs.HasPlaces.{behind_tokens, expr_walk, if_there, in_turn, made, stmt_kind_walk, stmt_walk};

use crate::placing::expr;
use crate::placing::spot::Spot;
use bl_tree::c::{CExpr, CStmt, CStmtKind};
use bl_tree::{Box, List};

#[cycle(placed_statements)]
pub fn stmts(spot: &mut Spot<'_>, stmts: &mut List<CStmt>)
    ensures places { in_turn (map stmt_walk stmts.new) spot.old ≡ (stmts.new, spot.new) }
    ensures tokens { map stmt_tokens stmts.new ≡ map stmt_tokens stmts.old }
    ensures spells { map spells_stmt stmts.new ≡ map spells_stmt stmts.old }
{
    for k in 0..stmts.len() {
        stmt(spot, stmts.get_mut(k));
    }
}

#[cycle(placed_statements)]
fn stmt(spot: &mut Spot<'_>, stmt: &mut CStmt)
    ensures places { stmt_walk stmt.new spot.old ≡ (stmt.new, spot.new) }
    ensures tokens { stmt_tokens stmt.new ≡ stmt_tokens stmt.old }
    ensures spells { spells_stmt stmt.new ≡ spells_stmt stmt.old }
{
    let start = spot.start();
    kind(spot, &mut stmt.what);
    stmt.place = spot.place_from(start);
}

#[cycle(placed_statements)]
fn kind(spot: &mut Spot<'_>, what: &mut CStmtKind)
    ensures places { stmt_kind_walk what.new spot.old ≡ (what.new, spot.new) }
    ensures tokens { stmt_kind_tokens what.new ≡ stmt_kind_tokens what.old }
    ensures spells { spells_stmt_kind what.new ≡ spells_stmt_kind what.old }
{
    match what {
        CStmtKind::If(test, then_part, else_part) => {
            condition(spot, test);
            inside(spot, then_part);
            if let Some(other) = else_part {
                spot.pass();
                spot.pass();
                inside(spot, other);
            }
        }
        CStmtKind::Loop(_, test, body) => {
            counted(spot, test);
            inside(spot, body);
            spot.pass();
        }
        CStmtKind::Set(at, value) => {
            expr::place(spot, at);
            spot.pass();
            expr::expr(spot, value);
            spot.pass();
        }
        CStmtKind::Clear(at, _) => {
            expr::place(spot, at);
            zeros(spot);
        }
        CStmtKind::Call(call) => {
            expr::call(spot, call);
            spot.pass();
        }
        CStmtKind::Break => {
            spot.pass();
            spot.pass();
        }
        CStmtKind::Return(value) => {
            spot.pass();
            returned(spot, value);
            spot.pass();
        }
    }
}

/// Statements in braces, and the brace behind them.
#[cycle(placed_statements)]
fn inside(spot: &mut Spot<'_>, body: &mut List<CStmt>)
    ensures places { made (λ b. b) (codes "}" ∷ []) (in_turn (map stmt_walk body.new) spot.old) ≡ (body.new, spot.new) }
    ensures tokens { map stmt_tokens body.new ≡ map stmt_tokens body.old }
    ensures spells { map spells_stmt body.new ≡ map spells_stmt body.old }
{
    stmts(spot, body);
    spot.pass();
}

/// The condition of an `if`, with the tokens around it up to the brace.
fn condition(spot: &mut Spot<'_>, test: &mut CExpr)
    ensures places { made (λ t. t) (codes ")" ∷ codes "{" ∷ []) (expr_walk test.new (behind_tokens (codes "if" ∷ codes "(" ∷ []) spot.old))
        ≡ (test.new, spot.new) }
    ensures tokens { expr_tokens test.new ≡ expr_tokens test.old }
    ensures spells { spells_expr test.new ≡ spells_expr test.old }
{
    spot.pass();
    spot.pass();
    expr::expr(spot, test);
    spot.pass();
    spot.pass();
}

/// The condition of a loop, whatever the name of its turns, with the tokens around it up to the first statement.
fn counted(spot: &mut Spot<'_>, test: &mut CExpr)
    ensures places { (turn : List ℕ) → made (λ t. t) (codes ")" ∷ turn_counted turn)
        (expr_walk test.new (behind_tokens (turn_declared turn ++ codes "(" ∷ []) spot.old)) ≡ (test.new, spot.new) }
    ensures tokens { expr_tokens test.new ≡ expr_tokens test.old }
    ensures spells { spells_expr test.new ≡ spells_expr test.old }
{
    turn_front(spot);
    expr::expr(spot, test);
    turn_rest(spot);
}

/// Behind the front of a loop and the parenthesis of its condition.
fn turn_front(spot: &mut Spot<'_>)
    ensures { (turn : List ℕ) → spot.new ≡ behind_tokens (turn_declared turn ++ codes "(" ∷ []) spot.old }
{
    spot.skip(8);
}

/// Behind the parenthesis of a loop's condition and the front of its body.
fn turn_rest(spot: &mut Spot<'_>)
    ensures { (turn : List ℕ) → spot.new ≡ behind_tokens (codes ")" ∷ turn_counted turn) spot.old }
{
    spot.skip(9);
}

/// Behind a struct of zeros that is set to a place, whatever the struct's name.
fn zeros(spot: &mut Spot<'_>)
    ensures { spot.new ≡ behind_tokens (zeros_tokens []) spot.old }
{
    spot.skip(9);
}

/// The value of a `return`, where there is one.
fn returned(spot: &mut Spot<'_>, value: &mut Option<Box<CExpr>>)
    ensures places { if_there (option_map expr_walk value.new) spot.old ≡ (value.new, spot.new) }
    ensures tokens { result_tokens value.new ≡ result_tokens value.old }
    ensures spells { spells_result value.new ≡ spells_result value.old }
{
    if let Some(value) = value {
        expr::expr(spot, value);
    }
}
