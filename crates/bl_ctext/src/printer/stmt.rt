//! Statements, one a line.

ghost use Rattle.std.specs.Prelude.{◌≡◌, [], ◌∷◌, ◌++◌, map, codes, IsTrue, OnOk};
ghost use Rattle.bl_tree.specs.Reduce.{all_of, joined};
ghost use Rattle.bl_ctext.specs.Names.{is_struct_name, is_turn_name};
ghost use Rattle.bl_ctext.specs.Spelling.{expr_tokens, place_tokens, stmt_tokens, result_tokens, zeros_tokens};
ghost use Rattle.bl_ctext.specs.Spelling.{turn_declared};
ghost use Rattle.bl_ctext.specs.Spellable.{spells_expr, spells_place, spells_stmt, spells_result};

use crate::printer::{expr, name};
use crate::writer::Writer;
use bl_tree::c::{CExpr, CPlace, CStmt, CStmtKind};
use bl_tree::{Box, List, NoMemory, Text};

/// Each statement on lines of its own, inside so many blocks.
#[cycle(statements)]
pub fn stmts(out: &mut Writer, body: &List<CStmt>, level: u8) -> Result<(), NoMemory>
    requires { IsTrue (all_of (map spells_stmt body.now)) }
    ensures { OnOk result (out.new ≡ out.old ++ joined (map stmt_tokens body.now)) }
{
    for s in body.iter() {
        out.line(level)?;
        stmt(out, s, level)?;
    }
    Ok(())
}

#[cycle(statements)]
fn stmt(out: &mut Writer, s: &CStmt, level: u8) -> Result<(), NoMemory>
    requires { IsTrue (spells_stmt s.now) }
    ensures { OnOk result (out.new ≡ out.old ++ stmt_tokens s.now) }
{
    match &s.what {
        CStmtKind::Set(at, value) => set(out, at, value),
        CStmtKind::Clear(at, of) => clear(out, at, of),
        CStmtKind::Call(called) => {
            expr::call(out, called)?;
            out.byte(b';')
        }
        CStmtKind::If(test, then_part, else_part) => {
            out.write("if (")?;
            condition(out, test)?;
            block(out, then_part, level)?;
            match else_part {
                Some(part) => otherwise(out, part, level),
                None => Ok(()),
            }
        }
        CStmtKind::Loop(turn, test, body) => {
            declare_turn(out, turn, level)?;
            condition(out, test)?;
            let inside = level.saturating_add(2);
            count_turn(out, turn.as_str(), inside)?;
            stmts(out, body, inside)?;
            close_loop(out, level)
        }
        CStmtKind::Break => out.write("break;"),
        CStmtKind::Return(value) => returned(out, value),
    }
}

/// The other block of an `if`. Where it is one `if` alone, that goes on in the same line, and its `}` stands behind the other one's.
#[cycle(statements)]
fn otherwise(out: &mut Writer, body: &List<CStmt>, level: u8) -> Result<(), NoMemory>
    requires { IsTrue (all_of (map spells_stmt body.now)) }
    ensures { OnOk result (out.new ≡ out.old ++ codes "else" ∷ codes "{" ∷ (joined (map stmt_tokens body.now) ++ codes "}" ∷ [])) }
{
    if is_chained(body) {
        out.piece(" else { ")?;
        chained(out, body, level)?;
        out.byte(b'}')
    } else {
        out.piece(" else {")?;
        block(out, body, level)
    }
}

/// The statements, in one line as far as they have none of their own.
#[cycle(statements)]
fn chained(out: &mut Writer, body: &List<CStmt>, level: u8) -> Result<(), NoMemory>
    requires { IsTrue (all_of (map spells_stmt body.now)) }
    ensures { OnOk result (out.new ≡ out.old ++ joined (map stmt_tokens body.now)) }
{
    for s in body.iter() {
        stmt(out, s, level)?;
    }
    Ok(())
}

/// Whether a block is one `if` alone.
fn is_chained(body: &List<CStmt>) -> bool {
    match body.as_slice() {
        [only] => matches!(only.what, CStmtKind::If(_, _, _)),
        _ => false,
    }
}

/// The statements of a block behind its `{`, up to its `}`.
#[cycle(statements)]
fn block(out: &mut Writer, body: &List<CStmt>, level: u8) -> Result<(), NoMemory>
    requires { IsTrue (all_of (map spells_stmt body.now)) }
    ensures { OnOk result (out.new ≡ out.old ++ (joined (map stmt_tokens body.now) ++ codes "}" ∷ [])) }
{
    stmts(out, body, level.saturating_add(1))?;
    out.line(level)?;
    out.byte(b'}')
}

fn set(out: &mut Writer, at: &CPlace, value: &CExpr) -> Result<(), NoMemory>
    requires at { IsTrue (spells_place at.now) }
    requires value { IsTrue (spells_expr value.now) }
    ensures { OnOk result (out.new ≡ out.old ++ (place_tokens at.now ++ (codes "=" ∷ (expr_tokens value.now ++ codes ";" ∷ [])))) }
{
    expr::place(out, at)?;
    out.piece(" = ")?;
    expr::expr(out, value)?;
    out.byte(b';')
}

fn clear(out: &mut Writer, at: &CPlace, of: &Text) -> Result<(), NoMemory>
    requires at { IsTrue (spells_place at.now) }
    requires of { IsTrue (is_struct_name of.now) }
    ensures { OnOk result (out.new ≡ out.old ++ (place_tokens at.now ++ zeros_tokens of.now)) }
{
    expr::place(out, at)?;
    out.piece(" = (struct ")?;
    name::struct_name(out, of.as_str())?;
    out.piece("){0};")
}

/// A condition behind its `(`, and the `{` of what it guards.
fn condition(out: &mut Writer, test: &CExpr) -> Result<(), NoMemory>
    requires { IsTrue (spells_expr test.now) }
    ensures { OnOk result (out.new ≡ out.old ++ (expr_tokens test.now ++ codes ")" ∷ codes "{" ∷ [])) }
{
    expr::expr(out, test)?;
    out.piece(") {")
}

/// A loop up to the `(` of its condition.
fn declare_turn(out: &mut Writer, turn: &Text, level: u8) -> Result<(), NoMemory>
    requires { IsTrue (is_turn_name turn.now) }
    ensures { OnOk result (out.new ≡ out.old ++ (turn_declared turn.now ++ codes "(" ∷ [])) }
{
    out.byte(b'{')?;
    first_turn(out, turn.as_str(), level.saturating_add(1))?;
    out.line(level.saturating_add(1))?;
    out.write("while (")
}

fn first_turn(out: &mut Writer, turn: &str, level: u8) -> Result<(), NoMemory>
    requires { IsTrue (is_turn_name turn.now) }
    ensures { OnOk result (out.new ≡ out.old ++ codes "uint32_t" ∷ turn.now ∷ codes "=" ∷ codes "0" ∷ codes ";" ∷ []) }
{
    out.line(level)?;
    out.write("uint32_t ")?;
    name::turn_name(out, turn)?;
    out.piece(" = 0;")
}

fn count_turn(out: &mut Writer, turn: &str, level: u8) -> Result<(), NoMemory>
    requires { IsTrue (is_turn_name turn.now) }
    ensures { OnOk result (out.new ≡ out.old ++ turn.now ∷ codes "=" ∷ codes "bl_turn" ∷ codes "(" ∷ turn.now ∷ codes ")" ∷ codes ";" ∷ []) }
{
    out.line(level)?;
    name::turn_name(out, turn)?;
    out.piece(" = bl_turn(")?;
    name::turn_name(out, turn)?;
    out.piece(");")
}

fn close_loop(out: &mut Writer, level: u8) -> Result<(), NoMemory>
    ensures { OnOk result (out.new ≡ out.old ++ codes "}" ∷ codes "}" ∷ []) }
{
    out.line(level.saturating_add(1))?;
    out.byte(b'}')?;
    out.line(level)?;
    out.byte(b'}')
}

fn returned(out: &mut Writer, value: &Option<Box<CExpr>>) -> Result<(), NoMemory>
    requires { IsTrue (spells_result value.now) }
    ensures { OnOk result (out.new ≡ out.old ++ codes "return" ∷ (result_tokens value.now ++ codes ";" ∷ [])) }
{
    match value {
        Some(e) => {
            out.write("return ")?;
            expr::expr(out, e)?;
            out.byte(b';')
        }
        None => out.write("return;"),
    }
}
