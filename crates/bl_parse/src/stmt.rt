//! Statements: a function for each kind.

ghost use Rattle.std.specs.Prelude.{◌≡◌, ◌+◌, ◌<◌, ◌≤◌, [], ◌∷◌, Some, length, IfOk, OnOk, IsTrue};
ghost use Rattle.bl_tree.specs.declared.token.TokenKind.{TokenKind};
ghost use Rattle.bl_parse_syntax.specs.declared.grammar.Part.{Part};
ghost use Rattle.bl_parse_syntax.specs.Grammar.{the};
ghost use Rattle.bl_parse_syntax.specs.Grammar as grammar;
ghost use Rattle.bl_parse.specs.At.{kind_at};
ghost use Rattle.bl_parse.specs.inner.Reading.{just, Awaits, Turns};
ghost use Rattle.bl_parse.specs.Statements.{SpellsBlock, SpellsStmt, SpellsKind, SpellsBranches, SpellsBranch, SpellsWeak, SpellsGuard, SpellsArms};
ghost use Rattle.bl_parse.specs.Statements.{SpellsArm, SpellsElse, begins_stmt, goes_on, leads_stmt, takes_value};

use crate::expr::{read_expr, read_inputs, target_of};
use crate::name::name;
use crate::operator::begins_expr;
use crate::parts::{constant, initial, maybe_typing, outputs, start_of_run, typing, value};
use crate::source::Source;
use bl_lex::sign;
use bl_parse_tree::stmt::{RawArm, RawBranch, RawStmt, RawStmtKind};
use bl_tree::token::{Keyword, Token, TokenKind};
use bl_tree::tree::Guard;
use bl_tree::{List, NoMemory};

/// Reads statements, as many as there are.
#[cycle(statements)]
pub fn block(source: &Source, at: &mut usize) -> Result<List<RawStmt>, NoMemory>
    requires awaits { Awaits (just Part.Block) source.now.tokens.now at.old }
    ensures spelled { IfOk result (λ body. SpellsBlock source.now.text.now source.now.tokens.now body at.old at.new) }
    ensures follows { OnOk result (Turns (just Part.Block) source.now.tokens.now at.old [] at.new) }
    ensures ahead { OnOk result (at.old ≤ at.new) }
{
    let mut body = List::new(source.alloc);
    'statements: while begins_stmt(source, *at) {
        body.push(stmt(source, at)?)?;
    }
    Ok(body)
}

/// Whether a statement may begin with the token at the position.
fn begins_stmt(source: &Source, at: usize) -> bool
    ensures among { result ≡ begins_stmt (kind_at source.now.tokens.now at) }
    ensures inside { IsTrue result → at < length source.now.tokens.now }
{
    match source.kind_at(at) {
        Some(TokenKind::Name) => true,
        Some(TokenKind::Word(k)) => leads_stmt(k),
        Some(TokenKind::Number(_) | TokenKind::Sign(_)) | None => false,
    }
}

/// Whether a statement may begin with the keyword.
fn leads_stmt(k: Keyword) -> bool
    ensures { result ≡ leads_stmt k }
{
    match k {
        Keyword::Var
        | Keyword::Let
        | Keyword::Const
        | Keyword::Await
        | Keyword::Run
        | Keyword::Cobegin
        | Keyword::When
        | Keyword::Repeat
        | Keyword::While
        | Keyword::If
        | Keyword::Return => true,
        Keyword::Function
        | Keyword::Activity
        | Keyword::Returns
        | Keyword::Struct
        | Keyword::Then
        | Keyword::Elseif
        | Keyword::Else
        | Keyword::End
        | Keyword::Weak
        | Keyword::With
        | Keyword::Abort
        | Keyword::Reset
        | Keyword::Until
        | Keyword::Prev
        | Keyword::As
        | Keyword::Not
        | Keyword::And
        | Keyword::Or
        | Keyword::True
        | Keyword::False
        | Keyword::Bool
        | Keyword::Int8
        | Keyword::Int16
        | Keyword::Int32
        | Keyword::Int64
        | Keyword::Nat8
        | Keyword::Nat16
        | Keyword::Nat32
        | Keyword::Nat64
        | Keyword::Bits8
        | Keyword::Bits16
        | Keyword::Bits32
        | Keyword::Bits64 => false,
    }
}

#[cycle(statements)]
fn stmt(source: &Source, at: &mut usize) -> Result<RawStmt, NoMemory>
    requires awaits { Awaits (just Part.Stmt) source.now.tokens.now at.old }
    ensures spelled { IfOk result (λ s. SpellsStmt source.now.text.now source.now.tokens.now s at.old at.new) }
    ensures follows { OnOk result (Turns (just Part.Stmt) source.now.tokens.now at.old [] at.new) }
    ensures ahead { OnOk result (at.old < at.new) }
{
    let from = *at;
    let what = kind(source, at)?;
    Ok(RawStmt {
        place: source.span(from, *at),
        what,
    })
}

#[cycle(statements)]
fn kind(source: &Source, at: &mut usize) -> Result<RawStmtKind, NoMemory>
    requires awaits { Awaits (just Part.Stmt) source.now.tokens.now at.old }
    ensures spelled { IfOk result (λ what. SpellsKind source.now.text.now source.now.tokens.now what at.old at.new) }
    ensures follows { OnOk result (Turns (just Part.Stmt) source.now.tokens.now at.old [] at.new) }
    ensures ahead { OnOk result (at.old < at.new) }
{
    match source.kind_at(*at) {
        Some(TokenKind::Name) => named(source, at),
        Some(TokenKind::Word(k)) => led(source, at, k),
        Some(TokenKind::Number(_)) => unreachable!(),
        Some(TokenKind::Sign(_)) => unreachable!(),
        None => unreachable!(),
    }
}

/// A statement that begins with this keyword.
#[cycle(statements)]
fn led(source: &Source, at: &mut usize, k: Keyword) -> Result<RawStmtKind, NoMemory>
    requires awaits { Awaits (just Part.Stmt) source.now.tokens.now at.old }
    requires stands { kind_at source.now.tokens.now at.old ≡ Some (TokenKind.Word k) }
    ensures spelled { IfOk result (λ what. SpellsKind source.now.text.now source.now.tokens.now what at.old at.new) }
    ensures follows { OnOk result (Turns (just Part.Stmt) source.now.tokens.now at.old [] at.new) }
    ensures ahead { OnOk result (at.old < at.new) }
{
    if k == Keyword::Var {
        variable(source, at)
    } else if k == Keyword::Let {
        fixed(source, at)
    } else if k == Keyword::Const {
        local_constant(source, at)
    } else if k == Keyword::Await {
        awaiting(source, at)
    } else if k == Keyword::Run {
        run(source, at)
    } else if k == Keyword::Cobegin {
        cobegin(source, at)
    } else if k == Keyword::When {
        guarded(source, at)
    } else if k == Keyword::Repeat {
        repeat(source, at)
    } else if k == Keyword::While {
        while_loop(source, at)
    } else if k == Keyword::If {
        branching(source, at)
    } else {
        returning(source, at)
    }
}

fn variable(source: &Source, at: &mut usize) -> Result<RawStmtKind, NoMemory>
    requires awaits { Awaits (just Part.Stmt) source.now.tokens.now at.old }
    requires stands { kind_at source.now.tokens.now at.old ≡ Some (TokenKind.Word Keyword.Var) }
    ensures spelled { IfOk result (λ what. SpellsKind source.now.text.now source.now.tokens.now what at.old at.new) }
    ensures follows { OnOk result (Turns (just Part.Stmt) source.now.tokens.now at.old [] at.new) }
    ensures ahead { OnOk result (at.old < at.new) }
{
    source.take(at, TokenKind::Word(Keyword::Var));
    let name = name(source, at)?;
    if source.stands(*at, TokenKind::Sign(sign::COLON)) {
        let ty = typing(source, at)?;
        let initial = initial(source, at)?;
        Ok(RawStmtKind::Var(name, Some(ty), initial))
    } else {
        let value = value(source, at)?;
        Ok(RawStmtKind::Var(name, None, Some(value)))
    }
}

fn fixed(source: &Source, at: &mut usize) -> Result<RawStmtKind, NoMemory>
    requires awaits { Awaits (just Part.Stmt) source.now.tokens.now at.old }
    requires stands { kind_at source.now.tokens.now at.old ≡ Some (TokenKind.Word Keyword.Let) }
    ensures spelled { IfOk result (λ what. SpellsKind source.now.text.now source.now.tokens.now what at.old at.new) }
    ensures follows { OnOk result (Turns (just Part.Stmt) source.now.tokens.now at.old [] at.new) }
    ensures ahead { OnOk result (at.old < at.new) }
{
    source.take(at, TokenKind::Word(Keyword::Let));
    let name = name(source, at)?;
    let ty = maybe_typing(source, at)?;
    let value = value(source, at)?;
    Ok(RawStmtKind::Let(name, ty, value))
}

fn local_constant(source: &Source, at: &mut usize) -> Result<RawStmtKind, NoMemory>
    requires awaits { Awaits (just Part.Stmt) source.now.tokens.now at.old }
    requires stands { kind_at source.now.tokens.now at.old ≡ Some (TokenKind.Word Keyword.Const) }
    ensures spelled { IfOk result (λ what. SpellsKind source.now.text.now source.now.tokens.now what at.old at.new) }
    ensures follows { OnOk result (Turns (just Part.Stmt) source.now.tokens.now at.old [] at.new) }
    ensures ahead { OnOk result (at.old < at.new) }
{
    let constant = constant(source, at)?;
    Ok(RawStmtKind::Const(constant))
}

/// A call or an assignment.
fn named(source: &Source, at: &mut usize) -> Result<RawStmtKind, NoMemory>
    requires awaits { Awaits (just Part.Stmt) source.now.tokens.now at.old }
    requires stands { kind_at source.now.tokens.now at.old ≡ Some (TokenKind.Name) }
    ensures spelled { IfOk result (λ what. SpellsKind source.now.text.now source.now.tokens.now what at.old at.new) }
    ensures follows { OnOk result (Turns (just Part.Stmt) source.now.tokens.now at.old [] at.new) }
    ensures ahead { OnOk result (at.old < at.new) }
{
    let from = *at;
    let root = name(source, at)?;
    if source.stands(*at, TokenKind::Sign(sign::OPEN_PAREN)) {
        let inputs = read_inputs(source, at)?;
        let outputs = outputs(source, at)?;
        Ok(RawStmtKind::Call(root, inputs, outputs))
    } else {
        let target = target_of(source, at, from, root)?;
        let value = value(source, at)?;
        Ok(RawStmtKind::Assign(target, value))
    }
}

fn awaiting(source: &Source, at: &mut usize) -> Result<RawStmtKind, NoMemory>
    requires awaits { Awaits (just Part.Stmt) source.now.tokens.now at.old }
    requires stands { kind_at source.now.tokens.now at.old ≡ Some (TokenKind.Word Keyword.Await) }
    ensures spelled { IfOk result (λ what. SpellsKind source.now.text.now source.now.tokens.now what at.old at.new) }
    ensures follows { OnOk result (Turns (just Part.Stmt) source.now.tokens.now at.old [] at.new) }
    ensures ahead { OnOk result (at.old < at.new) }
{
    source.take(at, TokenKind::Word(Keyword::Await));
    let e = read_expr(source, at)?;
    Ok(RawStmtKind::Await(e))
}

fn run(source: &Source, at: &mut usize) -> Result<RawStmtKind, NoMemory>
    requires awaits { Awaits (just Part.Stmt) source.now.tokens.now at.old }
    requires stands { kind_at source.now.tokens.now at.old ≡ Some (TokenKind.Word Keyword.Run) }
    ensures spelled { IfOk result (λ what. SpellsKind source.now.text.now source.now.tokens.now what at.old at.new) }
    ensures follows { OnOk result (Turns (just Part.Stmt) source.now.tokens.now at.old [] at.new) }
    ensures ahead { OnOk result (at.old < at.new) }
{
    source.take(at, TokenKind::Word(Keyword::Run));
    let started = start_of_run(source, at)?;
    let inputs = read_inputs(source, at)?;
    let outputs = outputs(source, at)?;
    Ok(RawStmtKind::Run(started.receiver, started.activity, inputs, outputs))
}

fn returning(source: &Source, at: &mut usize) -> Result<RawStmtKind, NoMemory>
    requires awaits { Awaits (just Part.Stmt) source.now.tokens.now at.old }
    requires stands { kind_at source.now.tokens.now at.old ≡ Some (TokenKind.Word Keyword.Return) }
    ensures spelled { IfOk result (λ what. SpellsKind source.now.text.now source.now.tokens.now what at.old at.new) }
    ensures follows { OnOk result (Turns (just Part.Stmt) source.now.tokens.now at.old [] at.new) }
    ensures ahead { OnOk result (at.old < at.new) }
{
    if takes_value(source, *at) {
        source.take(at, TokenKind::Word(Keyword::Return));
        let e = read_expr(source, at)?;
        Ok(RawStmtKind::Return(Some(e)))
    } else {
        source.take(at, TokenKind::Word(Keyword::Return));
        Ok(RawStmtKind::Return(None))
    }
}

/// Whether the token behind the position is on the line of that there, and an expression may begin with it.
fn takes_value(source: &Source, at: usize) -> bool
    ensures { result ≡ takes_value source.now.tokens.now at }
{
    match source.token_at(at) {
        Some(first) => goes_on(first, source.token_at(at + 1)),
        None => false,
    }
}

/// Whether the next token is on the line of the first, and an expression may begin with it.
fn goes_on(first: Token, next: Option<Token>) -> bool
    ensures { result ≡ goes_on (Some first) next }
{
    match next {
        Some(second) => first.line == second.line && begins_expr(second.kind),
        None => false,
    }
}

#[cycle(statements)]
fn cobegin(source: &Source, at: &mut usize) -> Result<RawStmtKind, NoMemory>
    requires awaits { Awaits (just Part.Stmt) source.now.tokens.now at.old }
    requires stands { kind_at source.now.tokens.now at.old ≡ Some (TokenKind.Word Keyword.Cobegin) }
    ensures spelled { IfOk result (λ what. SpellsKind source.now.text.now source.now.tokens.now what at.old at.new) }
    ensures follows { OnOk result (Turns (just Part.Stmt) source.now.tokens.now at.old [] at.new) }
    ensures ahead { OnOk result (at.old < at.new) }
{
    source.take(at, TokenKind::Word(Keyword::Cobegin));
    let branches = branches(source, at)?;
    source.take(at, TokenKind::Word(Keyword::End));
    Ok(RawStmtKind::Cobegin(branches))
}

#[cycle(statements)]
fn branches(source: &Source, at: &mut usize) -> Result<List<RawBranch>, NoMemory>
    requires awaits { Awaits (the Part.Weak ∷ the Part.Block ∷ the Part.Branches ∷ []) source.now.tokens.now at.old }
    ensures spelled { IfOk result (λ branches. SpellsBranches source.now.text.now source.now.tokens.now branches at.old at.new) }
    ensures follows { OnOk result (Turns (the Part.Weak ∷ the Part.Block ∷ the Part.Branches ∷ []) source.now.tokens.now at.old [] at.new) }
    ensures ahead { OnOk result (at.old ≤ at.new) }
{
    let mut branches = List::new(source.alloc);
    branches.push(branch(source, at)?)?;
    'withs: while source.stands(*at, TokenKind::Word(Keyword::With)) {
        source.take(at, TokenKind::Word(Keyword::With));
        branches.push(branch(source, at)?)?;
    }
    Ok(branches)
}

#[cycle(statements)]
fn branch(source: &Source, at: &mut usize) -> Result<RawBranch, NoMemory>
    requires awaits { Awaits (the Part.Weak ∷ the Part.Block ∷ []) source.now.tokens.now at.old }
    ensures spelled { IfOk result (λ branch. SpellsBranch source.now.text.now source.now.tokens.now branch at.old at.new) }
    ensures follows { OnOk result (Turns (the Part.Weak ∷ the Part.Block ∷ []) source.now.tokens.now at.old [] at.new) }
    ensures ahead { OnOk result (at.old ≤ at.new) }
{
    let weak = weak(source, at)?;
    let body = block(source, at)?;
    Ok(RawBranch { weak, body })
}

/// Passes a `weak`, where one stands.
fn weak(source: &Source, at: &mut usize) -> Result<bool, NoMemory>
    requires awaits { Awaits (just Part.Weak) source.now.tokens.now at.old }
    ensures spelled { IfOk result (λ weak. SpellsWeak source.now.tokens.now weak at.old at.new) }
    ensures follows { OnOk result (Turns (just Part.Weak) source.now.tokens.now at.old [] at.new) }
    ensures ahead { OnOk result (at.old ≤ at.new) }
{
    if source.stands(*at, TokenKind::Word(Keyword::Weak)) {
        source.take(at, TokenKind::Word(Keyword::Weak));
        Ok(true)
    } else {
        Ok(false)
    }
}

#[cycle(statements)]
fn guarded(source: &Source, at: &mut usize) -> Result<RawStmtKind, NoMemory>
    requires awaits { Awaits (just Part.Stmt) source.now.tokens.now at.old }
    requires stands { kind_at source.now.tokens.now at.old ≡ Some (TokenKind.Word Keyword.When) }
    ensures spelled { IfOk result (λ what. SpellsKind source.now.text.now source.now.tokens.now what at.old at.new) }
    ensures follows { OnOk result (Turns (just Part.Stmt) source.now.tokens.now at.old [] at.new) }
    ensures ahead { OnOk result (at.old < at.new) }
{
    source.take(at, TokenKind::Word(Keyword::When));
    let test = read_expr(source, at)?;
    let guard = guard(source, at)?;
    let body = block(source, at)?;
    source.take(at, TokenKind::Word(Keyword::End));
    Ok(RawStmtKind::When(guard, test, body))
}

fn guard(source: &Source, at: &mut usize) -> Result<Guard, NoMemory>
    requires awaits { Awaits (just Part.Guard) source.now.tokens.now at.old }
    ensures spelled { IfOk result (λ guard. SpellsGuard source.now.tokens.now guard at.old at.new) }
    ensures follows { OnOk result (Turns (just Part.Guard) source.now.tokens.now at.old [] at.new) }
    ensures ahead { OnOk result (at.old < at.new) }
{
    if source.stands(*at, TokenKind::Word(Keyword::Abort)) {
        source.take(at, TokenKind::Word(Keyword::Abort));
        Ok(Guard::Abort)
    } else {
        source.take(at, TokenKind::Word(Keyword::Reset));
        Ok(Guard::Reset)
    }
}

#[cycle(statements)]
fn repeat(source: &Source, at: &mut usize) -> Result<RawStmtKind, NoMemory>
    requires awaits { Awaits (just Part.Stmt) source.now.tokens.now at.old }
    requires stands { kind_at source.now.tokens.now at.old ≡ Some (TokenKind.Word Keyword.Repeat) }
    ensures spelled { IfOk result (λ what. SpellsKind source.now.text.now source.now.tokens.now what at.old at.new) }
    ensures follows { OnOk result (Turns (just Part.Stmt) source.now.tokens.now at.old [] at.new) }
    ensures ahead { OnOk result (at.old < at.new) }
{
    source.take(at, TokenKind::Word(Keyword::Repeat));
    let body = block(source, at)?;
    if source.stands(*at, TokenKind::Word(Keyword::Until)) {
        source.take(at, TokenKind::Word(Keyword::Until));
        let test = read_expr(source, at)?;
        source.take(at, TokenKind::Word(Keyword::End));
        Ok(RawStmtKind::Until(body, test))
    } else {
        source.take(at, TokenKind::Word(Keyword::End));
        Ok(RawStmtKind::Repeat(body))
    }
}

#[cycle(statements)]
fn while_loop(source: &Source, at: &mut usize) -> Result<RawStmtKind, NoMemory>
    requires awaits { Awaits (just Part.Stmt) source.now.tokens.now at.old }
    requires stands { kind_at source.now.tokens.now at.old ≡ Some (TokenKind.Word Keyword.While) }
    ensures spelled { IfOk result (λ what. SpellsKind source.now.text.now source.now.tokens.now what at.old at.new) }
    ensures follows { OnOk result (Turns (just Part.Stmt) source.now.tokens.now at.old [] at.new) }
    ensures ahead { OnOk result (at.old < at.new) }
{
    source.take(at, TokenKind::Word(Keyword::While));
    let test = read_expr(source, at)?;
    source.take(at, TokenKind::Word(Keyword::Repeat));
    let body = block(source, at)?;
    source.take(at, TokenKind::Word(Keyword::End));
    Ok(RawStmtKind::While(test, body))
}

#[cycle(statements)]
fn branching(source: &Source, at: &mut usize) -> Result<RawStmtKind, NoMemory>
    requires awaits { Awaits (just Part.Stmt) source.now.tokens.now at.old }
    requires stands { kind_at source.now.tokens.now at.old ≡ Some (TokenKind.Word Keyword.If) }
    ensures spelled { IfOk result (λ what. SpellsKind source.now.text.now source.now.tokens.now what at.old at.new) }
    ensures follows { OnOk result (Turns (just Part.Stmt) source.now.tokens.now at.old [] at.new) }
    ensures ahead { OnOk result (at.old < at.new) }
{
    let arms = arms(source, at)?;
    let other = otherwise(source, at)?;
    source.take(at, TokenKind::Word(Keyword::End));
    Ok(RawStmtKind::If(arms, other))
}

#[cycle(statements)]
fn arms(source: &Source, at: &mut usize) -> Result<List<RawArm>, NoMemory>
    requires awaits { Awaits
        (grammar.word Keyword.If ∷ the Part.Expr ∷ grammar.word Keyword.Then ∷ the Part.Block ∷ the Part.Elseifs ∷ []) source.now.tokens.now at.old }
    ensures spelled { IfOk result (λ arms. SpellsArms source.now.text.now source.now.tokens.now arms at.old at.new) }
    ensures follows { OnOk result
        (Turns (grammar.word Keyword.If ∷ the Part.Expr ∷ grammar.word Keyword.Then ∷ the Part.Block ∷ the Part.Elseifs ∷ []) source.now.tokens.now
        at.old [] at.new) }
    ensures ahead { OnOk result (at.old < at.new) }
{
    let mut arms = List::new(source.alloc);
    arms.push(arm(source, at, Keyword::If)?)?;
    'elseifs: while source.stands(*at, TokenKind::Word(Keyword::Elseif)) {
        arms.push(arm(source, at, Keyword::Elseif)?)?;
    }
    Ok(arms)
}

/// An arm that this word heads.
#[cycle(statements)]
fn arm(source: &Source, at: &mut usize, head: Keyword) -> Result<RawArm, NoMemory>
    requires awaits { Awaits (grammar.word head ∷ the Part.Expr ∷ grammar.word Keyword.Then ∷ the Part.Block ∷ []) source.now.tokens.now at.old }
    ensures spelled { IfOk result (λ arm. SpellsArm source.now.text.now source.now.tokens.now head arm at.old at.new) }
    ensures follows { OnOk result
        (Turns (grammar.word head ∷ the Part.Expr ∷ grammar.word Keyword.Then ∷ the Part.Block ∷ []) source.now.tokens.now at.old [] at.new) }
    ensures ahead { OnOk result (at.old < at.new) }
{
    source.take(at, TokenKind::Word(head));
    let test = read_expr(source, at)?;
    source.take(at, TokenKind::Word(Keyword::Then));
    let body = block(source, at)?;
    Ok(RawArm { test, body })
}

#[cycle(statements)]
fn otherwise(source: &Source, at: &mut usize) -> Result<List<RawStmt>, NoMemory>
    requires awaits { Awaits (just Part.Else) source.now.tokens.now at.old }
    ensures spelled { IfOk result (λ other. SpellsElse source.now.text.now source.now.tokens.now other at.old at.new) }
    ensures follows { OnOk result (Turns (just Part.Else) source.now.tokens.now at.old [] at.new) }
    ensures ahead { OnOk result (at.old ≤ at.new) }
{
    if source.stands(*at, TokenKind::Word(Keyword::Else)) {
        source.take(at, TokenKind::Word(Keyword::Else));
        let body = block(source, at)?;
        Ok(body)
    } else {
        Ok(List::new(source.alloc))
    }
}
