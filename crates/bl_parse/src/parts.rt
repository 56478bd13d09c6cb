//! Parts of statements that hold no statement.

ghost use Rattle.std.specs.Prelude.{◌≡◌, ◌+◌, ◌<◌, ◌≤◌, [], ◌∷◌, false, IfOk, OnOk};
ghost use Rattle.bl_lex.specs.declared.sign.TheConstants.{ASSIGN, COLON, DOT};
ghost use Rattle.bl_parse_syntax.specs.declared.grammar.Class.{Class};
ghost use Rattle.bl_parse_syntax.specs.declared.grammar.Part.{Part};
ghost use Rattle.bl_parse_syntax.specs.Grammar.{the};
ghost use Rattle.bl_parse_syntax.specs.Grammar as grammar;
ghost use Rattle.bl_parse.specs.At.{kind_at};
ghost use Rattle.bl_parse.specs.inner.Reading.{next_among, just, Awaits, AwaitsFields, KeepsFields, NoneNext, Turns};
ghost use Rattle.bl_parse.specs.Statements.{SpellsTyping, SpellsMaybeTyping, SpellsValue, SpellsInitial, SpellsConstant, SpellsFields, SpellsPath};
ghost use Rattle.bl_parse.specs.Statements.{SpellsPaths, SpellsOutputs};
ghost use Rattle.bl_parse.specs.inner.Steps.{SpellsStarted};

use crate::expr::read_expr;
use crate::name::name;
use crate::source::Source;
use crate::types::read_type;
use bl_lex::sign;
use bl_parse_tree::expr::RawExpr;
use bl_parse_tree::name::Name;
use bl_parse_tree::stmt::{RawConstant, RawPath};
use bl_parse_tree::types::RawType;
use bl_tree::token::{Keyword, TokenKind};
use bl_tree::{List, NoMemory};

/// Reads `:` and a type.
pub fn typing(source: &Source, at: &mut usize) -> Result<RawType, NoMemory>
    requires awaits { Awaits (grammar.sign COLON ∷ the Part.Ty ∷ []) source.now.tokens.now at.old }
    ensures spelled { IfOk result (λ ty. SpellsTyping source.now.text.now source.now.tokens.now ty at.old at.new) }
    ensures follows { OnOk result (Turns (grammar.sign COLON ∷ the Part.Ty ∷ []) source.now.tokens.now at.old [] at.new) }
    ensures ahead { OnOk result (at.old < at.new) }
{
    source.take(at, TokenKind::Sign(sign::COLON));
    let ty = read_type(source, at)?;
    Ok(ty)
}

/// Reads `:` and a type, where a `:` stands.
pub fn maybe_typing(source: &Source, at: &mut usize) -> Result<Option<RawType>, NoMemory>
    requires awaits { Awaits (just Part.TypeMark) source.now.tokens.now at.old }
    ensures spelled { IfOk result (λ ty. SpellsMaybeTyping source.now.text.now source.now.tokens.now ty at.old at.new) }
    ensures follows { OnOk result (Turns (just Part.TypeMark) source.now.tokens.now at.old [] at.new) }
    ensures ahead { OnOk result (at.old ≤ at.new) }
{
    if source.stands(*at, TokenKind::Sign(sign::COLON)) {
        let ty = typing(source, at)?;
        Ok(Some(ty))
    } else {
        Ok(None)
    }
}

/// Reads `=` and an expression.
pub fn value(source: &Source, at: &mut usize) -> Result<RawExpr, NoMemory>
    requires awaits { Awaits (grammar.sign ASSIGN ∷ the Part.Expr ∷ []) source.now.tokens.now at.old }
    ensures spelled { IfOk result (λ e. SpellsValue source.now.text.now source.now.tokens.now e at.old at.new) }
    ensures follows { OnOk result (Turns (grammar.sign ASSIGN ∷ the Part.Expr ∷ []) source.now.tokens.now at.old [] at.new) }
    ensures ahead { OnOk result (at.old < at.new) }
{
    source.take(at, TokenKind::Sign(sign::ASSIGN));
    let e = read_expr(source, at)?;
    Ok(e)
}

/// Reads `=` and an expression, where a `=` stands.
pub fn initial(source: &Source, at: &mut usize) -> Result<Option<RawExpr>, NoMemory>
    requires awaits { Awaits (just Part.Initial) source.now.tokens.now at.old }
    ensures spelled { IfOk result (λ initial. SpellsInitial source.now.text.now source.now.tokens.now initial at.old at.new) }
    ensures follows { OnOk result (Turns (just Part.Initial) source.now.tokens.now at.old [] at.new) }
    ensures ahead { OnOk result (at.old ≤ at.new) }
{
    if source.stands(*at, TokenKind::Sign(sign::ASSIGN)) {
        let e = value(source, at)?;
        Ok(Some(e))
    } else {
        Ok(None)
    }
}

/// Reads a `const`.
pub fn constant(source: &Source, at: &mut usize) -> Result<RawConstant, NoMemory>
    requires awaits { Awaits (just Part.Constant) source.now.tokens.now at.old }
    ensures spelled { IfOk result (λ constant. SpellsConstant source.now.text.now source.now.tokens.now constant at.old at.new) }
    ensures follows { OnOk result (Turns (just Part.Constant) source.now.tokens.now at.old [] at.new) }
    ensures ahead { OnOk result (at.old < at.new) }
{
    source.take(at, TokenKind::Word(Keyword::Const));
    let name = name(source, at)?;
    let ty = maybe_typing(source, at)?;
    let value = value(source, at)?;
    Ok(RawConstant { name, ty, value })
}

/// Reads a name and the fields behind it.
fn path(source: &Source, at: &mut usize) -> Result<RawPath, NoMemory>
    requires awaits { Awaits (just Part.Path) source.now.tokens.now at.old }
    ensures spelled { IfOk result (λ path. SpellsPath source.now.text.now source.now.tokens.now path at.old at.new) }
    ensures follows { OnOk result (Turns (just Part.Path) source.now.tokens.now at.old [] at.new) }
    ensures ahead { OnOk result (at.old < at.new) }
{
    let from = *at;
    let root = name(source, at)?;
    let fields = fields(source, at)?;
    Ok(RawPath {
        place: source.span(from, *at),
        root,
        fields,
    })
}

fn fields(source: &Source, at: &mut usize) -> Result<List<Name>, NoMemory>
    requires awaits { AwaitsFields source.now.tokens.now at.old }
    ensures spelled { IfOk result (λ fields. SpellsFields source.now.text.now source.now.tokens.now fields at.old at.new) }
    ensures keeps { OnOk result (KeepsFields source.now.tokens.now at.old at.new) }
    ensures ends { OnOk result (NoneNext (Class.Mark DOT ∷ []) source.now.tokens.now at.new) }
    ensures ahead { OnOk result (at.old ≤ at.new) }
{
    let mut fields = List::new(source.alloc);
    'dots: while source.stands(*at, TokenKind::Sign(sign::DOT)) {
        source.take(at, TokenKind::Sign(sign::DOT));
        fields.push(name(source, at)?)?;
    }
    Ok(fields)
}

/// Reads paths in parentheses, where a parenthesis stands.
pub fn outputs(source: &Source, at: &mut usize) -> Result<List<RawPath>, NoMemory>
    requires awaits { Awaits (just Part.SecondOutputs) source.now.tokens.now at.old }
    ensures spelled { IfOk result (λ outputs. SpellsOutputs source.now.text.now source.now.tokens.now outputs at.old at.new) }
    ensures follows { OnOk result (Turns (just Part.SecondOutputs) source.now.tokens.now at.old [] at.new) }
    ensures ahead { OnOk result (at.old ≤ at.new) }
{
    if source.stands(*at, TokenKind::Sign(sign::OPEN_PAREN)) {
        let outputs = listed_outputs(source, at)?;
        Ok(outputs)
    } else {
        Ok(List::new(source.alloc))
    }
}

/// Reads paths in parentheses.
fn listed_outputs(source: &Source, at: &mut usize) -> Result<List<RawPath>, NoMemory>
    requires awaits { Awaits (just Part.Outputs) source.now.tokens.now at.old }
    ensures spelled { IfOk result (λ outputs. SpellsOutputs source.now.text.now source.now.tokens.now outputs at.old at.new) }
    ensures follows { OnOk result (Turns (just Part.Outputs) source.now.tokens.now at.old [] at.new) }
    ensures ahead { OnOk result (at.old < at.new) }
{
    source.take(at, TokenKind::Sign(sign::OPEN_PAREN));
    if source.stands(*at, TokenKind::Sign(sign::CLOSE_PAREN)) {
        source.take(at, TokenKind::Sign(sign::CLOSE_PAREN));
        Ok(List::new(source.alloc))
    } else {
        let outputs = paths(source, at)?;
        source.take(at, TokenKind::Sign(sign::CLOSE_PAREN));
        Ok(outputs)
    }
}

/// One path or more.
fn paths(source: &Source, at: &mut usize) -> Result<List<RawPath>, NoMemory>
    requires awaits { Awaits (the Part.Path ∷ the Part.OutputRest ∷ []) source.now.tokens.now at.old }
    ensures spelled { IfOk result (λ paths. SpellsPaths source.now.text.now source.now.tokens.now paths at.old at.new) }
    ensures follows { OnOk result (Turns (the Part.Path ∷ the Part.OutputRest ∷ []) source.now.tokens.now at.old [] at.new) }
    ensures ahead { OnOk result (at.old < at.new) }
{
    let mut paths = List::new(source.alloc);
    paths.push(path(source, at)?)?;
    'commas: while source.stands(*at, TokenKind::Sign(sign::COMMA)) {
        source.take(at, TokenKind::Sign(sign::COMMA));
        paths.push(path(source, at)?)?;
    }
    Ok(paths)
}

/// What a `run` has before its inputs: what receives the result, and the activity's name.
#[derive(Drop)]
pub struct Started {
    pub receiver: Option<RawPath>,
    pub activity: Name,
}

/// Reads what stands before the inputs of a `run`.
pub fn start_of_run(source: &Source, at: &mut usize) -> Result<Started, NoMemory>
    requires awaits { Awaits (grammar.name ∷ the Part.RunTail ∷ []) source.now.tokens.now at.old }
    ensures spelled { IfOk result (λ started. SpellsStarted source.now.text.now source.now.tokens.now started at.old at.new) }
    ensures follows { OnOk result (Turns (grammar.name ∷ the Part.RunTail ∷ []) source.now.tokens.now at.old (just Part.CallTail) at.new) }
    ensures ahead { OnOk result (at.old < at.new) }
{
    let from = *at;
    let root = name(source, at)?;
    if source.stands(*at, TokenKind::Sign(sign::OPEN_PAREN)) {
        Ok(Started {
            receiver: None,
            activity: root,
        })
    } else {
        let fields = fields(source, at)?;
        let place = source.span(from, *at);
        source.take(at, TokenKind::Sign(sign::ASSIGN));
        let activity = name(source, at)?;
        Ok(Started {
            receiver: Some(RawPath {
                place,
                root,
                fields,
            }),
            activity,
        })
    }
}
