//! What a file declares: structs, constants and units.

ghost use Rattle.std.specs.Prelude.{◌≡◌, ◌+◌, ◌<◌, ◌≤◌, [], ◌∷◌, length, IfOk, OnOk};
ghost use Rattle.bl_parse_syntax.specs.declared.grammar.Part.{Part};
ghost use Rattle.bl_parse_syntax.specs.Grammar.{the, views};
ghost use Rattle.bl_parse_syntax.specs.Grammar as grammar;
ghost use Rattle.bl_parse_syntax.specs.Expects.{Expects};
ghost use Rattle.bl_parse.specs.inner.Reading.{just, Awaits, Turns};
ghost use Rattle.bl_parse.specs.Programs.{SpellsItems, SpellsItem, SpellsStruct, SpellsFieldList, SpellsField, SpellsUnit, SpellsMark};
ghost use Rattle.bl_parse.specs.Programs.{SpellsUnitKind, SpellsParams, SpellsParamList, SpellsParam, SpellsOutputParams, SpellsResult};

use crate::name::name;
use crate::parts::{constant, typing};
use crate::source::Source;
use crate::stmt::block;
use crate::types::read_type;
use bl_lex::sign;
use bl_parse_tree::item::{RawField, RawItem, RawParam, RawStruct, RawUnit};
use bl_parse_tree::types::RawType;
use bl_tree::token::{Keyword, TokenKind};
use bl_tree::tree::UnitKind;
use bl_tree::{List, NoMemory};

/// Reads all items, up to the last token.
pub fn items(source: &Source) -> Result<List<RawItem>, NoMemory>
    requires program { Expects (just Part.Program) (views source.now.tokens.now) }
    ensures { IfOk result (λ items. SpellsItems source.now.text.now source.now.tokens.now items 0 (length source.now.tokens.now)) }
{
    let mut items = List::new(source.alloc);
    let mut at = 0;
    'items: while at < source.tokens.len() {
        items.push(item(source, &mut at)?)?;
    }
    Ok(items)
}

fn item(source: &Source, at: &mut usize) -> Result<RawItem, NoMemory>
    requires awaits { Awaits (just Part.Item) source.now.tokens.now at.old }
    ensures spelled { IfOk result (λ item. SpellsItem source.now.text.now source.now.tokens.now item at.old at.new) }
    ensures follows { OnOk result (Turns (just Part.Item) source.now.tokens.now at.old [] at.new) }
    ensures ahead { OnOk result (at.old < at.new) }
{
    if source.stands(*at, TokenKind::Word(Keyword::Struct)) {
        Ok(RawItem::Struct(structure(source, at)?))
    } else if source.stands(*at, TokenKind::Word(Keyword::Const)) {
        Ok(RawItem::Constant(constant(source, at)?))
    } else {
        Ok(RawItem::Unit(unit(source, at)?))
    }
}

fn structure(source: &Source, at: &mut usize) -> Result<RawStruct, NoMemory>
    requires awaits { Awaits (just Part.Struct) source.now.tokens.now at.old }
    ensures spelled { IfOk result (λ def. SpellsStruct source.now.text.now source.now.tokens.now def at.old at.new) }
    ensures follows { OnOk result (Turns (just Part.Struct) source.now.tokens.now at.old [] at.new) }
    ensures ahead { OnOk result (at.old < at.new) }
{
    source.take(at, TokenKind::Word(Keyword::Struct));
    let name = name(source, at)?;
    let fields = fields(source, at)?;
    source.take(at, TokenKind::Word(Keyword::End));
    Ok(RawStruct { name, fields })
}

/// One field or more.
fn fields(source: &Source, at: &mut usize) -> Result<List<RawField>, NoMemory>
    requires awaits { Awaits (the Part.Field ∷ the Part.Fields ∷ []) source.now.tokens.now at.old }
    ensures spelled { IfOk result (λ fields. SpellsFieldList source.now.text.now source.now.tokens.now fields at.old at.new) }
    ensures follows { OnOk result (Turns (the Part.Field ∷ the Part.Fields ∷ []) source.now.tokens.now at.old [] at.new) }
    ensures ahead { OnOk result (at.old < at.new) }
{
    let mut fields = List::new(source.alloc);
    fields.push(field(source, at)?)?;
    'vars: while source.stands(*at, TokenKind::Word(Keyword::Var)) {
        fields.push(field(source, at)?)?;
    }
    Ok(fields)
}

fn field(source: &Source, at: &mut usize) -> Result<RawField, NoMemory>
    requires awaits { Awaits (just Part.Field) source.now.tokens.now at.old }
    ensures spelled { IfOk result (λ field. SpellsField source.now.text.now source.now.tokens.now field at.old at.new) }
    ensures follows { OnOk result (Turns (just Part.Field) source.now.tokens.now at.old [] at.new) }
    ensures ahead { OnOk result (at.old < at.new) }
{
    source.take(at, TokenKind::Word(Keyword::Var));
    let name = name(source, at)?;
    let ty = typing(source, at)?;
    Ok(RawField { name, ty })
}

fn unit(source: &Source, at: &mut usize) -> Result<RawUnit, NoMemory>
    requires awaits { Awaits (just Part.Unit) source.now.tokens.now at.old }
    ensures spelled { IfOk result (λ unit. SpellsUnit source.now.text.now source.now.tokens.now unit at.old at.new) }
    ensures follows { OnOk result (Turns (just Part.Unit) source.now.tokens.now at.old [] at.new) }
    ensures ahead { OnOk result (at.old < at.new) }
{
    let entry = mark(source, at)?;
    let kind = unit_kind(source, at)?;
    let name = name(source, at)?;
    let inputs = params(source, at)?;
    let outputs = output_params(source, at)?;
    let result = result_type(source, at)?;
    let body = block(source, at)?;
    source.take(at, TokenKind::Word(Keyword::End));
    Ok(RawUnit {
        entry,
        kind,
        name,
        inputs,
        outputs,
        result,
        body,
    })
}

/// Passes the mark of the entry point, where a `@` stands. Rule Profile refuses every name in it but `EntryPoint`.
fn mark(source: &Source, at: &mut usize) -> Result<bool, NoMemory>
    requires awaits { Awaits (just Part.Unit) source.now.tokens.now at.old }
    ensures spelled { IfOk result (λ entry. SpellsMark source.now.tokens.now entry at.old at.new) }
    ensures follows { OnOk result (Turns (just Part.Unit) source.now.tokens.now at.old (just Part.PlainUnit) at.new) }
    ensures ahead { OnOk result (at.old ≤ at.new) }
{
    if source.stands(*at, TokenKind::Sign(sign::AT)) {
        source.take(at, TokenKind::Sign(sign::AT));
        source.take(at, TokenKind::Sign(sign::OPEN_BRACKET));
        source.take(at, TokenKind::Name);
        source.take(at, TokenKind::Sign(sign::CLOSE_BRACKET));
        Ok(true)
    } else {
        Ok(false)
    }
}

fn unit_kind(source: &Source, at: &mut usize) -> Result<UnitKind, NoMemory>
    requires awaits { Awaits (just Part.PlainUnit) source.now.tokens.now at.old }
    ensures spelled { IfOk result (λ kind. SpellsUnitKind source.now.tokens.now kind at.old at.new) }
    ensures follows { OnOk result (Turns (just Part.PlainUnit) source.now.tokens.now at.old (grammar.name ∷ the Part.UnitTail ∷ []) at.new) }
    ensures ahead { OnOk result (at.old < at.new) }
{
    if source.stands(*at, TokenKind::Word(Keyword::Function)) {
        source.take(at, TokenKind::Word(Keyword::Function));
        Ok(UnitKind::Function)
    } else {
        source.take(at, TokenKind::Word(Keyword::Activity));
        Ok(UnitKind::Activity)
    }
}

/// Reads parameters in parentheses.
fn params(source: &Source, at: &mut usize) -> Result<List<RawParam>, NoMemory>
    requires awaits { Awaits (just Part.Params) source.now.tokens.now at.old }
    ensures spelled { IfOk result (λ params. SpellsParams source.now.text.now source.now.tokens.now params at.old at.new) }
    ensures follows { OnOk result (Turns (just Part.Params) source.now.tokens.now at.old [] at.new) }
    ensures ahead { OnOk result (at.old < at.new) }
{
    source.take(at, TokenKind::Sign(sign::OPEN_PAREN));
    if source.stands(*at, TokenKind::Sign(sign::CLOSE_PAREN)) {
        source.take(at, TokenKind::Sign(sign::CLOSE_PAREN));
        Ok(List::new(source.alloc))
    } else {
        let params = listed_params(source, at)?;
        source.take(at, TokenKind::Sign(sign::CLOSE_PAREN));
        Ok(params)
    }
}

/// One parameter or more.
fn listed_params(source: &Source, at: &mut usize) -> Result<List<RawParam>, NoMemory>
    requires awaits { Awaits (the Part.Param ∷ the Part.ParamRest ∷ []) source.now.tokens.now at.old }
    ensures spelled { IfOk result (λ params. SpellsParamList source.now.text.now source.now.tokens.now params at.old at.new) }
    ensures follows { OnOk result (Turns (the Part.Param ∷ the Part.ParamRest ∷ []) source.now.tokens.now at.old [] at.new) }
    ensures ahead { OnOk result (at.old < at.new) }
{
    let mut params = List::new(source.alloc);
    params.push(param(source, at)?)?;
    'commas: while source.stands(*at, TokenKind::Sign(sign::COMMA)) {
        source.take(at, TokenKind::Sign(sign::COMMA));
        params.push(param(source, at)?)?;
    }
    Ok(params)
}

fn param(source: &Source, at: &mut usize) -> Result<RawParam, NoMemory>
    requires awaits { Awaits (just Part.Param) source.now.tokens.now at.old }
    ensures spelled { IfOk result (λ param. SpellsParam source.now.text.now source.now.tokens.now param at.old at.new) }
    ensures follows { OnOk result (Turns (just Part.Param) source.now.tokens.now at.old [] at.new) }
    ensures ahead { OnOk result (at.old < at.new) }
{
    let name = name(source, at)?;
    let ty = typing(source, at)?;
    Ok(RawParam { name, ty })
}

/// Reads parameters in parentheses, where a parenthesis stands.
fn output_params(source: &Source, at: &mut usize) -> Result<List<RawParam>, NoMemory>
    requires awaits { Awaits (just Part.SecondParams) source.now.tokens.now at.old }
    ensures spelled { IfOk result (λ params. SpellsOutputParams source.now.text.now source.now.tokens.now params at.old at.new) }
    ensures follows { OnOk result (Turns (just Part.SecondParams) source.now.tokens.now at.old [] at.new) }
    ensures ahead { OnOk result (at.old ≤ at.new) }
{
    if source.stands(*at, TokenKind::Sign(sign::OPEN_PAREN)) {
        let params = params(source, at)?;
        Ok(params)
    } else {
        Ok(List::new(source.alloc))
    }
}

/// Reads `returns` and a type, where a `returns` stands.
fn result_type(source: &Source, at: &mut usize) -> Result<Option<RawType>, NoMemory>
    requires awaits { Awaits (just Part.Returns) source.now.tokens.now at.old }
    ensures spelled { IfOk result (λ ty. SpellsResult source.now.text.now source.now.tokens.now ty at.old at.new) }
    ensures follows { OnOk result (Turns (just Part.Returns) source.now.tokens.now at.old [] at.new) }
    ensures ahead { OnOk result (at.old ≤ at.new) }
{
    if source.stands(*at, TokenKind::Word(Keyword::Returns)) {
        source.take(at, TokenKind::Word(Keyword::Returns));
        let ty = read_type(source, at)?;
        Ok(Some(ty))
    } else {
        Ok(None)
    }
}
