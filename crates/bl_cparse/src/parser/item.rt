//! Structs and functions.

ghost use Rattle.std.specs.Prelude.{◌≡◌, ℕ, ◌-◌, List, [], ◌∷◌, ◌++◌, map, codes, IsTrue, IfOk, MatchResult, ⊤};
ghost use Rattle.bl_tree.specs.Reduce.{all_of, joined};
ghost use Rattle.bl_ctext.specs.Names.{is_name, is_function_name};
ghost use Rattle.bl_ctext.specs.Spelling.{with_commas, type_tokens, length_tokens, member_tokens, struct_tokens, star_if, param_tokens, local_tokens};
ghost use Rattle.bl_ctext.specs.Spelling.{returned_tokens, static_if, func_front, func_rest, func_tokens, stmt_tokens};
ghost use Rattle.bl_ctext.specs.Spellable.{has_any, spells_type, spells_length, spells_member, spells_struct, spells_param, spells_local};
ghost use Rattle.bl_ctext.specs.Spellable.{spells_returned, spells_func, spells_stmt};
ghost use Rattle.bl_cparse_syntax.specs.declared.grammar.Part.{Part};
ghost use Rattle.bl_cparse_syntax.specs.Pieces.{first_piece};
ghost use Rattle.bl_cparse_syntax.specs.Grammar.{Wanted, most_open};
ghost use Rattle.bl_cparse_syntax.specs.Tables.{has};
ghost use Rattle.bl_cparse_syntax.specs.Expects.{Expects};
ghost use Rattle.bl_cparse.specs.inner.Reading.{sign, name_of, part, local_starts, Follows, Expands};
ghost use Rattle.bl_cparse.specs.Places.{WantsMemory};

use crate::make::NOWHERE;
use crate::parser::{MOST_OPEN, literal, name, place, stmt};
use crate::reader::Reader;
use crate::refusal::CRefusal;
use crate::room::fitted;
use bl_tree::c::{CFunc, CLocal, CMember, CParam, CStmt, CStruct, CType};
use bl_tree::{List, Scalar, Text};

/// One struct or more.
pub fn structs(r: &mut Reader<'_>) -> Result<List<CStruct>, CRefusal>
    ensures read { IfOk result (λ all. (r.old ≡ joined (map struct_tokens all) ++ r.new)
        × (IsTrue (has_any all) × IsTrue (all_of (map spells_struct all)))) }
    ensures follows { (room : ℕ) → Follows result (part Part.Struct room ∷ part Part.Structs room ∷ []) [] r.old r.new }
{
    let mut structs = List::new(r.alloc());
    structs.push(structure(r)?)?;
    while r.sees("struct") {
        structs.push(structure(r)?)?;
    }
    Ok(structs)
}

/// One function or more, up to the text's end.
pub fn funcs(r: &mut Reader<'_>) -> Result<List<CFunc>, CRefusal>
    ensures read { IfOk result (λ all. (r.old ≡ joined (map func_tokens all)) × (IsTrue (has_any all) × IsTrue (all_of (map spells_func all)))) }
    ensures follows { Expects (part Part.Func most_open ∷ part Part.Funcs most_open ∷ []) r.old → MatchResult result (λ _. ⊤) WantsMemory }
{
    let mut funcs = List::new(r.alloc());
    funcs.push(func(r)?)?;
    while !r.is_at_end() {
        funcs.push(func(r)?)?;
    }
    Ok(funcs)
}

fn structure(r: &mut Reader<'_>) -> Result<CStruct, CRefusal>
    ensures read { IfOk result (λ s. (r.old ≡ struct_tokens s ++ r.new) × IsTrue (spells_struct s)) }
    ensures follows { (room : ℕ) → Follows result (part Part.Struct room ∷ []) [] r.old r.new }
{
    r.take("struct")?;
    let name = name::struct_name(r)?;
    r.take("{")?;
    let members = members(r)?;
    r.take("}")?;
    r.take(";")?;
    Ok(CStruct {
        place: NOWHERE,
        name,
        members: fitted(members),
    })
}

/// One member or more.
fn members(r: &mut Reader<'_>) -> Result<List<CMember>, CRefusal>
    ensures read { IfOk result (λ all. (r.old ≡ joined (map member_tokens all) ++ r.new)
        × (IsTrue (has_any all) × IsTrue (all_of (map spells_member all)))) }
    ensures follows { (room : ℕ) (rest : List Wanted) → Expects (part Part.Member room ∷ part Part.Members room ∷ sign (codes "}") ∷ rest) r.old
        → MatchResult result (λ _. Expects (sign (codes "}") ∷ rest) r.new) WantsMemory }
{
    let mut members = List::new(r.alloc());
    members.push(member(r)?)?;
    while !r.sees("}") {
        members.push(member(r)?)?;
    }
    Ok(members)
}

fn member(r: &mut Reader<'_>) -> Result<CMember, CRefusal>
    ensures read { IfOk result (λ m. (r.old ≡ member_tokens m ++ r.new) × IsTrue (spells_member m)) }
    ensures follows { (room : ℕ) → Follows result (part Part.Member room ∷ []) [] r.old r.new }
{
    let ty = type_name(r)?;
    let name = name::name(r)?;
    let length = member_length(r)?;
    r.take(";")?;
    Ok(CMember { ty, name, length })
}

fn member_length(r: &mut Reader<'_>) -> Result<Option<u32>, CRefusal>
    ensures read { IfOk result (λ n. (r.old ≡ length_tokens n ++ r.new) × IsTrue (spells_length n)) }
    ensures follows { (room : ℕ) → Follows result (part Part.Length room ∷ []) [] r.old r.new }
{
    if !r.eat("[") {
        return Ok(None);
    }
    let length = place::length(r)?;
    r.take("]")?;
    Ok(Some(length))
}

fn type_name(r: &mut Reader<'_>) -> Result<CType, CRefusal>
    ensures read { IfOk result (λ ty. (r.old ≡ type_tokens ty ++ r.new) × IsTrue (spells_type ty)) }
    ensures follows { (room : ℕ) → Follows result (part Part.TypeName room ∷ []) [] r.old r.new }
{
    if r.eat("struct") {
        return Ok(CType::Struct(name::struct_name(r)?));
    }
    Ok(CType::Scalar(literal::scalar(r)?))
}

fn func(r: &mut Reader<'_>) -> Result<CFunc, CRefusal>
    ensures read { IfOk result (λ f. (r.old ≡ func_tokens f ++ r.new) × IsTrue (spells_func f)) }
    ensures follows { Follows result (part Part.Func most_open ∷ []) [] r.old r.new }
{
    let head = func_head(r)?;
    let params = params(r)?;
    r.take(")")?;
    r.take("{")?;
    let inside = func_body(r)?;
    Ok(CFunc {
        place: NOWHERE,
        fixed: head.fixed,
        result: head.result,
        name: head.name,
        params: fitted(params),
        locals: fitted(inside.locals),
        body: fitted(inside.body),
    })
}

/// What stands in the braces of a function.
#[derive(Drop)]
struct FuncBody {
    locals: List<CLocal>,
    body: List<CStmt>,
}

/// The locals and statements, and the brace behind them.
fn func_body(r: &mut Reader<'_>) -> Result<FuncBody, CRefusal>
    ensures read { IfOk result (λ f. (r.old ≡ joined (map local_tokens f.locals) ++ (joined (map stmt_tokens f.body) ++ codes "}" ∷ []) ++ r.new)
        × (IsTrue (all_of (map spells_local f.locals)) × IsTrue (all_of (map spells_stmt f.body)))) }
    ensures follows { (room : ℕ) → Follows result (part Part.Locals room ∷ part Part.Stmts (most_open - 1) ∷ sign (codes "}") ∷ []) [] r.old r.new }
{
    let locals = locals(r)?;
    let body = stmt::stmts(r, MOST_OPEN - 1)?;
    r.take("}")?;
    Ok(FuncBody { locals, body })
}

/// A function up to its parameters.
#[derive(Drop)]
struct FuncHead {
    fixed: bool,
    result: Option<Scalar>,
    name: Text,
}

fn func_head(r: &mut Reader<'_>) -> Result<FuncHead, CRefusal>
    ensures read { IfOk result (λ h. (r.old ≡ static_if h.fixed ++ (returned_tokens h.result ++ (h.name ∷ codes "(" ∷ [])) ++ r.new)
        × (IsTrue (spells_returned h.result) × IsTrue (is_function_name h.name))) }
    ensures follows { (room : ℕ) → Follows result (part Part.Func room ∷ []) (part Part.Params (room - 1) ∷ sign (codes ")")
        ∷ sign (codes "{") ∷ part Part.Locals (room - 1) ∷ part Part.Stmts (room - 1) ∷ sign (codes "}") ∷ []) r.old r.new }
{
    let fixed = fixed(r);
    let result = returned(r)?;
    let name = name::function_name(r)?;
    r.take("(")?;
    Ok(FuncHead {
        fixed,
        result,
        name,
    })
}

/// Whether `static` stands here.
fn fixed(r: &mut Reader<'_>) -> bool
    ensures read { r.old ≡ static_if result ++ r.new }
    ensures follows { (room : ℕ) → Expands (part Part.Func room ∷ []) (part Part.PlainFunc room ∷ []) r.old r.new }
{
    r.eat("static")
}

fn returned(r: &mut Reader<'_>) -> Result<Option<Scalar>, CRefusal>
    ensures read { IfOk result (λ ty. (r.old ≡ returned_tokens ty ++ r.new) × IsTrue (spells_returned ty)) }
    ensures follows { (room : ℕ) → Follows result (part Part.PlainFunc room ∷ []) (part Part.FuncRest room ∷ []) r.old r.new }
{
    if r.eat("void") {
        return Ok(None);
    }
    Ok(Some(literal::scalar(r)?))
}

/// The parameters before a `)`.
fn params(r: &mut Reader<'_>) -> Result<List<CParam>, CRefusal>
    ensures read { IfOk result (λ all. (r.old ≡ with_commas (map param_tokens all) ++ r.new) × IsTrue (all_of (map spells_param all))) }
    ensures follows { (room : ℕ) (rest : List Wanted) → Expects (part Part.Params room ∷ sign (codes ")") ∷ rest) r.old
        → MatchResult result (λ _. Expects (sign (codes ")") ∷ rest) r.new) WantsMemory }
{
    let mut params = List::new(r.alloc());
    if r.sees(")") {
        return Ok(params);
    }
    params.push(param(r)?)?;
    while r.eat(",") {
        params.push(param(r)?)?;
    }
    Ok(params)
}

fn param(r: &mut Reader<'_>) -> Result<CParam, CRefusal>
    ensures read { IfOk result (λ p. (r.old ≡ param_tokens p ++ r.new) × IsTrue (spells_param p)) }
    ensures follows { (room : ℕ) → Follows result (part Part.Param room ∷ []) [] r.old r.new }
{
    let ty = type_name(r)?;
    let pointer = star(r);
    let name = name::name(r)?;
    Ok(CParam { ty, pointer, name })
}

/// Whether a `*` stands here.
fn star(r: &mut Reader<'_>) -> bool
    ensures read { r.old ≡ star_if result ++ r.new }
    ensures follows { (room : ℕ) → Expands (part Part.Star room ∷ []) [] r.old r.new }
{
    r.eat("*")
}

fn locals(r: &mut Reader<'_>) -> Result<List<CLocal>, CRefusal>
    ensures read { IfOk result (λ all. (r.old ≡ joined (map local_tokens all) ++ r.new) × IsTrue (all_of (map spells_local all))) }
    ensures follows { (room : ℕ) → Follows result (part Part.Locals room ∷ []) [] r.old r.new }
{
    let mut locals = List::new(r.alloc());
    while begins_local(r) {
        locals.push(local(r)?)?;
    }
    Ok(locals)
}

fn begins_local(r: &Reader<'_>) -> bool
    ensures { result ≡ has local_starts (first_piece r.now) }
{
    match literal::scalar_of(r.piece()) {
        Some(_) => true,
        None => r.sees("struct"),
    }
}

fn local(r: &mut Reader<'_>) -> Result<CLocal, CRefusal>
    ensures read { IfOk result (λ x. (r.old ≡ local_tokens x ++ r.new) × IsTrue (spells_local x)) }
    ensures follows { (room : ℕ) → Follows result (part Part.Local room ∷ []) [] r.old r.new }
{
    if r.eat("struct") {
        return struct_local(r);
    }
    let scalar = literal::scalar(r)?;
    let name = name::name(r)?;
    r.take("=")?;
    r.take("0")?;
    r.take(";")?;
    Ok(CLocal {
        ty: CType::Scalar(scalar),
        name,
    })
}

/// A local whose type is a struct, behind its `struct`.
fn struct_local(r: &mut Reader<'_>) -> Result<CLocal, CRefusal>
    ensures read { IfOk result (λ x. (codes "struct" ∷ r.old ≡ local_tokens x ++ r.new) × IsTrue (spells_local x)) }
    ensures follows { (room : ℕ) → Follows result (part Part.StructName room ∷ name_of ∷ sign (codes "=")
        ∷ sign (codes "{") ∷ sign (codes "0") ∷ sign (codes "}") ∷ sign (codes ";") ∷ []) [] r.old r.new }
{
    let of = name::struct_name(r)?;
    let name = name::name(r)?;
    r.take("=")?;
    stmt::zeros(r)?;
    r.take(";")?;
    Ok(CLocal {
        ty: CType::Struct(of),
        name,
    })
}
