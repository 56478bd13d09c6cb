//! Structs and functions, an empty line before each.

ghost use Rattle.std.specs.Prelude.{◌≡◌, [], ◌∷◌, ◌++◌, map, codes, IsTrue, OnOk};
ghost use Rattle.bl_tree.specs.Reduce.{all_of, joined};
ghost use Rattle.bl_ctext.specs.Spelling.{with_commas, scalar_word, type_tokens, length_tokens, member_tokens, struct_tokens, param_tokens, star_if};
ghost use Rattle.bl_ctext.specs.Spelling.{zero_tokens, local_tokens, returned_tokens, func_front, func_rest, func_tokens};
ghost use Rattle.bl_ctext.specs.Spellable.{is_c_scalar, spells_type, spells_length, spells_member, spells_struct, spells_param, spells_local};
ghost use Rattle.bl_ctext.specs.Spellable.{spells_returned, spells_func};

use crate::printer::{expr, literal, name, stmt};
use crate::writer::Writer;
use bl_tree::c::{CFunc, CLocal, CMember, CParam, CStruct, CType};
use bl_tree::{List, NoMemory, Scalar};

pub fn structs(out: &mut Writer, structs: &List<CStruct>) -> Result<(), NoMemory>
    requires { IsTrue (all_of (map spells_struct structs.now)) }
    ensures { OnOk result (out.new ≡ out.old ++ joined (map struct_tokens structs.now)) }
{
    for s in structs.iter() {
        structure(out, s)?;
    }
    Ok(())
}

pub fn funcs(out: &mut Writer, funcs: &List<CFunc>) -> Result<(), NoMemory>
    requires { IsTrue (all_of (map spells_func funcs.now)) }
    ensures { OnOk result (out.new ≡ out.old ++ joined (map func_tokens funcs.now)) }
{
    for f in funcs.iter() {
        func(out, f)?;
    }
    Ok(())
}

fn structure(out: &mut Writer, s: &CStruct) -> Result<(), NoMemory>
    requires { IsTrue (spells_struct s.now) }
    ensures { OnOk result (out.new ≡ out.old ++ struct_tokens s.now) }
{
    out.piece("\nstruct ")?;
    name::struct_name(out, s.name.as_str())?;
    out.piece(" {")?;
    members(out, &s.members)?;
    out.piece("\n};\n")
}

fn members(out: &mut Writer, members: &List<CMember>) -> Result<(), NoMemory>
    requires { IsTrue (all_of (map spells_member members.now)) }
    ensures { OnOk result (out.new ≡ out.old ++ joined (map member_tokens members.now)) }
{
    for m in members.iter() {
        member(out, m)?;
    }
    Ok(())
}

fn member(out: &mut Writer, m: &CMember) -> Result<(), NoMemory>
    requires { IsTrue (spells_member m.now) }
    ensures { OnOk result (out.new ≡ out.old ++ member_tokens m.now) }
{
    out.line(1)?;
    type_name(out, &m.ty)?;
    name::name(out, m.name.as_str())?;
    length(out, m.length)?;
    out.byte(b';')
}

fn length(out: &mut Writer, length: Option<u32>) -> Result<(), NoMemory>
    ensures { OnOk result (out.new ≡ out.old ++ length_tokens length) }
{
    match length {
        Some(n) => {
            out.byte(b'[')?;
            literal::number(out, n as u64)?;
            out.byte(b']')
        }
        None => Ok(()),
    }
}

/// A scalar type and a space.
fn scalar(out: &mut Writer, ty: Scalar) -> Result<(), NoMemory>
    requires { IsTrue (is_c_scalar ty) }
    ensures { OnOk result (out.new ≡ out.old ++ scalar_word ty ∷ []) }
{
    out.write(literal::scalar_name(ty))
}

/// A type and a space.
fn type_name(out: &mut Writer, ty: &CType) -> Result<(), NoMemory>
    requires { IsTrue (spells_type ty.now) }
    ensures { OnOk result (out.new ≡ out.old ++ type_tokens ty.now) }
{
    match ty {
        CType::Scalar(ty) => scalar(out, *ty),
        CType::Struct(of) => {
            out.write("struct ")?;
            name::struct_name(out, of.as_str())?;
            out.byte(b' ')
        }
    }
}

fn func(out: &mut Writer, f: &CFunc) -> Result<(), NoMemory>
    requires { IsTrue (spells_func f.now) }
    ensures { OnOk result (out.new ≡ out.old ++ func_tokens f.now) }
{
    func_head(out, f)?;
    params(out, &f.params)?;
    out.piece(") {")?;
    func_body(out, f)
}

/// The function up to its parameters.
fn func_head(out: &mut Writer, f: &CFunc) -> Result<(), NoMemory>
    requires { IsTrue (spells_func f.now) }
    ensures { OnOk result (out.new ≡ out.old ++ func_front f.now) }
{
    out.piece(if f.fixed { "\nstatic " } else { "\n" })?;
    returned(out, f.result)?;
    name::function_name(out, f.name.as_str())?;
    out.byte(b'(')
}

/// The locals and statements, and the brace behind them.
fn func_body(out: &mut Writer, f: &CFunc) -> Result<(), NoMemory>
    requires { IsTrue (spells_func f.now) }
    ensures { OnOk result (out.new ≡ out.old ++ func_rest f.now) }
{
    locals(out, &f.locals)?;
    stmt::stmts(out, &f.body, 1)?;
    out.piece("\n}\n")
}

/// The type of what is returned, and a space.
fn returned(out: &mut Writer, scalar_or_void: Option<Scalar>) -> Result<(), NoMemory>
    requires { IsTrue (spells_returned scalar_or_void) }
    ensures { OnOk result (out.new ≡ out.old ++ returned_tokens scalar_or_void) }
{
    match scalar_or_void {
        Some(ty) => scalar(out, ty),
        None => out.write("void "),
    }
}

fn params(out: &mut Writer, params: &List<CParam>) -> Result<(), NoMemory>
    requires { IsTrue (all_of (map spells_param params.now)) }
    ensures { OnOk result (out.new ≡ out.old ++ with_commas (map param_tokens params.now)) }
{
    let mut first = true;
    for p in params.iter() {
        expr::comma(out, first)?;
        first = false;
        param(out, p)?;
    }
    Ok(())
}

fn param(out: &mut Writer, p: &CParam) -> Result<(), NoMemory>
    requires { IsTrue (spells_param p.now) }
    ensures { OnOk result (out.new ≡ out.old ++ param_tokens p.now) }
{
    type_name(out, &p.ty)?;
    star(out, p.pointer)?;
    name::name(out, p.name.as_str())
}

/// The star of a pointer.
fn star(out: &mut Writer, pointer: bool) -> Result<(), NoMemory>
    ensures { OnOk result (out.new ≡ out.old ++ star_if pointer) }
{
    if pointer { out.byte(b'*') } else { Ok(()) }
}

fn locals(out: &mut Writer, locals: &List<CLocal>) -> Result<(), NoMemory>
    requires { IsTrue (all_of (map spells_local locals.now)) }
    ensures { OnOk result (out.new ≡ out.old ++ joined (map local_tokens locals.now)) }
{
    for x in locals.iter() {
        local(out, x)?;
    }
    Ok(())
}

fn local(out: &mut Writer, x: &CLocal) -> Result<(), NoMemory>
    requires { IsTrue (spells_local x.now) }
    ensures { OnOk result (out.new ≡ out.old ++ local_tokens x.now) }
{
    out.line(1)?;
    type_name(out, &x.ty)?;
    name::name(out, x.name.as_str())?;
    out.piece(match &x.ty {
        CType::Scalar(_) => " = 0;",
        CType::Struct(_) => " = {0};",
    })
}
