//! Places of structs and functions.

ghost use Rattle.std.specs.Prelude.{◌≡◌, [], ◌∷◌, ◌++◌, codes, map};
ghost use Rattle.bl_tree.specs.Reduce.{joined};
ghost use Rattle.bl_ctext.specs.Spelling.{func_front, func_tokens, length_tokens, local_tokens, member_tokens, param_tokens, star_if, static_if};
ghost use Rattle.bl_ctext.specs.Spelling.{struct_tokens, type_tokens, with_commas, zero_tokens};
ghost use Rattle.bl_ctext.specs.Spellable.{spells_func, spells_struct};
ghost use Rattle.bl_cparse.specs.HasPlaces.{behind_tokens, func_walk, head_tokens, in_turn, struct_walk};

use crate::placing::expr::comma;
use crate::placing::spot::Spot;
use crate::placing::stmt;
use bl_tree::List;
use bl_tree::c::{CFunc, CLocal, CMember, CParam, CStruct, CType};

pub fn structs(spot: &mut Spot<'_>, structs: &mut List<CStruct>)
    ensures places { in_turn (map struct_walk structs.new) spot.old ≡ (structs.new, spot.new) }
    ensures tokens { map struct_tokens structs.new ≡ map struct_tokens structs.old }
    ensures spells { map spells_struct structs.new ≡ map spells_struct structs.old }
{
    for k in 0..structs.len() {
        structure(spot, structs.get_mut(k));
    }
}

fn structure(spot: &mut Spot<'_>, structure: &mut CStruct)
    ensures places { struct_walk structure.new spot.old ≡ (structure.new, spot.new) }
    ensures tokens { struct_tokens structure.new ≡ struct_tokens structure.old }
    ensures spells { spells_struct structure.new ≡ spells_struct structure.old }
{
    let start = spot.start();
    whole_struct(spot, structure);
    structure.place = spot.place_from(start);
}

/// Behind a struct.
fn whole_struct(spot: &mut Spot<'_>, structure: &CStruct)
    ensures { spot.new ≡ behind_tokens (struct_tokens structure.now) spot.old }
{
    spot.pass();
    spot.pass();
    spot.pass();
    members(spot, &structure.members);
    spot.pass();
    spot.pass();
}

fn members(spot: &mut Spot<'_>, members: &[CMember])
    ensures { spot.new ≡ behind_tokens (joined (map member_tokens members.now)) spot.old }
{
    for one in members {
        member(spot, one);
    }
}

fn member(spot: &mut Spot<'_>, member: &CMember)
    ensures { spot.new ≡ behind_tokens (member_tokens member.now) spot.old }
{
    type_name(spot, &member.ty);
    spot.pass();
    length(spot, member.length);
    spot.pass();
}

fn type_name(spot: &mut Spot<'_>, ty: &CType)
    ensures { spot.new ≡ behind_tokens (type_tokens ty.now) spot.old }
{
    match ty {
        CType::Scalar(_) => spot.pass(),
        CType::Struct(_) => {
            spot.pass();
            spot.pass();
        }
    }
}

fn length(spot: &mut Spot<'_>, length: Option<u32>)
    ensures { spot.new ≡ behind_tokens (length_tokens length) spot.old }
{
    match length {
        Some(_) => {
            spot.pass();
            spot.pass();
            spot.pass();
        }
        None => {}
    }
}

pub fn funcs(spot: &mut Spot<'_>, funcs: &mut List<CFunc>)
    ensures places { in_turn (map func_walk funcs.new) spot.old ≡ (funcs.new, spot.new) }
    ensures tokens { map func_tokens funcs.new ≡ map func_tokens funcs.old }
    ensures spells { map spells_func funcs.new ≡ map spells_func funcs.old }
{
    for k in 0..funcs.len() {
        func(spot, funcs.get_mut(k));
    }
}

fn func(spot: &mut Spot<'_>, func: &mut CFunc)
    ensures places { func_walk func.new spot.old ≡ (func.new, spot.new) }
    ensures tokens { func_tokens func.new ≡ func_tokens func.old }
    ensures spells { spells_func func.new ≡ spells_func func.old }
{
    let start = spot.start();
    head(spot, func);
    stmt::stmts(spot, &mut func.body);
    spot.pass();
    func.place = spot.place_from(start);
}

/// Behind a function up to its statements.
fn head(spot: &mut Spot<'_>, func: &CFunc)
    ensures { spot.new ≡ behind_tokens (head_tokens func.now) spot.old }
{
    front(spot, func);
    params(spot, &func.params);
    spot.pass();
    spot.pass();
    locals(spot, &func.locals);
}

/// Behind a function up to its parameters.
fn front(spot: &mut Spot<'_>, func: &CFunc)
    ensures { spot.new ≡ behind_tokens (func_front func.now) spot.old }
{
    if_stands(spot, func.fixed);
    spot.pass();
    spot.pass();
    spot.pass();
}

/// Behind a `static` or a `*` where it stands.
fn if_stands(spot: &mut Spot<'_>, stands: bool)
    ensures fixed { spot.new ≡ behind_tokens (static_if stands) spot.old }
    ensures star { spot.new ≡ behind_tokens (star_if stands) spot.old }
{
    if stands {
        spot.pass();
    }
}

fn params(spot: &mut Spot<'_>, params: &[CParam])
    ensures { spot.new ≡ behind_tokens (with_commas (map param_tokens params.now)) spot.old }
{
    let mut first = true;
    for one in params {
        comma(spot, first);
        param(spot, one);
        first = false;
    }
}

fn param(spot: &mut Spot<'_>, param: &CParam)
    ensures { spot.new ≡ behind_tokens (param_tokens param.now) spot.old }
{
    type_name(spot, &param.ty);
    if_stands(spot, param.pointer);
    spot.pass();
}

fn locals(spot: &mut Spot<'_>, locals: &[CLocal])
    ensures { spot.new ≡ behind_tokens (joined (map local_tokens locals.now)) spot.old }
{
    for one in locals {
        local(spot, one);
    }
}

fn local(spot: &mut Spot<'_>, local: &CLocal)
    ensures { spot.new ≡ behind_tokens (local_tokens local.now) spot.old }
{
    type_name(spot, &local.ty);
    spot.pass();
    spot.pass();
    zero(spot, &local.ty);
    spot.pass();
}

/// Behind what a local of this type begins with.
fn zero(spot: &mut Spot<'_>, ty: &CType)
    ensures { spot.new ≡ behind_tokens (zero_tokens ty.now) spot.old }
{
    match ty {
        CType::Scalar(_) => spot.pass(),
        CType::Struct(_) => {
            spot.pass();
            spot.pass();
            spot.pass();
        }
    }
}
