//! What structs, constants and units do to names.
#![tactic(auto, using(crate::proofs::WalkLemmas::walks))]

ghost use Rattle.std.specs.Prelude.{◌≡◌, OnOk, ◌++◌, ◌∷◌, [], map};
ghost use Rattle.bl_tree.specs.Reduce.{joined};
ghost use Rattle.bl_names_scopes.specs.inner.Judged.{judged_by};
ghost use Rattle.bl_names_scopes.specs.Marks.{field_mark, field_type_marks, in_scope, inside_unit, item_marks, marks_of, param_marks, struct_marks, unit_marks};

use crate::expr::{optional_ty, ty};
use crate::judge::Judge;
use crate::kind::{Kind, of_unit};
use crate::stmt::{block, constant};
use bl_parse_tree::item::{RawField, RawItem, RawParam, RawStruct, RawUnit};
use bl_tree::NoMemory;
use std::alloc::Global;

pub fn items<'a>(alloc: Global, all: &'a [RawItem], judge: &mut Judge<'a>) -> Result<(), NoMemory>
    ensures { OnOk result (judge.new ≡ judged_by judge.old (marks_of all.now)) }
{
    for one in all {
        item(alloc, one, judge)?;
    }
    Ok(())
}

fn item<'a>(alloc: Global, item: &'a RawItem, judge: &mut Judge<'a>) -> Result<(), NoMemory>
    ensures { OnOk result (judge.new ≡ judged_by judge.old (item_marks item.now)) }
{
    match item {
        RawItem::Struct(def) => structure(alloc, def, judge),
        RawItem::Constant(def) => constant(def, judge),
        RawItem::Unit(def) => unit(alloc, def, judge),
    }
}

fn structure<'a>(alloc: Global, def: &'a RawStruct, judge: &mut Judge<'a>) -> Result<(), NoMemory>
    ensures { OnOk result (judge.new ≡ judged_by judge.old (struct_marks def.now)) }
{
    field_types(&def.fields, judge);
    fields(alloc, &def.fields, judge)?;
    judge.declare(&def.name, Kind::Struct)
}

fn field_types(all: &[RawField], judge: &mut Judge<'_>)
    ensures { judge.new ≡ judged_by judge.old (joined (map field_type_marks all.now)) }
{
    for field in all {
        ty(&field.ty, judge);
    }
}

/// The fields of a struct are declared in a scope of their own.
fn fields<'a>(alloc: Global, all: &'a [RawField], judge: &mut Judge<'a>) -> Result<(), NoMemory>
    ensures { OnOk result (judge.new ≡ judged_by judge.old (in_scope (map field_mark all.now))) }
{
    judge.open(alloc)?;
    field_names(all, judge)?;
    judge.close(alloc);
    Ok(())
}

fn field_names<'a>(all: &'a [RawField], judge: &mut Judge<'a>) -> Result<(), NoMemory>
    ensures { OnOk result (judge.new ≡ judged_by judge.old (map field_mark all.now)) }
{
    for field in all {
        judge.declare(&field.name, Kind::Field)?;
    }
    Ok(())
}

fn unit<'a>(alloc: Global, def: &'a RawUnit, judge: &mut Judge<'a>) -> Result<(), NoMemory>
    ensures { OnOk result (judge.new ≡ judged_by judge.old (unit_marks def.now)) }
{
    judge.open(alloc)?;
    inside(alloc, def, judge)?;
    judge.close(alloc);
    judge.declare(&def.name, of_unit(def.kind))
}

/// The parameters of a unit and the statements directly in its body.
fn inside<'a>(alloc: Global, def: &'a RawUnit, judge: &mut Judge<'a>) -> Result<(), NoMemory>
    ensures { OnOk result (judge.new ≡ judged_by judge.old (inside_unit def.now)) }
{
    params(&def.inputs, judge)?;
    params(&def.outputs, judge)?;
    optional_ty(&def.result, judge);
    block(alloc, &def.body, judge)
}

fn params<'a>(all: &'a [RawParam], judge: &mut Judge<'a>) -> Result<(), NoMemory>
    ensures { OnOk result (judge.new ≡ judged_by judge.old (joined (map param_marks all.now))) }
{
    for one in all {
        param(one, judge)?;
    }
    Ok(())
}

fn param<'a>(param: &'a RawParam, judge: &mut Judge<'a>) -> Result<(), NoMemory>
    ensures { OnOk result (judge.new ≡ judged_by judge.old (param_marks param.now)) }
{
    ty(&param.ty, judge);
    judge.declare(&param.name, Kind::Variable)
}
