//! Structs, constants and units with positions in place of names.

ghost use Rattle.std.specs.Prelude.{◌≡◌, ◌++◌, ◌∷◌, [], IfOk, OnOk, length, map};
ghost use Rattle.bl_tree.specs.Reduce.{joined};
ghost use Rattle.bl_names_scopes.specs.Marks.{item_marks, marks_of};
ghost use Rattle.bl_names_scopes.specs.Scopes.{after};
ghost use Rattle.bl_names.specs.Named.{along, constants_of, inside_piece, named_field, param_piece, role_piece, structs_of, unit_inside, units_of};
ghost use Rattle.bl_names.specs.Order.{kind_of_item, order_of};
ghost use Rattle.bl_names.specs.inner.Past.{past, with_struct, with_unit};

use crate::expr::{copy_of, optional_ty, ty};
use crate::state::State;
use crate::stmt::{block, constant};
use bl_names_scopes::kind::{Kind, of_unit};
use bl_names_scopes::scopes::Scopes;
use bl_names_tree::item::{Item, NamedField, NamedStruct, NamedUnit, NamedVar};
use bl_parse_tree::item::{RawField, RawItem, RawParam, RawStruct, RawUnit};
use bl_tree::tree::Role;
use bl_tree::{List, NoMemory};
use std::alloc::Global;
use std::mem;

pub fn items<'a>(alloc: Global, all: &'a [RawItem], state: &mut State<'a>) -> Result<(), NoMemory>
    ensures scopes { OnOk result (state.new.scopes ≡ after state.old.scopes (marks_of all.now)) }
    ensures structs { OnOk result (state.new.structs ≡ state.old.structs ++ along structs_of state.old.scopes all.now) }
    ensures constants { OnOk result (state.new.constants ≡ state.old.constants ++ along constants_of state.old.scopes all.now) }
    ensures units { OnOk result (state.new.units ≡ state.old.units ++ along units_of state.old.scopes all.now) }
{
    for one in all {
        item(alloc, one, state)?;
    }
    Ok(())
}

fn item<'a>(alloc: Global, item: &'a RawItem, state: &mut State<'a>) -> Result<(), NoMemory>
    ensures scopes { OnOk result (state.new.scopes ≡ after state.old.scopes (item_marks item.now)) }
    ensures structs { OnOk result (state.new.structs ≡ state.old.structs ++ structs_of state.old.scopes item.now) }
    ensures constants { OnOk result (state.new.constants ≡ state.old.constants ++ constants_of state.old.scopes item.now) }
    ensures units { OnOk result (state.new.units ≡ state.old.units ++ units_of state.old.scopes item.now) }
{
    match item {
        RawItem::Struct(def) => structure(alloc, def, state),
        RawItem::Constant(def) => {
            constant(alloc, def, state)?;
            Ok(())
        }
        RawItem::Unit(def) => unit(alloc, def, state),
    }
}

/// What the items are, in their order.
pub fn order(alloc: Global, all: &[RawItem]) -> Result<List<Item>, NoMemory>
    ensures { IfOk result (λ made. made ≡ order_of all.now) }
{
    let mut made = List::new(alloc);
    for one in all {
        made.push(kind_of(one))?;
    }
    Ok(made)
}

fn kind_of(item: &RawItem) -> Item
    ensures { result ≡ kind_of_item item.now }
{
    match item {
        RawItem::Struct(_) => Item::Struct,
        RawItem::Constant(_) => Item::Constant,
        RawItem::Unit(_) => Item::Unit,
    }
}

fn structure<'a>(alloc: Global, def: &'a RawStruct, state: &mut State<'a>) -> Result<(), NoMemory>
    ensures { OnOk result (state.new ≡ with_struct state.old def.now) }
{
    let named = NamedStruct {
        name: copy_of(alloc, &def.name)?,
        fields: fields(alloc, &def.fields, &state.scopes)?,
    };
    state.structs.push(named)?;
    state.scopes.declare(&def.name, Kind::Struct)?;
    Ok(())
}

fn fields(
    alloc: Global,
    all: &[RawField],
    scopes: &Scopes<'_>,
) -> Result<List<NamedField>, NoMemory>
    ensures { IfOk result (λ made. made ≡ map (named_field scopes.now) all.now) }
{
    let mut made = List::new(alloc);
    for one in all {
        made.push(field(alloc, one, scopes)?)?;
    }
    Ok(made)
}

fn field(alloc: Global, field: &RawField, scopes: &Scopes<'_>) -> Result<NamedField, NoMemory>
    ensures { IfOk result (λ made. made ≡ named_field scopes.now field.now) }
{
    Ok(NamedField {
        name: copy_of(alloc, &field.name)?,
        ty: ty(alloc, &field.ty, scopes)?,
    })
}

fn unit<'a>(alloc: Global, def: &'a RawUnit, state: &mut State<'a>) -> Result<(), NoMemory>
    ensures { OnOk result (state.new ≡ with_unit state.old def.now) }
{
    state.vars = List::new(alloc);
    state.scopes.open(alloc)?;
    let named = inside(alloc, def, state)?;
    state.units.push(named)?;
    state.scopes.close(alloc);
    state.scopes.declare(&def.name, of_unit(def.kind))?;
    Ok(())
}

/// The unit, in its scope.
fn inside<'a>(alloc: Global, def: &'a RawUnit, state: &mut State<'a>) -> Result<NamedUnit, NoMemory>
    requires { state.old.vars ≡ [] }
    ensures made { IfOk result (λ made. made ≡ unit_inside state.old.scopes def.now) }
    ensures past { OnOk result (state.new ≡ record (past state.old (inside_piece def.now)) { vars = [] }) }
{
    params(alloc, &def.inputs, Role::Input, state)?;
    params(alloc, &def.outputs, Role::Output, state)?;
    let result = optional_ty(alloc, &def.result, &state.scopes)?;
    let body = block(alloc, &def.body, state)?;
    Ok(NamedUnit {
        entry: def.entry,
        kind: def.kind,
        name: copy_of(alloc, &def.name)?,
        vars: mem::replace(&mut state.vars, List::new(alloc)),
        inputs: number_of(&def.inputs)?,
        outputs: number_of(&def.outputs)?,
        result,
        body,
    })
}

/// How many parameters there are. Each has a position, so more than 2^32 - 1 are no list.
fn number_of(all: &[RawParam]) -> Result<u32, NoMemory>
    ensures { IfOk result (λ n. n ≡ length all.now) }
{
    match u32::try_from(all.len()) {
        Ok(n) => Ok(n),
        Err(_) => Err(NoMemory),
    }
}

fn params<'a>(
    alloc: Global,
    all: &'a [RawParam],
    role: Role,
    state: &mut State<'a>,
) -> Result<(), NoMemory>
    ensures { OnOk result (state.new ≡ past state.old (role_piece role all.now)) }
{
    for one in all {
        param(alloc, one, role, state)?;
    }
    Ok(())
}

fn param<'a>(
    alloc: Global,
    param: &'a RawParam,
    role: Role,
    state: &mut State<'a>,
) -> Result<(), NoMemory>
    ensures { OnOk result (state.new ≡ past state.old (param_piece role param.now)) }
{
    let var = NamedVar {
        name: copy_of(alloc, &param.name)?,
        ty: Some(ty(alloc, &param.ty, &state.scopes)?),
        role,
    };
    state.declare_variable(&param.name, var)?;
    Ok(())
}
