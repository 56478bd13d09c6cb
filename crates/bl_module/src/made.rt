//! What items of faces declare, by position.

ghost use Rattle.std.specs.Prelude.{◌≡◌, ◌++◌, length, map, IfOk, OnOk};
ghost use Rattle.bl_module.specs.Behind.{resolved_field, heading_of, outside_text, resolved_struct, resolved_head, resolved_param};

use crate::names::Names;
use crate::types::resolved_type;
use bl_face::FaceField;
use bl_names_scopes::heading::Heading;
use bl_names_scopes::kind::Kind;
use bl_parse_tree::name::Name;
use bl_tree::tree::{Field, Role, StructDef, Unit, UnitKind, Var};
use bl_tree::{List, NoMemory, Place, Scalar, Text};
use std::alloc::Global;

/// The place of what stands in no text.
fn outside_text() -> Place
    ensures { result ≡ outside_text }
{
    Place { start: 0, end: 0 }
}

/// The declaration of a name.
pub fn heading_of(alloc: Global, name: &Text, kind: Kind) -> Result<Heading, NoMemory>
    ensures { IfOk result (λ made. made ≡ heading_of name.now kind) }
{
    let text = Text::copy_of(alloc, name.as_str())?;
    Ok(Heading {
        name: Name {
            text,
            place: outside_text(),
        },
        kind,
    })
}

fn resolved_field(alloc: Global, names: &Names<'_>, field: &FaceField) -> Result<Field, NoMemory>
    ensures { IfOk result (λ made. made ≡ resolved_field names.now field.now) }
{
    let name = Text::copy_of(alloc, field.name.as_str())?;
    let ty = resolved_type(alloc, names, &field.ty)?;
    Ok(Field { name, ty })
}

fn resolved_fields(
    alloc: Global,
    names: &Names<'_>,
    fields: &[FaceField],
) -> Result<List<Field>, NoMemory>
    ensures { IfOk result (λ made. made ≡ map (resolved_field names.now) fields.now) }
{
    let mut made = List::new(alloc);
    for field in fields {
        made.push(resolved_field(alloc, names, field)?)?;
    }
    Ok(made)
}

/// A struct.
pub fn resolved_struct(
    alloc: Global,
    names: &Names<'_>,
    name: &Text,
    fields: &[FaceField],
) -> Result<StructDef, NoMemory>
    ensures { IfOk result (λ made. made ≡ resolved_struct names.now name.now fields.now) }
{
    let name = Text::copy_of(alloc, name.as_str())?;
    let fields = resolved_fields(alloc, names, fields)?;
    Ok(StructDef {
        name,
        place: outside_text(),
        fields,
    })
}

fn resolved_param(
    alloc: Global,
    names: &Names<'_>,
    role: Role,
    param: &FaceField,
) -> Result<Var, NoMemory>
    ensures { IfOk result (λ made. made ≡ resolved_param names.now role param.now) }
{
    let name = Text::copy_of(alloc, param.name.as_str())?;
    let ty = resolved_type(alloc, names, &param.ty)?;
    Ok(Var {
        name,
        place: outside_text(),
        ty,
        role,
    })
}

/// The parameters go behind the variables so far.
fn push_vars(
    alloc: Global,
    names: &Names<'_>,
    role: Role,
    params: &[FaceField],
    vars: &mut List<Var>,
) -> Result<(), NoMemory>
    ensures { OnOk result (vars.new ≡ vars.old ++ map (resolved_param names.now role) params.now) }
{
    for param in params {
        vars.push(resolved_param(alloc, names, role, param)?)?;
    }
    Ok(())
}

/// The inputs, and then the outputs.
fn resolved_params(
    alloc: Global,
    names: &Names<'_>,
    inputs: &[FaceField],
    outputs: &[FaceField],
) -> Result<List<Var>, NoMemory>
    ensures { IfOk result (λ made. made ≡ map (resolved_param names.now Role.Input) inputs.now ++ map (resolved_param names.now Role.Output) outputs.now) }
{
    let mut vars = List::new(alloc);
    push_vars(alloc, names, Role::Input, inputs, &mut vars)?;
    push_vars(alloc, names, Role::Output, outputs, &mut vars)?;
    Ok(vars)
}

/// The head of a unit. A list of more than 2^32 - 1 parameters is want of memory.
pub fn resolved_head(
    alloc: Global,
    names: &Names<'_>,
    kind: UnitKind,
    name: &Text,
    inputs: &[FaceField],
    outputs: &[FaceField],
    given: Option<Scalar>,
) -> Result<Unit, NoMemory>
    ensures { IfOk result (λ made. made ≡ resolved_head names.now kind name.now inputs.now outputs.now given) }
{
    let name = Text::copy_of(alloc, name.as_str())?;
    let vars = resolved_params(alloc, names, inputs, outputs)?;
    Ok(Unit {
        name,
        place: outside_text(),
        kind,
        vars,
        inputs: count(inputs)?,
        outputs: count(outputs)?,
        result: given,
        body: List::new(alloc),
    })
}

/// How many parameters there are.
fn count(params: &[FaceField]) -> Result<u32, NoMemory>
    ensures { IfOk result (λ n. n ≡ length params.now) }
{
    match u32::try_from(params.len()) {
        Ok(n) => Ok(n),
        Err(_) => Err(NoMemory),
    }
}
