//! The types of the cells of a file, each struct laid out once and then copied, and none that no object has.

ghost use Rattle.std.specs.Prelude.{◌≡◌, ◌++◌, ◌<◌, IfOk, length, List, OnOk, Some, take};
ghost use Rattle.bl_tree.specs.declared.c.CFunc.{CFunc};
ghost use Rattle.bl_ctext_semantics.specs.inner.Maps.{text_at};
ghost use Rattle.bl_ctext_semantics.specs.Parts.{parts_from};
ghost use Rattle.bl_crun_ports.specs.Layout.{kinds_of};
ghost use Rattle.bl_crun_ports.specs.inner.Spans.{StructsLaid, kinds_named, kinds_of_member, kinds_of_members, kinds_of_type, struct_position};
ghost use Rattle.bl_crun_ports.specs.Ports.{inputs_start, outputs_start};

use crate::places::Places;
use crate::repeat::{Span, push, push_part, push_times};
use bl_ctext_semantics::maps::{add, find};
use bl_tree::c::{CMember, CStruct, CType};
use bl_tree::{NoMemory, Scalar};
use std::alloc::Global;
use std::collections::HashMap;

/// The cells of the three objects, in order.
#[derive(Drop)]
pub struct CellKinds {
    pub kinds: Vec<Scalar>,
    /// Where the cells of the input object begin, behind those of the state. The first is `pad`, then come the inputs.
    pub inputs: usize,
    /// Where the cells of the output object begin. The first is `pad`, then come the outputs.
    pub outputs: usize,
}

/// Where the structs stand that have been laid out.
type Spans<'a> = HashMap<&'a str, Span>;

/// Adds the struct of a name, if it is among the first so many.
#[cycle(laying)]
fn add_struct<'a>(
    places: &Places<'a>,
    end: usize,
    name: &str,
    spans: &mut Spans<'a>,
    kinds: &mut Vec<Scalar>,
) -> Result<(), NoMemory>
    requires { StructsLaid places.now.structs.now (text_at spans.old) kinds.old.items }
    ensures kinds { OnOk result (kinds.new.items ≡ kinds.old.items ++ kinds_named (take end places.now.structs.now) name.now) }
    ensures laid { OnOk result (StructsLaid places.now.structs.now (text_at spans.new) kinds.new.items) }
{
    let at = match places.before(end, name) {
        Some(at) => at,
        None => return Ok(()),
    };
    if let Some(span) = find(spans, name) {
        return push_part(kinds, span);
    }
    add_new(places, at, name, spans, kinds)
}

/// Adds a struct that hasn't been laid out yet, and notes where.
#[cycle(laying)]
fn add_new<'a>(
    places: &Places<'a>,
    at: usize,
    name: &str,
    spans: &mut Spans<'a>,
    kinds: &mut Vec<Scalar>,
) -> Result<(), NoMemory>
    requires within { at < length places.now.structs.now }
    requires first { struct_position name.now places.now.structs.now ≡ Some at }
    requires laid { StructsLaid places.now.structs.now (text_at spans.old) kinds.old.items }
    ensures kinds { OnOk result (kinds.new.items ≡ kinds.old.items ++ kinds_named places.now.structs.now name.now) }
    ensures laid { OnOk result (StructsLaid places.now.structs.now (text_at spans.new) kinds.new.items) }
{
    let of = &places.structs[at];
    let start = kinds.len();
    add_members(places, at, &of.members, spans, kinds)?;
    let len = kinds.len() - start;
    add(spans, of.name.as_str(), Span { start, len })
}

#[cycle(laying)]
fn add_members<'a>(
    places: &Places<'a>,
    end: usize,
    members: &'a [CMember],
    spans: &mut Spans<'a>,
    kinds: &mut Vec<Scalar>,
) -> Result<(), NoMemory>
    requires { StructsLaid places.now.structs.now (text_at spans.old) kinds.old.items }
    ensures kinds { OnOk result (kinds.new.items ≡ kinds.old.items ++ kinds_of_members (take end places.now.structs.now) members.now) }
    ensures laid { OnOk result (StructsLaid places.now.structs.now (text_at spans.new) kinds.new.items) }
{
    for member in members {
        add_member(places, end, member, spans, kinds)?;
    }
    Ok(())
}

#[cycle(laying)]
fn add_member<'a>(
    places: &Places<'a>,
    end: usize,
    member: &'a CMember,
    spans: &mut Spans<'a>,
    kinds: &mut Vec<Scalar>,
) -> Result<(), NoMemory>
    requires { StructsLaid places.now.structs.now (text_at spans.old) kinds.old.items }
    ensures kinds { OnOk result (kinds.new.items ≡ kinds.old.items ++ kinds_of_member (take end places.now.structs.now) member.now) }
    ensures laid { OnOk result (StructsLaid places.now.structs.now (text_at spans.new) kinds.new.items) }
{
    let times = member.length.unwrap_or(1);
    if times == 0 {
        return Ok(());
    }
    let start = kinds.len();
    add_type(places, end, &member.ty, spans, kinds)?;
    let len = kinds.len() - start;
    push_times(kinds, Span { start, len }, times - 1)
}

#[cycle(laying)]
fn add_type<'a>(
    places: &Places<'a>,
    end: usize,
    ty: &'a CType,
    spans: &mut Spans<'a>,
    kinds: &mut Vec<Scalar>,
) -> Result<(), NoMemory>
    requires { StructsLaid places.now.structs.now (text_at spans.old) kinds.old.items }
    ensures kinds { OnOk result (kinds.new.items ≡ kinds.old.items ++ kinds_of_type (take end places.now.structs.now) ty.now) }
    ensures laid { OnOk result (StructsLaid places.now.structs.now (text_at spans.new) kinds.new.items) }
{
    match ty {
        CType::Scalar(kind) => push(kinds, *kind),
        CType::Struct(name) => add_struct(places, end, name, spans, kinds),
    }
}

/// The cells of a file with these structs, in time linear in the numbers of cells and of members.
pub fn lay_out(alloc: Global, structs: &[CStruct]) -> Result<CellKinds, NoMemory>
    ensures kinds { (funcs : List CFunc) → IfOk result (λ cells. cells.kinds.items ≡ kinds_of (parts_from structs.now funcs)) }
    ensures inputs { IfOk result (λ cells. cells.inputs ≡ inputs_start structs.now) }
    ensures outputs { IfOk result (λ cells. cells.outputs ≡ outputs_start structs.now) }
{
    let places = Places::new(alloc, structs)?;
    let mut spans: Spans<'_> = HashMap::new(alloc);
    let mut kinds = Vec::new(alloc);
    add_struct(&places, structs.len(), "bl_state", &mut spans, &mut kinds)?;
    let inputs = kinds.len();
    add_struct(&places, structs.len(), "bl_in", &mut spans, &mut kinds)?;
    let outputs = kinds.len();
    add_struct(&places, structs.len(), "bl_out", &mut spans, &mut kinds)?;
    Ok(CellKinds {
        kinds,
        inputs,
        outputs,
    })
}

/// The types of the cells of a file with these structs.
pub fn kinds(alloc: Global, structs: &[CStruct]) -> Result<Vec<Scalar>, NoMemory>
    ensures { (funcs : List CFunc) → IfOk result (λ kinds. kinds.items ≡ kinds_of (parts_from structs.now funcs)) }
{
    let CellKinds { kinds, .. } = lay_out(alloc, structs)?;
    Ok(kinds)
}
