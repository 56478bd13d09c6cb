//! The parameters of the function of an activity.

ghost use Rattle.std.specs.Prelude.{◌≡◌, ◌∷◌, ◌++◌, [], IfOk, OnOk, codes};
ghost use Rattle.bl_emit_spec.specs.Activities.{over_params, pointer_param, result_params};
ghost use Rattle.bl_emit_spec.specs.Names.{frame_name};
ghost use Rattle.bl_emit.specs.Activities.{memory_params_told, params_told};

use crate::parts::pointer;
use bl_emit_acts::parts::{joined, prefixed, single};
use bl_emit_acts::scalar_in_c;
use bl_emit_blocks::unit_may_end;
use bl_emit_functions::params as parameters;
use bl_tree::c::{CParam, CType};
use bl_tree::tree::{StructDef, Unit};
use bl_tree::{List, NoMemory, Scalar, Text};
use std::alloc::Global;

/// Appends the parameter for what an activity remembers.
fn add_memory(
    alloc: Global,
    name: &str,
    remembers: bool,
    params: &mut List<CParam>,
) -> Result<(), NoMemory>
    ensures { OnOk result (params.new ≡ params.old ++ memory_params_told name.now remembers) }
{
    if remembers {
        let of = prefixed(alloc, "m_", name)?;
        params.push(pointer(alloc, "m", of)?)?;
    }
    Ok(())
}

/// Appends the parameter for a result.
fn add_result(alloc: Global, ty: Option<Scalar>, params: &mut List<CParam>) -> Result<(), NoMemory>
    ensures { OnOk result (params.new ≡ params.old ++ result_params ty) }
{
    match ty {
        Some(s) => {
            let name = Text::copy_of(alloc, "r")?;
            params.push(CParam {
                ty: CType::Scalar(scalar_in_c(s)),
                pointer: true,
                name,
            })?;
            Ok(())
        }
        None => Ok(()),
    }
}

/// Appends the parameter by which an activity tells that its body has ended.
fn add_over(alloc: Global, ends: bool, params: &mut List<CParam>) -> Result<(), NoMemory>
    ensures { OnOk result (params.new ≡ params.old ++ over_params ends) }
{
    if ends {
        let name = Text::copy_of(alloc, "e")?;
        params.push(CParam {
            ty: CType::Scalar(Scalar::Bool),
            pointer: true,
            name,
        })?;
    }
    Ok(())
}

/// The parameter for where an activity rests, alone.
fn frame_alone(alloc: Global, name: &str) -> Result<List<CParam>, NoMemory>
    ensures { IfOk result (λ made. made ≡ pointer_param (codes "f") (frame_name name.now) ∷ []) }
{
    let of = prefixed(alloc, "f_", name)?;
    single(alloc, pointer(alloc, "f", of)?)
}

/// Where an activity rests, what it remembers, its inputs and outputs, its result, and whether it has ended, where it may end.
pub fn params(
    alloc: Global,
    structs: &[StructDef],
    unit: &Unit,
    remembers: bool,
) -> Result<List<CParam>, NoMemory>
    ensures { IfOk result (λ made. made ≡ params_told structs.now unit.now remembers) }
{
    let name = unit.name.as_str();
    let mut first = frame_alone(alloc, name)?;
    add_memory(alloc, name, remembers, &mut first)?;
    let mut params = joined(first, parameters(alloc, structs, unit)?)?;
    add_result(alloc, unit.result, &mut params)?;
    add_over(alloc, unit_may_end(unit), &mut params)?;
    Ok(params)
}
