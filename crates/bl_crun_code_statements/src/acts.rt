//! The code of statements that have no statements in them.

ghost use Rattle.std.specs.Prelude.{◌≡◌, ◌∷◌, [], ◌++◌, ◌&&◌, OnOk, option_map, pos};
ghost use Rattle.bl_ctext_semantics.specs.Tables.{entry_or};
ghost use Rattle.bl_crun_code.specs.Code.{clear_code, code_of_call, expr_valued, reach_calm, reach_of_place, return_code, set_code, uncounted, with_begun};
ghost use Rattle.bl_crun_code.specs.declared.instruction.Act.TheVariants as act;
ghost use Rattle.bl_crun_code.specs.declared.instruction.Operand.TheVariants as op;
ghost use Rattle.bl_crun_code_layout.specs.Views.{ground_of};
ghost use Rattle.bl_crun_code_statements.specs.Acts.{returned_code, value_code};

use bl_crun_code::instruction::{Act, Operand};
use bl_crun_code_expressions::calm::{is_call_calm, is_calm, is_walk_calm};
use bl_crun_code_expressions::expr::{call, place, ready, written};
use bl_crun_code_expressions::front::Front;
use bl_crun_code_expressions::mode::Mode;
use bl_crun_code_expressions::operand::{address_of, place_operand, value_operand};
use bl_crun_code_layout::here::{Here, struct_size};
use bl_crun_code_layout::numbers::small;
use bl_crun_code_layout::place::walk_to;
use bl_tree::c::{CCall, CExpr, CPlace, CType};
use bl_tree::{Box, NoMemory};

/// The code that writes a value at a place of a type, or copies a struct there.
fn value_written(
    here: &Here<'_, '_>,
    code: &mut Front,
    ty: Option<&CType>,
    value: &CExpr,
    at: Operand,
    mode: Mode,
) -> Result<(), NoMemory>
    ensures { OnOk result (code.new ≡ value_code (ground_of here.now).sizes (option_map (λ t. t.now) ty.entry) (expr_valued value.now (ground_of here.now))
        mode.late mode.depth at ++ code.old) }
{
    match ty {
        Some(CType::Struct(name)) => {
            let size = small(struct_size(here.sizes, name))?;
            let from = value_operand(here, value, mode)?;
            code.put(Act::Copy(address_of(at), from, size))?;
            ready(here, code, value, mode)
        }
        _ => written(here, code, value, mode, at),
    }
}

/// The code of an assignment.
pub fn assign(
    here: &Here<'_, '_>,
    code: &mut Front,
    at: &CPlace,
    to: &CExpr,
    depth: u32,
) -> Result<(), NoMemory>
    ensures { OnOk result (code.new ≡ with_begun 1 (set_code (ground_of here.now).sizes (reach_of_place at.now (ground_of here.now)).ty
        (reach_of_place at.now (ground_of here.now)) (expr_valued to.now (ground_of here.now))
        (reach_calm (reach_of_place at.now (ground_of here.now)) && (expr_valued to.now (ground_of here.now)).calm) depth) ++ code.old) }
{
    let end = code.len();
    let walk = walk_to(here, at)?;
    let first = is_walk_calm(here, at, &walk)?;
    let second = is_calm(here, to)?;
    let mode = Mode {
        late: first && second,
        depth,
    };
    let it = place_operand(&walk, mode);
    value_written(here, code, walk.ty, to, it, mode.behind(it)?)?;
    place(here, code, at, &walk, mode)?;
    code.begin(end)
}

/// The code that sets a struct to 0.
pub fn clear(
    here: &Here<'_, '_>,
    code: &mut Front,
    at: &CPlace,
    name: &str,
    depth: u32,
) -> Result<(), NoMemory>
    ensures { OnOk result (code.new ≡ with_begun 1 (clear_code (entry_or 0 (ground_of here.now).sizes name.now) (reach_of_place at.now (ground_of here.now)) depth)
        ++ code.old) }
{
    let end = code.len();
    let walk = walk_to(here, at)?;
    let late = is_walk_calm(here, at, &walk)?;
    let mode = Mode { late, depth };
    let size = small(struct_size(here.sizes, name))?;
    code.put(Act::Zero(address_of(place_operand(&walk, mode)), size))?;
    place(here, code, at, &walk, mode)?;
    code.begin(end)
}

/// The code of a call that stands alone.
pub fn call_alone(
    here: &Here<'_, '_>,
    code: &mut Front,
    called: &CCall,
    depth: u32,
) -> Result<(), NoMemory>
    ensures { OnOk result (code.new ≡ with_begun 1 ((code_of_call called.now (ground_of here.now)).into (code_of_call called.now (ground_of here.now)).calm depth
        (op.Temporary depth)) ++ code.old) }
{
    let end = code.len();
    let late = is_call_calm(here, called)?;
    call(
        here,
        code,
        called,
        Mode { late, depth },
        Operand::Temporary(depth),
    )?;
    code.begin(end)
}

/// The code of a `return`.
pub fn give_back(
    here: &Here<'_, '_>,
    code: &mut Front,
    value: &Option<Box<CExpr>>,
    depth: u32,
) -> Result<(), NoMemory>
    ensures { OnOk result (code.new ≡ with_begun 1 (returned_code value.now depth (ground_of here.now)) ++ code.old) }
{
    match value {
        Some(value) => give(here, code, value, depth),
        None => code.put_begun(Act::Return(Operand::Literal(0))),
    }
}

/// The code of a `return` with a value.
fn give(here: &Here<'_, '_>, code: &mut Front, value: &CExpr, depth: u32) -> Result<(), NoMemory>
    ensures { OnOk result (code.new ≡ with_begun 1 (return_code (expr_valued value.now (ground_of here.now)) depth) ++ code.old) }
{
    let end = code.len();
    let late = is_calm(here, value)?;
    let mode = Mode { late, depth };
    let a = value_operand(here, value, mode)?;
    code.put(Act::Return(a))?;
    ready(here, code, value, mode)?;
    code.begin(end)
}
