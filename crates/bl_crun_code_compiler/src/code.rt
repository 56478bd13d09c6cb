//! The code of functions and files.

ghost use Rattle.std.specs.Prelude.{◌≡◌, ◌++◌, codes, IfOk, length, List, OnOk, option_map, ℕ};
ghost use Rattle.bl_ctext_semantics_laws.specs.Layout.{capped_sizes, layouts};
ghost use Rattle.bl_ctext_semantics.specs.Saturated.{AlikeSaturated};
ghost use Rattle.bl_crun_code.specs.Code.{code_of_function};
ghost use Rattle.bl_crun_code.specs.Laws.{code_of_file, entry_in_file};
ghost use Rattle.bl_crun_code_layout.specs.Views.{entries_in, entry_for, sizes_in, structs_in};

use bl_crun_code::instruction::{Act, Instruction, Operand};
use bl_crun_code_expressions::front::Front;
use bl_crun_code_layout::here::{Entry, Here, Members, Sizes};
use bl_crun_code_layout::layout::{frame_size, slots, struct_layouts};
use bl_crun_code_layout::numbers::small;
use bl_crun_code_statements::statements;
use bl_ctext_semantics::Builtins;
use bl_ctext_semantics::maps::{add, find};
use bl_ctext_semantics::sizes::struct_sizes;
use bl_tree::NoMemory;
use bl_tree::c::{CFunc, CStruct};
use std::alloc::Global;
use std::collections::HashMap;

/// What is known of a file where one of its functions stands.
#[derive(Clone, Copy)]
struct Around<'c, 'a> {
    alloc: Global,
    builtins: &'c Builtins,
    sizes: &'c Sizes<'a>,
    structs: &'c HashMap<&'a str, Members<'a>>,
}

/// The code of a function that begins at a position, over the earlier ones.
fn function<'a>(
    around: Around<'_, 'a>,
    known: &HashMap<&'a str, Entry>,
    of: &'a CFunc,
    at: u32,
) -> Result<Front, NoMemory>
    ensures { IfOk result (λ code. code ≡ code_of_function (sizes_in around.entry.sizes.now) (structs_in around.entry.structs.now) at
        (entries_in known.now) of.now) }
{
    let slots = slots(around.alloc, around.sizes, of)?;
    let frame = small(frame_size(around.sizes, of))?;
    let here = Here {
        alloc: around.alloc,
        builtins: around.builtins,
        sizes: around.sizes,
        structs: around.structs,
        known,
        slots: &slots,
        frame,
    };
    let mut code = Front::new(around.alloc);
    code.put(Act::Return(Operand::Literal(0)))?;
    statements(&here, &mut code, &of.body, at, 1)?;
    Ok(code)
}

/// Puts some instructions behind others.
fn append(code: &mut Vec<Instruction>, more: &[Instruction]) -> Result<(), NoMemory>
    ensures { OnOk result (code.new.items ≡ code.old.items ++ more.now) }
{
    match code.extend_from_slice(more) {
        Ok(()) => Ok(()),
        Err(_) => Err(NoMemory),
    }
}

/// The code of a file, and where what is called from outside begins.
#[derive(Drop)]
pub struct Compiled {
    pub code: Vec<Instruction>,
    pub init: Option<Entry>,
    pub tick: Option<Entry>,
}

/// The code of structs and functions, taken as those of a file. It fails for want of memory, and where a number of an
/// instruction would need more than 32 bits.
pub fn compile(alloc: Global, structs: &[CStruct], funcs: &[CFunc]) -> Result<Compiled, NoMemory>
    ensures code { IfOk result (λ c. c.code.items ≡ code_of_file structs.now funcs.now) }
    ensures init { IfOk result (λ c. option_map entry_for c.init ≡ entry_in_file structs.now funcs.now (codes "bl_init")) }
    ensures tick { IfOk result (λ c. option_map entry_for c.tick ≡ entry_in_file structs.now funcs.now (codes "bl_tick")) }
{
    let builtins = Builtins::new(alloc)?;
    let sizes = struct_sizes(alloc, structs)?;
    let laid = struct_layouts(alloc, &sizes, structs)?;
    let around = Around {
        alloc,
        builtins: &builtins,
        sizes: &sizes,
        structs: &laid,
    };
    let mut known = HashMap::new(alloc);
    let mut code = Vec::new(alloc);
    for of in funcs {
        let at = small(code.len())?;
        let frame = small(frame_size(&sizes, of))?;
        let front = function(around, &known, of, at)?;
        append(&mut code, &front.finish())?;
        add(&mut known, of.name.as_str(), Entry { entry: at, frame })?;
    }
    let init = find(&known, "bl_init");
    let tick = find(&known, "bl_tick");
    Ok(Compiled { code, init, tick })
}
