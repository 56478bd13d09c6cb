//! The text of a file's costs.

ghost use Rattle.std.specs.Prelude.{◌≡◌, ◌++◌, length, IfOk, OnOk};
ghost use Rattle.bl_bound.specs.Text.{bound_text, cost_text, line_text};
ghost use Rattle.bl_bound.specs.Told.{told_costs};

use crate::cost::Cost;
use crate::functions::costs_of;
use bl_ctext::CFile;
use bl_tree::NoMemory;
use bl_tree::c::CFunc;
use itoa::Buffer;
use std::alloc::Global;

/// A line for each function of a file, in order: its name, a space, and its cost or `over`.
pub fn bound_text(alloc: Global, file: &CFile) -> Result<Vec<u8>, NoMemory>
    ensures { IfOk result (λ text. text.items ≡ bound_text file.now.funcs) }
{
    let costs = costs_of(alloc, &file.funcs)?;
    text_of(alloc, &file.funcs, &costs)
}

/// The lines of functions with these costs.
fn text_of(alloc: Global, functions: &[CFunc], costs: &[Cost]) -> Result<Vec<u8>, NoMemory>
    requires { costs.now ≡ told_costs functions.now }
    ensures { IfOk result (λ text. text.items ≡ bound_text functions.now) }
{
    let mut text = Vec::new(alloc);
    for k in 0..functions.len() {
        append_line(functions[k].name.as_str(), costs[k], &mut text)?;
    }
    Ok(text)
}

fn append_line(name: &str, cost: Cost, text: &mut Vec<u8>) -> Result<(), NoMemory>
    ensures { OnOk result (text.new.items ≡ text.old.items ++ line_text name.now cost) }
{
    text.extend_from_slice(name.as_bytes())?;
    text.extend_from_slice(b" ")?;
    append_cost(cost, text)?;
    text.extend_from_slice(b"\n")?;
    Ok(())
}

fn append_cost(cost: Cost, text: &mut Vec<u8>) -> Result<(), NoMemory>
    ensures { OnOk result (text.new.items ≡ text.old.items ++ cost_text cost) }
{
    match cost {
        Cost::Number(number) => {
            let mut buffer = Buffer::new();
            Ok(text.extend_from_slice(buffer.format(number).as_bytes())?)
        }
        Cost::Over => Ok(text.extend_from_slice(b"over")?),
    }
}
