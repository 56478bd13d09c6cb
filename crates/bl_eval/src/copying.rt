//! Copies of values.

ghost use Rattle.std.specs.Prelude.{◌≡◌, IfOk};

use bl_tree::{List, NoMemory, Value};
use std::alloc::Global;

/// The same value once more. Fails only for want of memory.
#[cycle(copies)]
pub fn copy(alloc: Global, value: &Value) -> Result<Value, NoMemory>
    ensures { IfOk result (λ made. made ≡ value.now) }
{
    match value {
        Value::Number(n) => Ok(Value::Number(*n)),
        Value::Parts(parts) => {
            let parts = copy_all(alloc, parts)?;
            Ok(Value::Parts(parts))
        }
    }
}

#[cycle(copies)]
fn copy_all(alloc: Global, values: &[Value]) -> Result<List<Value>, NoMemory>
    ensures { IfOk result (λ made. made ≡ values.now) }
{
    let mut made = List::new(alloc);
    for value in values {
        made.push(copy(alloc, value)?)?;
    }
    Ok(made)
}
