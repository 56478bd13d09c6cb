//! Parts of values, by positions: of fields, and of elements counted from 0.

ghost use Rattle.std.specs.Prelude.{◌≡◌, option_map};
ghost use Rattle.bl_eval.specs.Meaning.{read_at};
ghost use Rattle.bl_eval.specs.Values.{part_of, value_at};
ghost use Rattle.bl_eval.specs.Changes.{replaced, with_element_at};

use bl_tree::slices::element;
use bl_tree::{List, Value};
use std::mem;

/// What lies at the positions, from the outermost part inwards.
pub fn part_at<'a>(value: &'a Value, positions: &[usize]) -> Option<&'a Value>
    ensures { option_map (λ found. found.now) result ≡ value_at positions.now value.now }
{
    let mut found = value;
    for k in positions {
        found = part(found, *k)?;
    }
    Some(found)
}

fn part(value: &Value, k: usize) -> Option<&Value>
    ensures { option_map (λ found. found.now) result ≡ part_of k value.now }
{
    match value {
        Value::Number(_) => None,
        Value::Parts(parts) => element(parts, k),
    }
}

/// What lies at the positions in a variable.
pub fn find<'a>(now: &'a [Value], root: usize, positions: &[usize]) -> Option<&'a Value>
    ensures { option_map (λ found. found.now) result ≡ read_at root now.now positions.now }
{
    part_at(element(now, root)?, positions)
}

/// The value with a new part at the positions; the value as it was where they lead outside.
#[cycle(replacement)]
pub fn with_part(value: Value, positions: &[usize], new: Value) -> Value
    ensures { result ≡ replaced positions.now new value }
{
    match positions {
        [] => new,
        [k, rest @ ..] => match value {
            Value::Number(n) => Value::Number(n),
            Value::Parts(parts) => {
                let mut parts = parts.into_vec();
                put(&mut parts, *k, rest, new);
                Value::Parts(List::from_vec(parts))
            }
        },
    }
}

/// Puts a new value at the positions in one of the values; changes nothing where they lead outside.
#[cycle(replacement)]
pub fn put(values: &mut Vec<Value>, k: usize, rest: &[usize], new: Value)
    ensures { values.new.items ≡ with_element_at k rest.now new values.old.items }
{
    if k < values.len() {
        let old = mem::replace(&mut values[k], Value::Number(0));
        values[k] = with_part(old, rest, new);
    }
}
