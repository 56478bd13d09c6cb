//! Maps with names as keys.

ghost use Rattle.std.specs.Prelude.{◌≡◌, is_some, List, OnOk, ℕ};
ghost use Rattle.std.specs.Option.{option_or};
ghost use Rattle.bl_ctext_semantics.specs.inner.Maps.{named_entries, text_at};
ghost use Rattle.bl_ctext_semantics.specs.Tables.{entry_or, found, with_entry};

use bl_tree::NoMemory;
use std::alloc::Global;
use std::collections::HashMap;

/// A number for each name that is known; 0 stands for the others.
pub type Numbers<'a> = HashMap<&'a str, u64>;

/// What stands under a name.
pub fn find<'a, V: Copy>(map: &HashMap<&'a str, V>, name: &str) -> Option<V>
    ensures { result ≡ text_at map.now name.now }
{
    map.get(&name).copied()
}

/// Whether something stands under a name.
pub fn has<'a, V>(map: &HashMap<&'a str, V>, name: &str) -> bool
    ensures { result ≡ is_some (text_at map.now name.now) }
{
    map.contains_key(&name)
}

/// Adds an entry, unless the name has one.
pub fn add<'a, V: Copy>(
    map: &mut HashMap<&'a str, V>,
    name: &'a str,
    value: V,
) -> Result<(), NoMemory>
    ensures { OnOk result ((asked : List ℕ) → text_at map.new asked ≡ with_entry (text_at map.old) name.now value asked) }
{
    if map.contains_key(&name) {
        return Ok(());
    }
    match map.insert(name, value) {
        Ok(_) => Ok(()),
        Err(_) => Err(NoMemory),
    }
}

/// Adds the entries of a list in order, the first of each name.
pub fn fill<'a, V: Copy>(
    map: &mut HashMap<&'a str, V>,
    entries: &[(&'a str, V)],
) -> Result<(), NoMemory>
    ensures { OnOk result ((asked : List ℕ) → text_at map.new asked ≡ option_or (text_at map.old asked) (found asked (named_entries entries.now))) }
{
    for (name, value) in entries {
        add(map, name, *value)?;
    }
    Ok(())
}

/// The number of a name.
pub fn number_of(numbers: &Numbers<'_>, name: &str) -> u64
    ensures { result ≡ entry_or 0 (text_at numbers.now) name.now }
{
    find(numbers, name).unwrap_or(0)
}
