//! Lists of names, and which of them stand twice.

ghost use Rattle.std.specs.Prelude.{◌≡◌, [], ◌∷◌, ◌++◌, IfOk, OnOk};
ghost use Rattle.bl_ctext_semantics.specs.inner.Maps.{bytes_of, named_entries, text_at};
ghost use Rattle.bl_ctext_semantics.specs.Faults.{all_distinct, first_place, repeated};
ghost use Rattle.bl_ctext_semantics.specs.Tables.{no_entries};

use crate::check::first::{both, earlier, unless};
use crate::maps::{add, has};
use bl_tree::{NoMemory, Place};
use std::alloc::Global;
use std::collections::HashMap;

/// Adds a name to a list.
pub fn add_name<'a>(names: &mut Vec<&'a str>, name: &'a str) -> Result<(), NoMemory>
    ensures { OnOk result (bytes_of names.new.items ≡ bytes_of names.old.items ++ name.now ∷ []) }
{
    match names.push(name) {
        Ok(()) => Ok(()),
        Err(_) => Err(NoMemory),
    }
}

/// Whether no name of a list stands twice.
pub fn differ<'a>(alloc: Global, names: &[&'a str]) -> Result<bool, NoMemory>
    ensures { IfOk result (λ answer. answer ≡ all_distinct no_entries (bytes_of names.now)) }
{
    let mut seen: HashMap<&'a str, ()> = HashMap::new(alloc);
    let mut answer = true;
    for name in names {
        answer = both(answer, !has(&seen, name));
        add(&mut seen, name, ())?;
    }
    Ok(answer)
}

/// The first place of those whose name stands among these, or earlier in the list.
pub fn first_repeated<'a>(
    seen: &mut HashMap<&'a str, ()>,
    entries: &[(&'a str, Place)],
) -> Result<Option<Place>, NoMemory>
    ensures { IfOk result (λ first. first ≡ first_place (repeated (text_at seen.old) (named_entries entries.now))) }
{
    let mut first = None;
    for (name, at) in entries {
        first = earlier(first, unless(!has(seen, name), *at));
        add(seen, name, ())?;
    }
    Ok(first)
}
