//! Structs by name.

ghost use Rattle.std.specs.Prelude.{◌≡◌, ℕ, List, IfOk};
ghost use Rattle.bl_ctext_semantics.specs.inner.Maps.{text_at};
ghost use Rattle.bl_crun_ports.specs.inner.Spans.{placed_before, struct_position};

use bl_ctext_semantics::maps::{add, find};
use bl_tree::NoMemory;
use bl_tree::c::CStruct;
use std::alloc::Global;
use std::collections::HashMap;

/// Structs, and where the first of each name stands.
#[derive(Drop)]
pub struct Places<'a> {
    pub structs: &'a [CStruct],
    by_name: HashMap<&'a str, usize>,
    ghost complete: { (name : List ℕ) → text_at by_name name ≡ struct_position name structs.now },
}

fn places_of<'a>(alloc: Global, structs: &'a [CStruct]) -> Result<HashMap<&'a str, usize>, NoMemory>
    ensures { IfOk result (λ places. (name : List ℕ) → text_at places name ≡ struct_position name structs.now) }
{
    let mut places = HashMap::new(alloc);
    for k in 0..structs.len() {
        add(&mut places, structs[k].name.as_str(), k)?;
    }
    Ok(places)
}

impl<'a> Places<'a> {
    pub fn new(alloc: Global, structs: &'a [CStruct]) -> Result<Places<'a>, NoMemory>
        ensures { IfOk result (λ places. places.structs.now ≡ structs.now) }
    {
        let by_name = places_of(alloc, structs)?;
        Ok(Places { structs, by_name })
    }

    /// Where the struct of a name stands, if among the first so many.
    pub fn before(&self, end: usize, name: &str) -> Option<usize>
        ensures { result ≡ placed_before end name.now self.now.structs.now }
    {
        match find(&self.by_name, name) {
            Some(at) if at < end => Some(at),
            _ => None,
        }
    }
}
