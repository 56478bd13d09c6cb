//! The structs of a file by name, and where one of them fails first.

ghost use Rattle.std.specs.Prelude.{◌≡◌, IfOk, List, map, OnOk, option_map, ℕ};
ghost use Rattle.bl_ctext_semantics.specs.inner.Checked.{checked_structs, members_in_map};
ghost use Rattle.bl_ctext_semantics.specs.Faults.{first_place, member_table, struct_faults_after, struct_table};
ghost use Rattle.bl_ctext_semantics.specs.Tables.{no_entries, table_of, with_entry};

use crate::check::context::{Members, Structs};
use crate::check::first::earlier;
use crate::check::structs::{judge_struct, struct_depth};
use crate::maps::{Numbers, add, has};
use bl_tree::c::{CMember, CStruct};
use bl_tree::{NoMemory, Place};
use std::alloc::Global;
use std::collections::HashMap;

/// The structs of a file.
#[derive(Drop)]
pub struct Declared<'a> {
    pub structs: Structs<'a>,
    /// Where one of them fails first.
    pub first: Option<Place>,
}

fn member_map<'a>(alloc: Global, members: &'a [CMember]) -> Result<Members<'a>, NoMemory>
    ensures { IfOk result (λ found. (asked : List ℕ) → members_in_map found asked ≡ table_of (map (λ m. (m.name, m)) members.now) asked) }
{
    let mut by_name = HashMap::new(alloc);
    for member in members {
        add(&mut by_name, member.name.as_str(), member)?;
    }
    Ok(by_name)
}

fn add_struct<'a>(alloc: Global, structs: &mut Structs<'a>, of: &'a CStruct) -> Result<(), NoMemory>
    ensures { OnOk result ((asked : List ℕ) → checked_structs structs.new asked
        ≡ with_entry (checked_structs structs.old) of.now.name (member_table of.now) asked) }
{
    if has(structs, &of.name) {
        return Ok(());
    }
    let members = member_map(alloc, &of.members)?;
    match structs.insert(of.name.as_str(), members) {
        Ok(_) => Ok(()),
        Err(_) => Err(NoMemory),
    }
}

/// The structs of a file, and where one of them fails first.
pub fn declare_structs<'a>(alloc: Global, list: &'a [CStruct]) -> Result<Declared<'a>, NoMemory>
    ensures table { IfOk result (λ declared. (asked : List ℕ) → checked_structs declared.structs asked ≡ struct_table list.now asked) }
    ensures first { IfOk result (λ declared. declared.first ≡ first_place (struct_faults_after no_entries no_entries list.now)) }
{
    let mut structs = HashMap::new(alloc);
    let mut depths: Numbers<'a> = HashMap::new(alloc);
    let mut first = None;
    for of in list {
        let here = judge_struct(alloc, &structs, &depths, of)?;
        let depth = struct_depth(&depths, of);
        first = earlier(first, here);
        add(&mut depths, of.name.as_str(), depth)?;
        add_struct(alloc, &mut structs, of)?;
    }
    Ok(Declared { structs, first })
}
