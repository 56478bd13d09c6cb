//! Structs: which are declared, and where one of them fails.
#![tactic(auto, using(crate::proofs::FirstLemmas::places))]

ghost use Rattle.std.specs.Prelude.{◌≡◌, ◌+◌, IfOk, is_some, map};
ghost use Rattle.std.specs.List.{list_all};
ghost use Rattle.bl_tree.specs.Reduce.{greatest};
ghost use Rattle.bl_ctext_semantics.specs.inner.Checked.{checked_structs};
ghost use Rattle.bl_ctext_semantics.specs.Faults.{are_ports as are_c_ports, depth_of_struct, depth_of_type, faults_in_struct, first_place};
ghost use Rattle.bl_ctext_semantics.specs.Faults.{interface_fits as c_interface_fits, is_declared as is_c_declared, is_pad as is_c_pad};
ghost use Rattle.bl_ctext_semantics.specs.Faults.{is_port as is_c_port, limited as limited_length};
ghost use Rattle.bl_ctext_semantics.specs.inner.Maps.{bytes_of, text_at};

use crate::check::context::Structs;
use crate::check::first::{both, earlier, unless};
use crate::check::names::{add_name, differ};
use crate::check::types::{Ty, is_scalar, same_type};
use crate::maps::{Numbers, has, number_of};
use bl_tree::c::{CMember, CStruct, CType};
use bl_tree::{NoMemory, Place, Scalar, Width};
use std::alloc::Global;

/// Whether there is a struct of this name.
#[tactic(auto, using(crate::proofs::MapLemmas::some_mapped))]
pub fn has_struct(structs: &Structs<'_>, name: &str) -> bool
    ensures { result ≡ is_some (checked_structs structs.now name.now) }
{
    has(structs, name)
}

/// Whether the struct of a type, if it is one, is among these.
pub fn is_declared(structs: &Structs<'_>, ty: &CType) -> bool
    ensures { result ≡ is_c_declared (checked_structs structs.now) ty.now }
{
    match ty {
        CType::Scalar(_) => true,
        CType::Struct(name) => has_struct(structs, name),
    }
}

fn members_are_declared(structs: &Structs<'_>, members: &[CMember]) -> bool
    ensures { result ≡ list_all (λ m. is_c_declared (checked_structs structs.now) m.ty) members.now }
{
    let mut declared = true;
    for member in members {
        declared = both(declared, is_declared(structs, &member.ty));
    }
    declared
}

/// The longest chain of structs that a type heads.
fn depth_of(depths: &Numbers<'_>, ty: &CType) -> u64
    ensures { result ≡ depth_of_type (text_at depths.now) ty.now }
{
    match ty {
        CType::Scalar(_) => 0,
        CType::Struct(name) => number_of(depths, name),
    }
}

fn greatest_depth(depths: &Numbers<'_>, members: &[CMember]) -> u64
    ensures { result ≡ greatest (map (λ m. depth_of_type (text_at depths.now) m.ty) members.now) }
{
    let mut greatest = 0u64;
    for member in members {
        greatest = greatest.max(depth_of(depths, &member.ty));
    }
    greatest
}

/// The length of a chain with one more at its head, where more than 300 counts as 301.
pub fn one_longer(length: u64) -> u64
    ensures { result ≡ limited_length (1 + length) }
{
    if length < 300 { length + 1 } else { 301 }
}

/// The longest chain of structs that a struct heads.
pub fn struct_depth(depths: &Numbers<'_>, of: &CStruct) -> u64
    ensures { result ≡ depth_of_struct (text_at depths.now) of.now }
{
    one_longer(greatest_depth(depths, &of.members))
}

fn member_names<'a>(alloc: Global, members: &'a [CMember]) -> Result<Vec<&'a str>, NoMemory>
    ensures { IfOk result (λ names. bytes_of names.items ≡ map (λ m. m.name) members.now) }
{
    let mut names = Vec::new(alloc);
    for member in members {
        add_name(&mut names, &member.name)?;
    }
    Ok(names)
}

fn is_pad(member: &CMember) -> bool
    ensures { result ≡ is_c_pad member.now }
{
    let byte = Ty::Scalar(Scalar::Nat(Width::W8));
    member.name.as_str() == "pad" && same_type(Ty::of(&member.ty), byte) && member.length.is_none()
}

fn is_port(prefix: &str, member: &CMember) -> bool
    ensures { result ≡ is_c_port prefix.now member.now }
{
    let name = member.name.as_str();
    let named = both(
        name.as_bytes().starts_with(prefix.as_bytes()),
        prefix.len() < name.len(),
    );
    both(
        named,
        both(is_scalar(Ty::of(&member.ty)), member.length.is_none()),
    )
}

fn all_are_ports(prefix: &str, members: &[CMember]) -> bool
    ensures { result ≡ list_all (is_c_port prefix.now) members.now }
{
    let mut ports = true;
    for member in members {
        ports = both(ports, is_port(prefix, member));
    }
    ports
}

fn are_ports(prefix: &str, members: &[CMember]) -> bool
    ensures { result ≡ are_c_ports prefix.now members.now }
{
    match members {
        [] => false,
        [first, ports @ ..] => both(is_pad(first), all_are_ports(prefix, ports)),
    }
}

/// Whether a struct's members are those of an interface struct, where its name is one's.
fn interface_fits(of: &CStruct) -> bool
    ensures { result ≡ c_interface_fits of.now }
{
    match of.name.as_str() {
        "bl_in" => are_ports("i_", &of.members),
        "bl_out" => are_ports("o_", &of.members),
        _ => true,
    }
}

/// Where a struct fails, after these.
pub fn judge_struct<'a>(
    alloc: Global,
    structs: &Structs<'a>,
    depths: &Numbers<'a>,
    of: &'a CStruct,
) -> Result<Option<Place>, NoMemory>
    ensures { IfOk result (λ first. first ≡ first_place (faults_in_struct (checked_structs structs.now) (text_at depths.now) of.now)) }
{
    let at = of.place;
    let names = member_names(alloc, &of.members)?;
    let apart = differ(alloc, &names)?;
    let shallow = struct_depth(depths, of) <= 300;
    let last = earlier(unless(shallow, at), unless(interface_fits(of), at));
    let inside = earlier(
        unless(members_are_declared(structs, &of.members), at),
        earlier(unless(apart, at), last),
    );
    Ok(earlier(unless(!has_struct(structs, &of.name), at), inside))
}
