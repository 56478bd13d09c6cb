//! What is known where an expression or statement stands.

ghost use Rattle.std.specs.Prelude.{◌≡◌, option_and_then, option_map};
ghost use Rattle.bl_ctext_semantics.specs.Sizes.{size_of_type};
ghost use Rattle.bl_ctext_semantics.specs.Tables.{entry_or};
ghost use Rattle.bl_ctext_semantics_laws.specs.Layout.{capped};
ghost use Rattle.bl_ctext_semantics_laws.specs.Reaching.{laid_in};
ghost use Rattle.bl_crun_code_layout.specs.Views.{ground_of, laid_of, sizes_in, structs_in};

use bl_ctext_semantics::Builtins;
use bl_ctext_semantics::maps::{Numbers, find};
use bl_tree::c::{CMember, CType};
use std::alloc::Global;
use std::collections::HashMap;

/// A member, and how many cells of its struct stand before it.
#[derive(Clone, Copy)]
pub struct Laid<'a> {
    pub at: usize,
    pub it: &'a CMember,
}

/// A parameter or local: how many cells of its frame stand before it, and the type of what it has or leads to.
#[derive(Clone, Copy)]
pub struct Slot<'a> {
    pub at: usize,
    pub pointer: bool,
    pub ty: &'a CType,
}

/// The position of a function's first instruction, and how many cells its frame has.
#[derive(Clone, Copy)]
pub struct Entry {
    pub entry: u32,
    pub frame: u32,
}

/// The members of a struct by name.
pub type Members<'a> = HashMap<&'a str, Laid<'a>>;

/// How many scalars each struct has, where a number that 64 bits can't hold is told as the greatest that they can.
pub type Sizes<'a> = Numbers<'a>;

/// What is known where an expression or statement stands.
#[derive(Clone, Copy)]
pub struct Here<'c, 'a> {
    pub alloc: Global,
    pub builtins: &'c Builtins,
    pub sizes: &'c Sizes<'a>,
    pub structs: &'c HashMap<&'a str, Members<'a>>,
    /// The earlier functions.
    pub known: &'c HashMap<&'a str, Entry>,
    pub slots: &'c HashMap<&'a str, Slot<'a>>,
    /// How many cells the running function's frame has.
    pub frame: u32,
}

/// How many cells a value of a type has.
pub fn type_size(sizes: &Sizes<'_>, ty: &CType) -> usize
    ensures { result ≡ size_of_type (sizes_in sizes.now) ty.now }
{
    match ty {
        CType::Scalar(_) => 1,
        CType::Struct(name) => struct_size(sizes, name),
    }
}

/// How many cells a struct has; 0 where it isn't known.
pub fn struct_size(sizes: &Sizes<'_>, name: &str) -> usize
    ensures { result ≡ entry_or 0 (sizes_in sizes.now) name.now }
{
    let size = find(sizes, name).unwrap_or(0);
    size.min(4_294_967_295) as usize
}

/// A member of a struct, where both are known.
fn member_of<'a>(
    structs: &HashMap<&'a str, Members<'a>>,
    owner: &str,
    name: &str,
) -> Option<Laid<'a>>
    ensures { option_map laid_of result ≡ option_and_then (λ members. members name.now) (structs_in structs.now owner.now) }
{
    match structs.get(&owner) {
        Some(members) => find(members, name),
        None => None,
    }
}

impl<'c, 'a> Here<'c, 'a> {
    /// A member of a type, where it is a struct that has one of this name.
    pub fn member(&self, ty: Option<&CType>, name: &str) -> Option<Laid<'a>>
        ensures { option_map laid_of result ≡ laid_in (ground_of self.now) (option_map (λ t. t.now) ty.entry) name.now }
    {
        match ty {
            Some(CType::Struct(owner)) => member_of(self.structs, owner, name),
            _ => None,
        }
    }
}
