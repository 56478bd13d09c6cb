//! The structs of a program, and where their fields stand by their names.

ghost use Rattle.std.specs.HashMap.{get_by_text};
ghost use Rattle.std.specs.Prelude.{◌≡◌, ◌++◌, ◌∷◌, [], ℕ, List as Elements, IfOk, OnOk, Some, bytes_eq, cond};
ghost use Rattle.std.specs.Prelude.{length, option_map, string_bytes};
ghost use Rattle.bl_tree.specs.declared.tree.Ty.{out-Ty};
ghost use Rattle.bl_types.specs.Expressions.{field_among, field_in};
ghost use Rattle.bl_types.specs.inner.Fields.{IndexesFields};

use bl_tree::slices::element;
use bl_tree::tree::{Field, StructDef, Ty};
use bl_tree::{List, NoMemory};
use std::alloc::{AllocError, Global};
use std::collections::HashMap;
use std::marker::Model;

/// A field of a struct.
#[derive(Clone, Copy)]
pub struct FieldAt<'a> {
    pub position: usize,
    pub ty: &'a Ty,
}

/// A struct, with the positions of its fields by their names.
#[derive(Drop)]
struct Indexed {
    def: StructDef,
    by_name: HashMap<String, usize>,
    ghost tells: { IndexesFields by_name def.fields },
}

impl Indexed {
    fn new(alloc: Global, def: StructDef) -> Result<Indexed, NoMemory>
        ensures { IfOk result (λ known. known.def ≡ def) }
    {
        let by_name = positions(alloc, &def.fields)?;
        Ok(Indexed { def, by_name })
    }

    fn field(&self, name: &str) -> Option<FieldAt<'_>>
        ensures { option_map (λ field. record { position = field.position; ty = field.ty.now }) result ≡ field_among name.now self.now.def.fields 0 }
    {
        let position = *self.by_name.get(name)?;
        let field = element(&self.def.fields, position)?;
        Some(FieldAt {
            position,
            ty: &field.ty,
        })
    }
}

/// The positions of fields by their names, that of the first where several have one name.
fn positions(alloc: Global, fields: &[Field]) -> Result<HashMap<String, usize>, NoMemory>
    ensures { IfOk result (λ by_name. IndexesFields by_name fields.now) }
{
    let mut by_name = HashMap::new(alloc);
    for k in (0..fields.len()).rev() {
        let name = String::from_str(alloc, &fields[k].name)?;
        put(&mut by_name, name, k)?;
    }
    Ok(by_name)
}

/// From now on the name stands for the position.
fn put(by_name: &mut HashMap<String, usize>, name: String, position: usize) -> Result<(), NoMemory>
    ensures { OnOk result ((q : Elements ℕ) → get_by_text by_name.new q
        ≡ cond (bytes_eq (string_bytes name) q) (Some position) (get_by_text by_name.old q)) }
{
    match by_name.insert(name, position) {
        Ok(_) => Ok(()),
        Err(e) => Err(AllocError::from(e).into()),
    }
}

/// The structs of a program, which contracts see as a list.
#[derive(Drop)]
pub struct Structs {
    all: List<Indexed>,
}

impl Model for Structs {
    ghost use Rattle.std.specs.Prelude.{List, map};
    ghost use Rattle.std.specs.Coded.{codes};
    ghost use Rattle.bl_tree.specs.contracts.tree.Ty as ty;
    ghost use Rattle.bl_tree.specs.declared.tree.StructDef.{StructDef};

    ghost Value = { List StructDef };

    ghost coded = { Prim.hlevel (codes, ty.the_row.coded) };

    ghost view = { λ structs. map (λ known. known.def) structs.all };
}

impl Structs {
    pub fn new(alloc: Global) -> Structs
        ensures { result ≡ [] }
    {
        Structs {
            all: List::new(alloc),
        }
    }

    /// Fails only for want of memory.
    pub fn of(alloc: Global, list: List<StructDef>) -> Result<Structs, NoMemory>
        ensures { IfOk result (λ structs. structs ≡ list) }
    {
        let mut structs = Structs::new(alloc);
        for def in list.into_vec() {
            structs.push(alloc, def)?;
        }
        Ok(structs)
    }

    pub fn len(&self) -> usize
        ensures { result ≡ length self.now }
    {
        self.all.len()
    }

    /// Fails only for want of memory.
    pub fn push(&mut self, alloc: Global, def: StructDef) -> Result<(), NoMemory>
        ensures { OnOk result (self.new ≡ self.old ++ def ∷ []) }
    {
        let known = Indexed::new(alloc, def)?;
        self.all.push(known)?;
        Ok(())
    }

    /// The field of the name in a type, where that is a struct that has one.
    pub fn field_in(&self, name: &str, ty: &Ty) -> Option<FieldAt<'_>>
        ensures { option_map (λ field. record { position = field.position; ty = field.ty.now }) result ≡ field_in self.now name.now (out-Ty ty.now) }
    {
        match ty {
            Ty::Struct(s) => match element(&self.all, *s as usize) {
                Some(known) => known.field(name),
                None => None,
            },
            _ => None,
        }
    }

    /// Fails only for want of memory.
    pub fn into_list(self, alloc: Global) -> Result<List<StructDef>, NoMemory>
        ensures { IfOk result (λ list. list ≡ self) }
    {
        let mut list = List::new(alloc);
        for known in self.all.into_vec() {
            list.push(known.def)?;
        }
        Ok(list)
    }
}
