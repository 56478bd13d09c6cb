//! The items of faces, one after another: what each declares, and whether it can stand behind those before it.

ghost use Rattle.std.specs.Prelude.{◌≡◌, ◌+◌, ◌≤◌, true, IfOk, OnOk, length};
ghost use Rattle.bl_module.specs.Behind.{after_item, after_items, before_items, fields_depth, item_stands, items_stand};

use crate::behind::Behind;
use crate::item::stands;
use crate::made::{resolved_head, resolved_struct};
use crate::names::{Names, Referent};
use crate::types::fields_depth;
use bl_face::{FaceField, FaceItem};
use bl_tree::tree::UnitKind;
use bl_tree::{List, NoMemory, Scalar, Text};
use std::alloc::Global;

/// What is known behind some items.
#[derive(Drop)]
pub struct Walk<'a> {
    pub names: Names<'a>,
    pub behind: Behind,
}

impl<'a> Walk<'a> {
    /// Before any item.
    pub fn new(alloc: Global) -> Walk<'a>
        ensures { result ≡ before_items }
    {
        Walk {
            names: Names::new(alloc),
            behind: Behind {
                headings: List::new(alloc),
                structs: List::new(alloc),
                constants: List::new(alloc),
                units: List::new(alloc),
            },
        }
    }

    /// Goes on over items, as far as they stand. The answer is whether all do.
    pub fn go_on(&mut self, alloc: Global, items: &'a [FaceItem]) -> Result<bool, NoMemory>
        ensures stand { IfOk result (λ all. all ≡ items_stand self.old items.now) }
        ensures walk { IfOk result (λ all. all ≡ true → self.new ≡ after_items self.old items.now) }
    {
        for item in items {
            if !self.next(alloc, item)? {
                return Ok(false);
            }
        }
        Ok(true)
    }

    /// Goes on over one item, where it stands. The answer is whether it does.
    fn next(&mut self, alloc: Global, item: &'a FaceItem) -> Result<bool, NoMemory>
        ensures stands { IfOk result (λ stands. stands ≡ item_stands self.old.names item.now) }
        ensures walk { IfOk result (λ stands. stands ≡ true → self.new ≡ after_item self.old item.now) }
    {
        if !stands(alloc, &self.names, item)? {
            return Ok(false);
        }
        self.add(alloc, item)?;
        Ok(true)
    }

    /// Declares what an item does that stands.
    fn add(&mut self, alloc: Global, item: &'a FaceItem) -> Result<(), NoMemory>
        requires { item_stands self.old.names item.now ≡ true }
        ensures { OnOk result (self.new ≡ after_item self.old item.now) }
    {
        match item {
            FaceItem::Struct(name, fields) => self.add_struct(alloc, name, fields),
            FaceItem::Constant(name, of, value) => self.add_constant(alloc, name, *of, *value),
            FaceItem::Head(kind, name, inputs, outputs, given) => {
                self.add_unit(alloc, *kind, name, inputs, outputs, *given)
            }
        }
    }

    fn add_struct(
        &mut self,
        alloc: Global,
        name: &'a Text,
        fields: &[FaceField],
    ) -> Result<(), NoMemory>
        requires { item_stands self.old.names (FaceItem.Struct name.now fields.now) ≡ true }
        ensures { OnOk result (self.new ≡ after_item self.old (FaceItem.Struct name.now fields.now)) }
    {
        let def = resolved_struct(alloc, &self.names, name, fields)?;
        let referent = self.next_struct(fields)?;
        self.names.add(name.as_str(), referent)?;
        self.behind.push_struct(alloc, name, def)
    }

    /// What the name of the next struct stands for.
    fn next_struct(&self, fields: &[FaceField]) -> Result<Referent, NoMemory>
        requires { 1 + fields_depth self.now.names fields.now ≤ 100 }
        ensures { IfOk result (λ made. made ≡ Referent.Struct (length self.now.behind.structs) (1 + fields_depth self.now.names fields.now)) }
    {
        let depth = 1 + fields_depth(&self.names, fields) as u32;
        match u32::try_from(self.behind.structs.len()) {
            Ok(position) => Ok(Referent::Struct(position, depth)),
            Err(_) => Err(NoMemory),
        }
    }

    fn add_constant(
        &mut self,
        alloc: Global,
        name: &'a Text,
        of: Scalar,
        value: i128,
    ) -> Result<(), NoMemory>
        requires { item_stands self.old.names (FaceItem.Constant name.now of value) ≡ true }
        ensures { OnOk result (self.new ≡ after_item self.old (FaceItem.Constant name.now of value)) }
    {
        self.names.add(name.as_str(), Referent::Other)?;
        self.behind.push_constant(alloc, name, of, value)
    }

    fn add_unit(
        &mut self,
        alloc: Global,
        kind: UnitKind,
        name: &'a Text,
        inputs: &[FaceField],
        outputs: &[FaceField],
        given: Option<Scalar>,
    ) -> Result<(), NoMemory>
        requires { item_stands self.old.names (FaceItem.Head kind name.now inputs.now outputs.now given) ≡ true }
        ensures { OnOk result (self.new ≡ after_item self.old (FaceItem.Head kind name.now inputs.now outputs.now given)) }
    {
        let unit = resolved_head(alloc, &self.names, kind, name, inputs, outputs, given)?;
        self.names.add(name.as_str(), Referent::Other)?;
        self.behind.push_unit(alloc, name, unit)
    }
}
