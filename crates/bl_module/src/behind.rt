//! What is declared before a text, as the rules see it.

ghost use Rattle.std.specs.Prelude.{◌≡◌, OnOk};
ghost use Rattle.bl_module.specs.Behind.{with_constant, with_struct, with_unit};

use crate::made::heading_of;
use bl_names_scopes::heading::Heading;
use bl_names_scopes::kind::{Kind, of_unit};
use bl_tree::tree::{StructDef, Unit};
use bl_tree::{List, NoMemory, Scalar, Text};
use bl_types::Constant;
use std::alloc::Global;

/// What the items of faces declare, in their order. A unit has its head alone, and no body.
#[derive(Drop)]
pub struct Behind {
    /// All names, each with its kind.
    pub headings: List<Heading>,
    pub structs: List<StructDef>,
    pub constants: List<Constant>,
    pub units: List<Unit>,
}

impl Behind {
    /// Declares a struct.
    pub fn push_struct(
        &mut self,
        alloc: Global,
        name: &Text,
        def: StructDef,
    ) -> Result<(), NoMemory>
        ensures { OnOk result (self.new ≡ with_struct name.now def self.old) }
    {
        self.headings.push(heading_of(alloc, name, Kind::Struct)?)?;
        self.structs.push(def)?;
        Ok(())
    }

    /// Declares a constant.
    pub fn push_constant(
        &mut self,
        alloc: Global,
        name: &Text,
        of: Scalar,
        value: i128,
    ) -> Result<(), NoMemory>
        ensures { OnOk result (self.new ≡ with_constant name.now of value self.old) }
    {
        self.headings
            .push(heading_of(alloc, name, Kind::Constant)?)?;
        self.constants.push(Constant {
            ty: Some(of),
            value,
        })?;
        Ok(())
    }

    /// Declares the head of a unit.
    pub fn push_unit(&mut self, alloc: Global, name: &Text, unit: Unit) -> Result<(), NoMemory>
        ensures { OnOk result (self.new ≡ with_unit name.now unit self.old) }
    {
        self.headings
            .push(heading_of(alloc, name, of_unit(unit.kind))?)?;
        self.units.push(unit)?;
        Ok(())
    }
}
