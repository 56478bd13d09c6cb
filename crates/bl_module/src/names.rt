//! What the names stand for that faces declare.

ghost use Rattle.std.specs.Prelude.{◌≡◌, None, true, IfOk, OnOk};
ghost use Rattle.bl_module.specs.Names.{are_new, is_new, referent_of, with_fields, with_name};

use bl_face::FaceField;
use bl_tree::NoMemory;
use indexmap::IndexMap;
use std::alloc::Global;
use std::marker::Model;

/// What a name stands for.
#[derive(Clone, Copy, PartialEq, Eq, Debug)]
pub enum Referent {
    /// A struct: its position among those of all faces, and how deep it is nested.
    Struct(u32, u32),
    /// What is no type: a constant, a unit, a field or a parameter.
    Other,
}

/// Names that are declared so far, each once.
#[derive(Drop)]
pub struct Names<'a> {
    map: IndexMap<&'a str, Referent>,
}

impl<'a> Model for Names<'a> {
    ghost use Rattle.bl_module.specs.Names.{DeclaredNames, names_of_map};

    ghost Value = { DeclaredNames };

    ghost view = { λ names. names_of_map names.map.entries };
}

impl<'a> Names<'a> {
    ghost use Rattle.std.specs.Prelude.{[]};

    /// No names.
    pub fn new(alloc: Global) -> Names<'a>
        ensures { result ≡ [] }
    {
        Names {
            map: IndexMap::new(alloc),
        }
    }

    /// What the name stands for.
    pub fn find(&self, name: &str) -> Option<Referent>
        ensures { result ≡ referent_of self.now name.now }
    {
        self.map.get(&name).copied()
    }

    /// Whether the name isn't declared.
    pub fn is_new(&self, name: &str) -> bool
        ensures { result ≡ is_new self.now name.now }
    {
        self.find(name).is_none()
    }

    /// Declares a name that is new.
    pub fn add(&mut self, name: &'a str, referent: Referent) -> Result<(), NoMemory>
        requires { referent_of self.old name.now ≡ None }
        ensures { OnOk result (self.new ≡ with_name self.old name.now referent) }
    {
        match self.map.insert(name, referent) {
            Ok(_) => Ok(()),
            Err(_) => Err(NoMemory),
        }
    }

    /// Declares the names of fields or parameters, where they are new and differ. The answer is whether they are and do.
    pub fn add_fields(&mut self, fields: &'a [FaceField]) -> Result<bool, NoMemory>
        ensures new { IfOk result (λ all. all ≡ are_new self.old fields.now) }
        ensures names { IfOk result (λ all. all ≡ true → self.new ≡ with_fields self.old fields.now) }
    {
        for field in fields {
            if !self.add_field(field.name.as_str())? {
                return Ok(false);
            }
        }
        Ok(true)
    }

    /// Declares one name, where it is new.
    fn add_field(&mut self, name: &'a str) -> Result<bool, NoMemory>
        ensures new { IfOk result (λ new. new ≡ is_new self.old name.now) }
        ensures names { IfOk result (λ new. new ≡ true → self.new ≡ with_name self.old name.now Referent.Other) }
    {
        if !self.is_new(name) {
            return Ok(false);
        }
        self.add(name, Referent::Other)?;
        Ok(true)
    }
}
