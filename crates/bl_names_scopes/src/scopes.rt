//! The scopes that are open at a place of the text.

ghost use Rattle.std.specs.Prelude.{◌≡◌, ◌+◌, None, IfOk, OnOk, reverse};
ghost use Rattle.bl_names_scopes.specs.Marks.{closes, declares, opens};
ghost use Rattle.bl_names_scopes.specs.Scopes.{bound, bound_around, count_of, counted, declared, enter, file_scope, found, no_counts, nothing};
ghost use Rattle.bl_names_scopes.specs.Scopes.{opened_by, with_name};

use crate::heading::Heading;
use crate::kind::Kind;
use bl_parse_tree::name::Name;
use bl_tree::{NoMemory, Place};
use indexmap::IndexMap;
use std::alloc::Global;
use std::marker::Model;
use std::mem;

/// Where a name is declared, and as what.
#[derive(Clone, Copy, PartialEq, Eq, Debug)]
pub struct Declaration {
    pub kind: Kind,
    pub place: Place,
    /// Among the structs, constants or units of the program, or among the variables of its unit.
    pub position: u32,
}

/// How many structs, constants and units are declared so far, and how many variables since the last unit ended.
#[derive(Clone, Copy, PartialEq, Eq, Debug)]
pub struct Counts {
    pub structs: u32,
    pub constants: u32,
    pub units: u32,
    pub variables: u32,
}

impl Counts {
    fn new() -> Counts
        ensures { result ≡ no_counts }
    {
        Counts {
            structs: 0,
            constants: 0,
            units: 0,
            variables: 0,
        }
    }

    fn of(self, kind: Kind) -> u32
        ensures { result ≡ count_of self kind }
    {
        match kind {
            Kind::Struct => self.structs,
            Kind::Constant => self.constants,
            Kind::Variable => self.variables,
            Kind::Function | Kind::Activity => self.units,
            Kind::Field => 0,
        }
    }

    /// After one more declaration. The number of names of a kind is a position, so more than 2^32 - 1 are no list.
    fn and(self, kind: Kind) -> Result<Counts, NoMemory>
        ensures { IfOk result (λ counts. counts ≡ counted self kind) }
    {
        let counts = self;
        match kind {
            Kind::Struct => Ok(Counts {
                structs: next(self.structs)?,
                ..counts
            }),
            Kind::Constant => Ok(Counts {
                constants: next(self.constants)?,
                ..counts
            }),
            Kind::Variable => Ok(Counts {
                variables: next(self.variables)?,
                ..counts
            }),
            Kind::Function | Kind::Activity => Ok(Counts {
                units: next(self.units)?,
                variables: 0,
                ..counts
            }),
            Kind::Field => Ok(counts),
        }
    }
}

fn next(count: u32) -> Result<u32, NoMemory>
    ensures { IfOk result (λ more. more ≡ count + 1) }
{
    match count.checked_add(1) {
        Some(more) => Ok(more),
        None => Err(NoMemory),
    }
}

/// The names of one scope that are declared so far, each once.
#[derive(Drop)]
pub struct Scope<'a> {
    names: IndexMap<&'a str, Declaration>,
}

impl<'a> Model for Scope<'a> {
    ghost use Rattle.bl_names_scopes.specs.Scopes.{Declared, named};

    ghost Value = { Declared };

    ghost view = { λ scope. named scope.names.entries };
}

impl<'a> Scope<'a> {
    fn new(alloc: Global) -> Scope<'a>
        ensures { result ≡ nothing }
    {
        Scope {
            names: IndexMap::new(alloc),
        }
    }

    fn find(&self, name: &str) -> Option<Declaration>
        ensures { result ≡ found self.now name.now }
    {
        self.names.get(&name).copied()
    }

    /// Declares a name that the scope hasn't.
    fn add(&mut self, name: &'a Name, kind: Kind, position: u32) -> Result<(), NoMemory>
        requires { found self.old name.now.text ≡ None }
        ensures { OnOk result (self.new ≡ with_name self.old name.now kind position) }
    {
        let declaration = Declaration {
            kind,
            place: name.place,
            position,
        };
        match self.names.insert(name.text.as_str(), declaration) {
            Ok(_) => Ok(()),
            Err(_) => Err(NoMemory),
        }
    }

    /// Answers the earlier declaration of the name, where there is one, which stays.
    fn declare(
        &mut self,
        name: &'a Name,
        kind: Kind,
        position: u32,
    ) -> Result<Option<Declaration>, NoMemory>
        ensures earlier { IfOk result (λ earlier. earlier ≡ found self.old name.now.text) }
        ensures declares { OnOk result (self.new ≡ declared (found self.old name.now.text) self.old name.now kind position) }
    {
        match self.find(&name.text) {
            Some(earlier) => Ok(Some(earlier)),
            None => {
                self.add(name, kind, position)?;
                Ok(None)
            }
        }
    }
}

/// The scopes that are open.
#[derive(Drop)]
pub struct Scopes<'a> {
    inner: Scope<'a>,
    /// The scopes around the inner one, from the outside in.
    outer: Vec<Scope<'a>>,
    counts: Counts,
}

impl<'a> Model for Scopes<'a> {
    ghost use Rattle.std.specs.Prelude.{reverse};
    ghost use Rattle.bl_names_scopes.specs.Scopes.{Scopes as OpenScopes};

    ghost Value = { OpenScopes };

    ghost view = { λ scopes. record { inner = scopes.inner; outer = reverse scopes.outer.items; counts = scopes.counts } };
}

impl<'a> Scopes<'a> {
    /// The scope of the file.
    pub fn new(alloc: Global) -> Scopes<'a>
        ensures { result ≡ file_scope }
    {
        Scopes {
            inner: Scope::new(alloc),
            outer: Vec::new(alloc),
            counts: Counts::new(),
        }
    }

    /// The scope of a file behind headings.
    pub fn behind(alloc: Global, headings: &'a [Heading]) -> Result<Scopes<'a>, NoMemory>
        ensures { IfOk result (λ scopes. scopes ≡ opened_by headings.now) }
    {
        let mut scopes = Scopes::new(alloc);
        for heading in headings {
            scopes.declare(&heading.name, heading.kind)?;
        }
        Ok(scopes)
    }

    pub fn open(&mut self, alloc: Global) -> Result<(), NoMemory>
        ensures { OnOk result (self.new ≡ enter self.old opens) }
    {
        let around = mem::replace(&mut self.inner, Scope::new(alloc));
        match self.outer.push(around) {
            Ok(()) => Ok(()),
            Err(_) => Err(NoMemory),
        }
    }

    pub fn close(&mut self, alloc: Global)
        ensures { self.new ≡ enter self.old closes }
    {
        let around = match self.outer.pop() {
            Some(scope) => scope,
            None => Scope::new(alloc),
        };
        drop(mem::replace(&mut self.inner, around));
    }

    /// Answers the earlier declaration of the name in the innermost scope, where there is one, which stays.
    pub fn declare(&mut self, name: &'a Name, kind: Kind) -> Result<Option<Declaration>, NoMemory>
        ensures earlier { IfOk result (λ earlier. earlier ≡ found self.old.inner name.now.text) }
        ensures declares { OnOk result (self.new ≡ enter self.old (declares name.now kind)) }
    {
        let counts = self.counts.and(kind)?;
        let earlier = self.inner.declare(name, kind, self.counts.of(kind))?;
        self.counts = counts;
        Ok(earlier)
    }

    /// The position that the next declaration of the kind has.
    pub fn next(&self, kind: Kind) -> u32
        ensures { result ≡ count_of self.now.counts kind }
    {
        self.counts.of(kind)
    }

    /// What a name stands for.
    pub fn find(&self, name: &str) -> Option<Declaration>
        ensures { result ≡ bound self.now name.now }
    {
        match self.inner.find(name) {
            Some(declaration) => Some(declaration),
            None => find_around(&self.outer, name),
        }
    }
}

fn find_around(outer: &[Scope<'_>], name: &str) -> Option<Declaration>
    ensures { result ≡ bound_around (reverse outer.now) name.now }
{
    for k in (0..outer.len()).rev() {
        if let Some(declaration) = outer[k].find(name) {
            return Some(declaration);
        }
    }
    None
}
