//! What is made on the way through a program.

ghost use Rattle.std.specs.Prelude.{◌≡◌, ◌++◌, ◌∷◌, [], IfOk, OnOk};
ghost use Rattle.bl_names_scopes.specs.Marks.{declares};
ghost use Rattle.bl_names_scopes.specs.Scopes.{enter};
ghost use Rattle.bl_names.specs.Named.{empty_struct, empty_unit, zero_constant};
ghost use Rattle.bl_names.specs.inner.Past.{begun, with_blank, with_constant, with_heading, with_variable};

use crate::expr::copy_of;
use bl_names_scopes::heading::Heading;
use bl_names_scopes::kind::Kind;
use bl_names_scopes::scopes::Scopes;
use bl_names_tree::expr::{NamedExpr, NamedExprKind};
use bl_names_tree::item::{NamedConstant, NamedStruct, NamedUnit, NamedVar};
use bl_parse_tree::name::Name;
use bl_tree::tree::UnitKind;
use bl_tree::{List, NoMemory};
use std::alloc::Global;

/// The open scopes, what is made of the program so far, and the variables of its unit so far.
#[derive(Drop)]
pub struct State<'a> {
    pub scopes: Scopes<'a>,
    pub structs: List<NamedStruct>,
    pub constants: List<NamedConstant>,
    pub units: List<NamedUnit>,
    pub vars: List<NamedVar>,
}

impl<'a> State<'a> {
    /// At the start of a program behind headings.
    pub fn behind(alloc: Global, headings: &'a [Heading]) -> Result<State<'a>, NoMemory>
        ensures { IfOk result (λ state. state ≡ begun headings.now) }
    {
        let mut state = State::new(alloc);
        for heading in headings {
            state.add_heading(alloc, heading)?;
        }
        Ok(state)
    }

    fn new(alloc: Global) -> State<'a>
        ensures { result ≡ begun [] }
    {
        State {
            scopes: Scopes::new(alloc),
            structs: List::new(alloc),
            constants: List::new(alloc),
            units: List::new(alloc),
            vars: List::new(alloc),
        }
    }

    fn add_heading(&mut self, alloc: Global, heading: &'a Heading) -> Result<(), NoMemory>
        ensures { OnOk result (self.new ≡ with_heading self.old heading.now) }
    {
        self.scopes.declare(&heading.name, heading.kind)?;
        self.add_blank(alloc, heading.kind, &heading.name)
    }

    /// Something without parts stands for a heading, so that each item has its position behind it.
    fn add_blank(&mut self, alloc: Global, kind: Kind, name: &Name) -> Result<(), NoMemory>
        ensures { OnOk result (self.new ≡ with_blank kind name.now self.old) }
    {
        match kind {
            Kind::Struct => self.structs.push(empty_struct(alloc, name)?)?,
            Kind::Constant => self.constants.push(zero_constant(alloc, name)?)?,
            Kind::Function => self
                .units
                .push(empty_unit(alloc, UnitKind::Function, name)?)?,
            Kind::Activity => self
                .units
                .push(empty_unit(alloc, UnitKind::Activity, name)?)?,
            Kind::Variable | Kind::Field => {}
        }
        Ok(())
    }

    /// Declares a variable, and answers its position.
    pub fn declare_variable(&mut self, name: &'a Name, var: NamedVar) -> Result<u32, NoMemory>
        ensures position { IfOk result (λ k. k ≡ self.old.scopes.counts.variables) }
        ensures declares { OnOk result (self.new ≡ with_variable self.old name.now var) }
    {
        let position = self.scopes.next(Kind::Variable);
        self.vars.push(var)?;
        self.scopes.declare(name, Kind::Variable)?;
        Ok(position)
    }

    /// Declares a constant, and answers its position.
    pub fn declare_constant(
        &mut self,
        name: &'a Name,
        constant: NamedConstant,
    ) -> Result<u32, NoMemory>
        ensures position { IfOk result (λ k. k ≡ self.old.scopes.counts.constants) }
        ensures declares { OnOk result (self.new ≡ with_constant self.old name.now constant) }
    {
        let position = self.scopes.next(Kind::Constant);
        self.constants.push(constant)?;
        self.scopes.declare(name, Kind::Constant)?;
        Ok(position)
    }
}

fn empty_struct(alloc: Global, name: &Name) -> Result<NamedStruct, NoMemory>
    ensures { IfOk result (λ made. made ≡ empty_struct name.now) }
{
    Ok(NamedStruct {
        name: copy_of(alloc, name)?,
        fields: List::new(alloc),
    })
}

fn zero_constant(alloc: Global, name: &Name) -> Result<NamedConstant, NoMemory>
    ensures { IfOk result (λ made. made ≡ zero_constant name.now) }
{
    Ok(NamedConstant {
        name: copy_of(alloc, name)?,
        ty: None,
        value: NamedExpr {
            place: name.place,
            what: NamedExprKind::Number(false, 0),
        },
    })
}

fn empty_unit(alloc: Global, kind: UnitKind, name: &Name) -> Result<NamedUnit, NoMemory>
    ensures { IfOk result (λ made. made ≡ empty_unit kind name.now) }
{
    Ok(NamedUnit {
        entry: false,
        kind,
        name: copy_of(alloc, name)?,
        vars: List::new(alloc),
        inputs: 0,
        outputs: 0,
        result: None,
        body: List::new(alloc),
    })
}
