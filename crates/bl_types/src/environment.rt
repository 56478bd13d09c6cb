//! What the names before a place of the text stand for.

ghost use Rattle.std.specs.Prelude.{◌≡◌, IfOk};
ghost use Rattle.bl_types.specs.Programs.{fresh, known_before};

use crate::failure::Notes;
use crate::structs::Structs;
use bl_tree::tree::{Role, StructDef, Ty, Unit, UnitKind};
use bl_tree::{List, NoMemory, Place, Scalar, Text};
use std::alloc::Global;

/// What a `const` stands for.
#[derive(Clone, Copy, PartialEq, Eq, Debug)]
pub struct Constant {
    /// Its type, unless its value has none or that isn't scalar.
    pub ty: Option<Scalar>,
    /// Its number, and 0 where it has none.
    pub value: i128,
}

/// A parameter, a `var` or a `let`.
#[derive(Drop)]
pub struct Variable {
    pub name: Text,
    /// That of the name.
    pub place: Place,
    /// Its type, unless it takes that of a value that has none.
    pub ty: Option<Ty>,
    pub role: Role,
}

/// What the names before a place of the text stand for, by their positions.
#[derive(Drop)]
pub struct Environment {
    pub structs: Structs,
    pub constants: List<Constant>,
    pub units: List<Unit>,
    /// The variables of the unit in which the place stands.
    pub vars: List<Variable>,
    /// Whether that unit is a function or an activity.
    pub kind: UnitKind,
    /// The type of its result.
    pub result: Option<Scalar>,
}

impl Environment {
    /// Before a program that stands alone.
    pub fn new(alloc: Global) -> Environment
        ensures { result ≡ fresh }
    {
        Environment {
            structs: Structs::new(alloc),
            constants: List::new(alloc),
            units: List::new(alloc),
            vars: List::new(alloc),
            kind: UnitKind::Function,
            result: None,
        }
    }

    /// Before a program that stands behind these. Of a unit its head alone is used. Fails only for want of memory.
    pub fn behind(
        alloc: Global,
        structs: List<StructDef>,
        constants: List<Constant>,
        units: List<Unit>,
    ) -> Result<Environment, NoMemory>
        ensures { IfOk result (λ env. env ≡ known_before structs constants units) }
    {
        let structs = Structs::of(alloc, structs)?;
        Ok(Environment {
            structs,
            constants,
            units,
            vars: List::new(alloc),
            kind: UnitKind::Function,
            result: None,
        })
    }

    /// A copy of the constants. Fails only for want of memory.
    pub fn copied_constants(&self, alloc: Global) -> Result<List<Constant>, NoMemory>
        ensures { IfOk result (λ constants. constants ≡ self.now.constants) }
    {
        let copied = Vec::from_slice(alloc, self.constants.as_slice())?;
        Ok(List::from_vec(copied))
    }
}

/// What is known on the way through a program.
#[derive(Drop)]
pub struct State {
    pub env: Environment,
    pub notes: Notes,
}

/// What is known at the end of a program, with what was known before it.
#[derive(Drop)]
pub struct Known {
    pub structs: List<StructDef>,
    /// The constants that stand among the items, and so in no body of a unit.
    pub globals: List<Constant>,
    pub units: List<Unit>,
}

/// The structs and units of a program with their types.
#[derive(Drop)]
pub struct Typed {
    pub structs: List<StructDef>,
    pub units: List<Unit>,
    /// The position of the first unit that is marked as the entry, and 0 where none is.
    pub entry: u32,
}
