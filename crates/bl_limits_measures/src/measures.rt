//! The measures of a program, by the positions of its structs and units.

ghost use Rattle.std.specs.Prelude.{◌≡◌, ◌+◌, ◌∷◌, [], ◌++◌, max, List, IfOk, OnOk};
ghost use Rattle.bl_tree.specs.declared.tree.StructDef.{StructDef};
ghost use Rattle.bl_tree.specs.declared.tree.Unit.{Unit as UnitDef};
ghost use Rattle.bl_limits_measures.specs.Saturated.{saturated};
ghost use Rattle.bl_limits_measures.specs.Statements.{cell_statements_of};
ghost use Rattle.bl_limits_measures.specs.Tells.{MeasuresTell};
ghost use Rattle.bl_limits_measures.specs.Types.{nesting, size};
ghost use Rattle.bl_limits_measures.specs.Units.{cells_at, cells_by, cells_with, chain_at, chain_by, greatest_at, instances_at, instances_by, total_at, variables_by};

use crate::calls::calls_of;
use crate::runs::{activities_by_place, activities_run};
use crate::statements::in_block;
use crate::tables::{at, greatest_at, total_at};
use crate::types::{nesting_by, size_by, struct_nestings, struct_sizes};
use bl_tree::tree::{StructDef, Ty, Unit, UnitKind};
use bl_tree::{List, NoMemory, Program};
use std::alloc::Global;

/// What is measured of a program. A number past 64 bits counts as the greatest that they hold.
#[derive(Drop)]
pub struct Measures {
    /// How many scalars each struct has.
    pub struct_sizes: List<u64>,
    /// How deep each struct is nested.
    pub struct_nestings: List<u64>,
    /// How many scalars the variables of each unit have together.
    pub variables: List<u64>,
    /// How many statements each unit has.
    pub statements: List<u64>,
    /// How many activity instances each unit expands to.
    pub instances: List<u64>,
    /// How many units the longest chain has that each unit heads.
    pub chains: List<u64>,
    /// The cells of each unit.
    pub cells: List<u64>,
}

/// A unit and the instances below it, where those of the earlier units are known.
fn instances_by(known: &[u64], runs: &[u32]) -> u64
    ensures { result ≡ saturated (1 + total_at known.now runs.now) }
{
    total_at(known, runs).saturating_add(1)
}

/// A unit and the longest chain behind it, where those of the earlier units are known.
fn chain_by(known: &[u64], calls: &[u32], runs: &[u32]) -> u64
    ensures { result ≡ saturated (1 + max (greatest_at known.now calls.now) (greatest_at known.now runs.now)) }
{
    let called = greatest_at(known, calls);
    let run = greatest_at(known, runs);
    called.max(run).saturating_add(1)
}

/// The sum of the sizes of the unit's variables, where those of the structs are known.
fn variables_by(sizes: &[u64], unit: &Unit) -> u64
    ensures { result ≡ saturated (variables_by sizes.now unit.now) }
{
    let mut size = 0u64;
    for var in unit.vars.iter() {
        size = size.saturating_add(size_by(sizes, &var.ty));
    }
    size
}

/// The cells of a unit, beside those of the activities that it runs and the most of a function that it calls.
fn cells_with(kind: UnitKind, variables: u64, statements: u64, running: u64, calling: u64) -> u64
    ensures { result ≡ saturated (cells_with kind variables statements running calling) }
{
    match kind {
        UnitKind::Function => {
            let own = variables.saturating_mul(2).saturating_add(statements);
            own.saturating_add(1).saturating_add(calling)
        }
        UnitKind::Activity => {
            let own = variables.saturating_add(statements).saturating_mul(4);
            let below = running.saturating_add(calling);
            own.saturating_add(8).saturating_add(below)
        }
    }
}

impl Measures {
    /// The measures of the program. Fails only for want of memory.
    pub fn of(alloc: Global, program: &Program) -> Result<Measures, NoMemory>
        ensures { IfOk result (λ measures. MeasuresTell measures program.now.structs program.now.units) }
    {
        Measures::of_parts(alloc, &program.structs, &program.units)
    }

    /// The measures of structs and units, each by those before it.
    pub fn of_parts(
        alloc: Global,
        structs: &[StructDef],
        units: &[Unit],
    ) -> Result<Measures, NoMemory>
        ensures { IfOk result (λ measures. MeasuresTell measures structs.now units.now) }
    {
        let mut measures = Measures::of_structs(alloc, structs)?;
        for unit in units {
            measures.add(alloc, unit)?;
        }
        Ok(measures)
    }

    /// The measures of structs, without units.
    fn of_structs(alloc: Global, structs: &[StructDef]) -> Result<Measures, NoMemory>
        ensures { IfOk result (λ measures. MeasuresTell measures structs.now []) }
    {
        Ok(Measures {
            struct_sizes: struct_sizes(alloc, structs)?,
            struct_nestings: struct_nestings(alloc, structs)?,
            variables: List::new(alloc),
            statements: List::new(alloc),
            instances: List::new(alloc),
            chains: List::new(alloc),
            cells: List::new(alloc),
        })
    }

    /// Adds the measures of one more unit.
    fn add(&mut self, alloc: Global, unit: &Unit) -> Result<(), NoMemory>
        ensures sizes { OnOk result (self.new.struct_sizes ≡ self.old.struct_sizes) }
        ensures nestings { OnOk result (self.new.struct_nestings ≡ self.old.struct_nestings) }
        ensures variables { OnOk result (self.new.variables ≡ self.old.variables ++ saturated (variables_by self.old.struct_sizes unit.now) ∷ []) }
        ensures statements { OnOk result (self.new.statements ≡ self.old.statements ++ saturated (cell_statements_of unit.now) ∷ []) }
        ensures instances { OnOk result (self.new.instances ≡ self.old.instances ++ saturated (instances_by self.old.instances unit.now) ∷ []) }
        ensures chains { OnOk result (self.new.chains ≡ self.old.chains ++ saturated (chain_by self.old.chains unit.now) ∷ []) }
        ensures cells { OnOk result (self.new.cells ≡ self.old.cells ++ saturated (cells_by self.old.struct_sizes self.old.cells unit.now) ∷ []) }
    {
        let calls = calls_of(alloc, unit)?;
        let runs = activities_run(alloc, unit)?;
        let places = activities_by_place(alloc, unit)?;
        let variables = variables_by(&self.struct_sizes, unit);
        let statements = in_block(&unit.body);
        let running = total_at(&self.cells, &places);
        let calling = greatest_at(&self.cells, &calls);
        let cells = cells_with(unit.kind, variables, statements, running, calling);
        let instances = instances_by(&self.instances, &places);
        let chain = chain_by(&self.chains, &calls, &runs);
        self.variables.push(variables)?;
        self.statements.push(statements)?;
        self.instances.push(instances)?;
        self.chains.push(chain)?;
        self.cells.push(cells)?;
        Ok(())
    }

    /// How many scalars a value of the type has.
    pub fn size(&self, ty: &Ty) -> u64
        ensures { (structs : List StructDef) (units : List UnitDef) → MeasuresTell self.now structs units → result ≡ saturated (size structs ty.now) }
    {
        size_by(&self.struct_sizes, ty)
    }

    /// How deep the type is nested: 0 for a scalar, one more for each array and struct.
    pub fn nesting(&self, ty: &Ty) -> u64
        ensures { (structs : List StructDef) (units : List UnitDef) → MeasuresTell self.now structs units → result ≡ saturated (nesting structs ty.now) }
    {
        nesting_by(&self.struct_nestings, ty)
    }

    /// How many activity instances the unit at the position expands to, itself among them. It is 0 where there is no unit.
    pub fn instances(&self, unit: u32) -> u64
        ensures { (structs : List StructDef) (units : List UnitDef) → MeasuresTell self.now structs units → result ≡ saturated (instances_at units unit) }
    {
        at(&self.instances, unit)
    }

    /// How many units the longest chain has that begins with the unit at the position and in which each calls or runs the
    /// next. It is 0 where there is no unit.
    pub fn chain(&self, unit: u32) -> u64
        ensures { (structs : List StructDef) (units : List UnitDef) → MeasuresTell self.now structs units → result ≡ saturated (chain_at units unit) }
    {
        at(&self.chains, unit)
    }

    /// The cells of the unit at the position, and 0 where there is none.
    pub fn cells(&self, unit: u32) -> u64
        ensures { (structs : List StructDef) (units : List UnitDef) → MeasuresTell self.now structs units
            → result ≡ saturated (cells_at structs units unit) }
    {
        at(&self.cells, unit)
    }
}
