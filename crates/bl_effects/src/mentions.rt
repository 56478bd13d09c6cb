//! Static paths, and what expressions, paths and arguments read.

ghost use Rattle.std.specs.Prelude.{◌≡◌, ◌∷◌, [], ◌++◌, map, IfOk, OnOk, option_map};
ghost use Rattle.bl_tree.specs.Reduce.{joined};
ghost use Rattle.bl_tree.specs.Effects.{argument_mentions, optional_mentions};
ghost use Rattle.bl_tree.specs.Static.{index_mentions, leading_fields, mentions, part_mentions, path_mentions, static_of, step_of};

use bl_tree::tree::{Expr, ExprKind, Part, Path};
use bl_tree::{List, NoMemory, Static};
use std::alloc::Global;

/// The static path of a path. Fails only for want of memory.
pub fn static_of(alloc: Global, path: &Path) -> Result<Static, NoMemory>
    ensures { IfOk result (λ given. given ≡ static_of path.now) }
{
    Ok(Static {
        root: path.root,
        fields: leading_fields(alloc, &path.parts)?,
    })
}

/// The fields up to the first index.
fn leading_fields(alloc: Global, parts: &[Part]) -> Result<List<u32>, NoMemory>
    ensures { IfOk result (λ fields. fields ≡ leading_fields (map step_of parts.now)) }
{
    let mut fields = List::new(alloc);
    for part in parts {
        match part {
            Part::Field(k) => fields.push(*k)?,
            Part::Index(_) => return Ok(fields),
        }
    }
    Ok(fields)
}

/// Appends the static paths of paths.
pub fn statics(alloc: Global, paths: &[Path], into: &mut List<Static>) -> Result<(), NoMemory>
    ensures { OnOk result (into.new ≡ into.old ++ map static_of paths.now) }
{
    for path in paths {
        into.push(static_of(alloc, path)?)?;
    }
    Ok(())
}

/// Appends what an expression reads.
#[cycle(mentions)]
pub fn expr(alloc: Global, e: &Expr, into: &mut List<Static>) -> Result<(), NoMemory>
    ensures { OnOk result (into.new ≡ into.old ++ mentions e.now) }
{
    match &e.what {
        ExprKind::Literal(_, _) | ExprKind::Prev(_) => Ok(()),
        ExprKind::Read(path) => reading(alloc, path, into),
        ExprKind::One(_, a) | ExprKind::Cast(_, a) => expr(alloc, a, into),
        ExprKind::Two(_, a, b) => {
            expr(alloc, a, into)?;
            expr(alloc, b, into)
        }
        ExprKind::Call(_, inputs) => exprs(alloc, inputs, into),
    }
}

#[cycle(mentions)]
pub fn exprs(alloc: Global, inputs: &[Expr], into: &mut List<Static>) -> Result<(), NoMemory>
    ensures { OnOk result (into.new ≡ into.old ++ joined (map mentions inputs.now)) }
{
    for e in inputs {
        expr(alloc, e, into)?;
    }
    Ok(())
}

/// Appends what reading the path reads: its static path, and what its indices read.
#[cycle(mentions)]
fn reading(alloc: Global, path: &Path, into: &mut List<Static>) -> Result<(), NoMemory>
    ensures { OnOk result (into.new ≡ into.old ++ path_mentions path.now) }
{
    into.push(static_of(alloc, path)?)?;
    indices(alloc, path, into)
}

/// Appends what the indices of the path read.
#[cycle(mentions)]
pub fn indices(alloc: Global, path: &Path, into: &mut List<Static>) -> Result<(), NoMemory>
    ensures { OnOk result (into.new ≡ into.old ++ index_mentions path.now) }
{
    for part in path.parts.iter() {
        index(alloc, part, into)?;
    }
    Ok(())
}

#[cycle(mentions)]
fn index(alloc: Global, part: &Part, into: &mut List<Static>) -> Result<(), NoMemory>
    ensures { OnOk result (into.new ≡ into.old ++ part_mentions part.now) }
{
    match part {
        Part::Field(_) => Ok(()),
        Part::Index(e) => expr(alloc, e, into),
    }
}

/// Appends what an optional expression reads.
pub fn optional(alloc: Global, e: &Option<Expr>, into: &mut List<Static>) -> Result<(), NoMemory>
    ensures { OnOk result (into.new ≡ into.old ++ optional_mentions e.now) }
{
    match e {
        Some(e) => expr(alloc, e, into),
        None => Ok(()),
    }
}

/// Appends what outputs read.
fn readings(alloc: Global, outputs: &[Path], into: &mut List<Static>) -> Result<(), NoMemory>
    ensures { OnOk result (into.new ≡ into.old ++ joined (map path_mentions outputs.now)) }
{
    for path in outputs {
        reading(alloc, path, into)?;
    }
    Ok(())
}

/// Appends what the inputs and outputs of a call or `run` read.
pub fn arguments(
    alloc: Global,
    inputs: &[Expr],
    outputs: &[Path],
    into: &mut List<Static>,
) -> Result<(), NoMemory>
    ensures { OnOk result (into.new ≡ into.old ++ argument_mentions inputs.now outputs.now) }
{
    exprs(alloc, inputs, into)?;
    readings(alloc, outputs, into)
}
