//! The variables that expressions and acts name: on no others does what they give hang.

ghost use Rattle.std.specs.Prelude.{◌≡◌, ◌++◌, map, IfOk, OnOk};
ghost use Rattle.bl_tree.specs.declared.tree.StmtKind.{out-StmtKind};
ghost use Rattle.bl_tree.specs.Apart.{optional_roots, roots_in, roots_in_path};
ghost use Rattle.bl_tree.specs.Reduce.{joined};
ghost use Rattle.bl_ctree_store.specs.Agree.{roots_in_part, roots_of_act};

use bl_tree::tree::{Expr, ExprKind, Part, Path, StmtKind};
use bl_tree::{List, NoMemory};
use std::alloc::Global;

/// Appends the variables that an expression names, each as often as it does. Fails only for want of memory, as all that follows.
#[cycle(naming)]
fn expr(e: &Expr, into: &mut List<u32>) -> Result<(), NoMemory>
    ensures { OnOk result (into.new ≡ into.old ++ roots_in e.now) }
{
    match &e.what {
        ExprKind::Literal(_, _) => Ok(()),
        ExprKind::Read(at) => path(at, into),
        ExprKind::Prev(k) => {
            into.push(*k)?;
            Ok(())
        }
        ExprKind::One(_, a) | ExprKind::Cast(_, a) => expr(a, into),
        ExprKind::Two(_, a, b) => {
            expr(a, into)?;
            expr(b, into)
        }
        ExprKind::Call(_, inputs) => exprs(inputs, into),
    }
}

#[cycle(naming)]
fn exprs(inputs: &[Expr], into: &mut List<u32>) -> Result<(), NoMemory>
    ensures { OnOk result (into.new ≡ into.old ++ joined (map roots_in inputs.now)) }
{
    for e in inputs {
        expr(e, into)?;
    }
    Ok(())
}

#[cycle(naming)]
fn path(at: &Path, into: &mut List<u32>) -> Result<(), NoMemory>
    ensures { OnOk result (into.new ≡ into.old ++ roots_in_path at.now) }
{
    into.push(at.root)?;
    for each in at.parts.iter() {
        part(each, into)?;
    }
    Ok(())
}

#[cycle(naming)]
fn part(each: &Part, into: &mut List<u32>) -> Result<(), NoMemory>
    ensures { OnOk result (into.new ≡ into.old ++ roots_in_part each.now) }
{
    match each {
        Part::Field(_) => Ok(()),
        Part::Index(e) => expr(e, into),
    }
}

fn paths(outputs: &[Path], into: &mut List<u32>) -> Result<(), NoMemory>
    ensures { OnOk result (into.new ≡ into.old ++ joined (map roots_in_path outputs.now)) }
{
    for at in outputs {
        path(at, into)?;
    }
    Ok(())
}

fn optional(initial: &Option<Expr>, into: &mut List<u32>) -> Result<(), NoMemory>
    ensures { OnOk result (into.new ≡ into.old ++ optional_roots initial.now) }
{
    match initial {
        Some(e) => expr(e, into),
        None => Ok(()),
    }
}

fn act(what: &StmtKind, into: &mut List<u32>) -> Result<(), NoMemory>
    ensures { OnOk result (into.new ≡ into.old ++ roots_of_act (out-StmtKind what.now)) }
{
    match what {
        StmtKind::Declare(k, initial) => {
            into.push(*k)?;
            optional(initial, into)
        }
        StmtKind::Assign(at, e) => {
            path(at, into)?;
            expr(e, into)
        }
        StmtKind::Call(_, inputs, outputs) => {
            exprs(inputs, into)?;
            paths(outputs, into)
        }
        _ => Ok(()),
    }
}

/// The variables that an expression names.
pub fn named(alloc: Global, e: &Expr) -> Result<List<u32>, NoMemory>
    ensures { IfOk result (λ made. made ≡ roots_in e.now) }
{
    let mut made = List::new(alloc);
    expr(e, &mut made)?;
    Ok(made)
}

/// Those that some expressions name.
pub fn all_named(alloc: Global, inputs: &[Expr]) -> Result<List<u32>, NoMemory>
    ensures { IfOk result (λ made. made ≡ joined (map roots_in inputs.now)) }
{
    let mut made = List::new(alloc);
    exprs(inputs, &mut made)?;
    Ok(made)
}

/// Those that a declaration, an assignment or a call names.
pub fn named_by_act(alloc: Global, what: &StmtKind) -> Result<List<u32>, NoMemory>
    ensures { IfOk result (λ made. made ≡ roots_of_act (out-StmtKind what.now)) }
{
    let mut made = List::new(alloc);
    act(what, &mut made)?;
    Ok(made)
}
