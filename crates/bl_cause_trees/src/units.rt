//! Units, judged by their peeled bodies one after another.

ghost use Rattle.std.specs.Prelude.{◌≡◌, ◌∷◌, [], ◌++◌, IfErr, IfOk, List as Elements, OnOk};
ghost use Rattle.bl_cause_trees.specs.inner.Judging.{AreKept, after_activity, after_function, comes_first, earlier_refusal};
ghost use Rattle.bl_cause_trees.specs.Rules.{Fails};
ghost use Rattle.bl_tree.specs.declared.tree.Unit.{Unit as UnitDef};
ghost use Rattle.bl_tree.specs.Rules.{IsCause};

use crate::activity::{Judged, judge_activity};
use crate::body::Ordered;
use bl_cause::Order;
use bl_graph::Graph;
use bl_tree::tree::{Stmt, Unit, UnitKind};
use bl_tree::{List, NoMemory, Place, Refusal, Rule};
use std::alloc::Global;

/// What is kept of units for which neither rule fails.
#[derive(Drop)]
pub struct Kept {
    /// For each unit its body with first turns, where it needs that.
    pub bodies: List<Option<List<Stmt>>>,
    /// The tick graphs of the peeled activities, in the order of units.
    pub graphs: List<Graph>,
    /// An order for each of them.
    pub orders: List<Order>,
    /// Whether some unit doesn't stay as it is.
    pub peels: bool,
}

/// The peeled bodies of the units, where neither rule fails on them. All are judged, since a later one may fail at an earlier place.
pub fn judged_units(alloc: Global, units: &[Unit]) -> Result<Kept, Refusal>
    ensures kept { IfOk result (AreKept units.now) }
    ensures cause { IfErr result (IsCause (Fails units.now)) }
{
    let mut so_far = Ok(nothing(alloc));
    for unit in units {
        so_far = with_unit(alloc, unit, so_far);
    }
    so_far
}

/// What is kept of no units.
fn nothing(alloc: Global) -> Kept
    ensures { AreKept [] result }
{
    Kept {
        bodies: List::new(alloc),
        graphs: List::new(alloc),
        orders: List::new(alloc),
        peels: false,
    }
}

/// Judges one unit more.
fn with_unit(alloc: Global, unit: &Unit, so_far: Result<Kept, Refusal>) -> Result<Kept, Refusal>
    ensures kept { (units : Elements UnitDef) → IfOk so_far (AreKept units) → IfOk result (AreKept (units ++ unit.now ∷ [])) }
    ensures cause { (units : Elements UnitDef) → IfOk so_far (AreKept units) → IfErr so_far (IsCause (Fails units))
        → IfErr result (IsCause (Fails (units ++ unit.now ∷ []))) }
{
    match so_far {
        Ok(kept) => behind_kept(alloc, unit, kept),
        Err(first) => Err(behind_refused(alloc, unit, first)),
    }
}

/// Judges a unit behind others for which neither rule fails.
fn behind_kept(alloc: Global, unit: &Unit, kept: Kept) -> Result<Kept, Refusal>
    ensures kept { (units : Elements UnitDef) → AreKept units kept → IfOk result (AreKept (units ++ unit.now ∷ [])) }
    ensures cause { (units : Elements UnitDef) → AreKept units kept → IfErr result (IsCause (Fails (units ++ unit.now ∷ []))) }
{
    match unit.kind {
        UnitKind::Function => keep_function(kept),
        UnitKind::Activity => match judge_activity(alloc, unit) {
            Ok(judged) => keep_activity(kept, judged),
            Err(refusal) => Err(refusal),
        },
    }
}

/// Keeps a function, which stays as it is.
fn keep_function(kept: Kept) -> Result<Kept, Refusal>
    ensures kept { IfOk result (λ next. next ≡ after_function kept) }
    ensures want { IfErr result (λ refusal. refusal ≡ Refusal.NoMemory) }
{
    let mut kept = kept;
    match kept.bodies.push(None) {
        Ok(()) => Ok(kept),
        Err(_) => Err(Refusal::NoMemory),
    }
}

/// Keeps the peeled body of an activity.
fn keep_activity(kept: Kept, judged: Judged) -> Result<Kept, Refusal>
    ensures kept { IfOk result (λ next. next ≡ after_activity kept judged) }
    ensures want { IfErr result (λ refusal. refusal ≡ Refusal.NoMemory) }
{
    let mut kept = kept;
    match push(&mut kept, judged) {
        Ok(()) => Ok(kept),
        Err(NoMemory) => Err(Refusal::NoMemory),
    }
}

fn push(kept: &mut Kept, judged: Judged) -> Result<(), NoMemory>
    ensures { OnOk result (kept.new ≡ after_activity kept.old judged) }
{
    let Judged { peeled, ordered } = judged;
    let Ordered { graph, order } = ordered;
    kept.peels |= peeled.is_some();
    kept.bodies.push(peeled)?;
    kept.graphs.push(graph)?;
    kept.orders.push(order)?;
    Ok(())
}

/// The first refusal with one unit more, where others are refused. Where memory was refused nothing more is judged.
fn behind_refused(alloc: Global, unit: &Unit, first: Refusal) -> Refusal
    ensures { (units : Elements UnitDef) → IsCause (Fails units) first → IsCause (Fails (units ++ unit.now ∷ [])) result }
{
    match first {
        Refusal::NoMemory => Refusal::NoMemory,
        Refusal::Rule { rule, place, also } => match unit.kind {
            UnitKind::Function => Refusal::Rule { rule, place, also },
            UnitKind::Activity => match judge_activity(alloc, unit) {
                Ok(_) => Refusal::Rule { rule, place, also },
                Err(other) => earlier(rule, place, also, other),
            },
        },
    }
}

/// Of a failure and a refusal the one that comes first.
fn earlier(rule: Rule, place: Place, also: List<Place>, other: Refusal) -> Refusal
    ensures { result ≡ earlier_refusal (Refusal.Rule rule place also) other }
{
    match other {
        Refusal::NoMemory => Refusal::NoMemory,
        Refusal::Rule {
            rule: next,
            place: elsewhere,
            also: further,
        } => {
            if comes_first(next, elsewhere, rule, place) {
                Refusal::Rule {
                    rule: next,
                    place: elsewhere,
                    also: further,
                }
            } else {
                Refusal::Rule { rule, place, also }
            }
        }
    }
}

/// Whether a failure comes before another: that of the lesser rule, and of one rule the one at the earlier place.
fn comes_first(one: Rule, at: Place, other: Rule, elsewhere: Place) -> bool
    ensures { result ≡ comes_first one at other elsewhere }
{
    let (one, other) = (one.number(), other.number());
    one < other || (one == other && at.is_before(elsewhere))
}
