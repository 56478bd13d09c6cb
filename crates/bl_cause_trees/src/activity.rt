//! One activity, judged by its peeled body.

ghost use Rattle.std.specs.Prelude.{◌≡◌, ◌∷◌, [], IfErr, IfOk, Some, true};
ghost use Rattle.bl_cause.specs.Activities.{IsGraphOf, IsOrderOf};
ghost use Rattle.bl_cause_trees.specs.inner.Judging.{FailsFirstInBody, IsCauseInBody, IsPeeledBy, with_body};
ghost use Rattle.bl_cause_trees.specs.Rules.{Fails};
ghost use Rattle.bl_graph.specs.Graph.{IsTickGraph};
ghost use Rattle.bl_graph_nodes.specs.Plain.{plain_body};
ghost use Rattle.bl_tree.specs.Rules.{IsCause};
ghost use Rattle.bl_tree.specs.Typing.{is_activity};

use crate::body::{Ordered, ordered_body};
use bl_peel::{PeelFault, peel_body};
use bl_tree::tree::{Stmt, Unit};
use bl_tree::{List, Place, Refusal, Rule};
use std::alloc::Global;

/// The peeled body of an activity for which neither rule fails.
#[derive(Drop)]
pub struct Judged {
    /// The body with first turns, where the activity needs it. Else the activity stays as it is.
    pub peeled: Option<List<Stmt>>,
    pub ordered: Ordered,
}

/// The peeled body of the activity with its tick graph and an order, where neither rule fails for it.
pub fn judge_activity(alloc: Global, unit: &Unit) -> Result<Judged, Refusal>
    requires activity { is_activity unit.now.kind ≡ true }
    ensures peeled { IfOk result (λ made. IsPeeledBy unit.now made.peeled) }
    ensures graph { IfOk result (λ made. IsGraphOf (with_body unit.now made.peeled) made.ordered.graph) }
    ensures order { IfOk result (λ made. IsOrderOf made.ordered.graph made.ordered.order) }
    ensures cause { IfErr result (IsCause (Fails (unit.now ∷ []))) }
{
    match ordered_body(alloc, &unit.body) {
        Ok(ordered) => Ok(Judged {
            peeled: None,
            ordered,
        }),
        Err(own) => judged_again(alloc, unit, own),
    }
}

/// Judges an activity by its peeled body that by its own tick graph is refused. Where memory was refused nothing more is judged.
fn judged_again(alloc: Global, unit: &Unit, own: Refusal) -> Result<Judged, Refusal>
    requires activity { is_activity unit.now.kind ≡ true }
    requires own { IsCauseInBody unit.now.body own }
    ensures peeled { IfOk result (λ made. IsPeeledBy unit.now made.peeled) }
    ensures graph { IfOk result (λ made. IsGraphOf (with_body unit.now made.peeled) made.ordered.graph) }
    ensures order { IfOk result (λ made. IsOrderOf made.ordered.graph made.ordered.order) }
    ensures cause { IfErr result (IsCause (Fails (unit.now ∷ []))) }
{
    match own {
        Refusal::NoMemory => Err(Refusal::NoMemory),
        Refusal::Rule { rule, place, also } => with_first_turns(alloc, unit, rule, place, also),
    }
}

/// Judges an activity by its body with first turns, unless that is too large: then its own first failure stands.
fn with_first_turns(
    alloc: Global,
    unit: &Unit,
    rule: Rule,
    place: Place,
    also: List<Place>,
) -> Result<Judged, Refusal>
    requires activity { is_activity unit.now.kind ≡ true }
    requires own { FailsFirstInBody unit.now.body rule place also }
    ensures peeled { IfOk result (λ made. IsPeeledBy unit.now made.peeled) }
    ensures graph { IfOk result (λ made. IsGraphOf (with_body unit.now made.peeled) made.ordered.graph) }
    ensures order { IfOk result (λ made. IsOrderOf made.ordered.graph made.ordered.order) }
    ensures cause { IfErr result (IsCause (Fails (unit.now ∷ []))) }
{
    match peel_body(alloc, &unit.body) {
        Ok(body) => by_body(alloc, body),
        Err(PeelFault::TooLarge) => Err(Refusal::Rule { rule, place, also }),
        Err(PeelFault::NoMemory) => Err(Refusal::NoMemory),
    }
}

/// Judges a peeled body.
fn by_body(alloc: Global, body: List<Stmt>) -> Result<Judged, Refusal>
    ensures body { IfOk result (λ made. made.peeled ≡ Some body) }
    ensures graph { IfOk result (λ made. IsTickGraph (plain_body body) made.ordered.graph.nodes made.ordered.graph.edges) }
    ensures order { IfOk result (λ made. IsOrderOf made.ordered.graph made.ordered.order) }
    ensures cause { IfErr result (IsCauseInBody body) }
{
    match ordered_body(alloc, &body) {
        Ok(ordered) => Ok(Judged {
            peeled: Some(body),
            ordered,
        }),
        Err(refusal) => Err(refusal),
    }
}
