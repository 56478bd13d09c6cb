//! Rule Pause: an activity whose body may end in the tick in which it begins.
#![tactic(auto, using(crate::proofs::FirstLemmas::firsts))]

ghost use Rattle.std.specs.Prelude.{◌≡◌};
ghost use Rattle.bl_tree.specs.Rules.{first_of};
ghost use Rattle.bl_conflict.specs.inner.Failures.{pause_failures, pause_of};

use crate::instant::{block, is_activity};
use bl_tree::rule::lesser;
use bl_tree::tree::Unit;
use bl_tree::{Failure, Further, Rule};

/// The first so far, or the first of the activities that fail, at its name.
pub fn first(units: &[Unit], best: Option<Failure>) -> Option<Failure>
    ensures { result ≡ first_of best (pause_failures units.now) }
{
    let mut best = best;
    for unit in units {
        best = judge(unit, best);
    }
    best
}

fn judge(unit: &Unit, best: Option<Failure>) -> Option<Failure>
    ensures { result ≡ first_of best (pause_of unit.now) }
{
    if !is_activity(unit.kind) {
        return best;
    }
    if !block(&unit.body, None).instant {
        return best;
    }
    lesser(
        best,
        Failure {
            rule: Rule::Pause,
            at: unit.place,
            further: Further::Nothing,
        },
    )
}
