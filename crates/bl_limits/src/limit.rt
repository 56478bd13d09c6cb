//! Limits, and the failures where numbers are above them.

ghost use Rattle.std.specs.Prelude.{◌≡◌, slice_get};
ghost use Rattle.bl_tree.specs.Rules.{first_of};
ghost use Rattle.bl_limits.specs.inner.Failures.{above, at_unit, failure_at};

use bl_tree::rule::lesser;
use bl_tree::tree::Unit;
use bl_tree::{Failure, Further, Place, Rule};

/// The most that a number may be, and the rule that fails where it is more.
#[derive(Clone, Copy)]
pub struct Limit {
    pub rule: Rule,
    pub most: u64,
}

impl Limit {
    /// The first so far, or the failure at the place where the number is above the limit.
    pub fn judge(self, number: u64, at: Place, first: Option<Failure>) -> Option<Failure>
        ensures { result ≡ first_of first (above self.most number (failure_at self.rule at)) }
    {
        if number > self.most {
            lesser(first, failure(self.rule, at))
        } else {
            first
        }
    }

    /// The same of a number of the unit at the position, at its name.
    pub fn judge_unit(
        self,
        number: u64,
        units: &[Unit],
        unit: u32,
        first: Option<Failure>,
    ) -> Option<Failure>
        ensures { result ≡ first_of first (at_unit self.rule self.most number (slice_get units.now unit)) }
    {
        match units.get(unit as usize) {
            Some(unit) => self.judge(number, unit.place, first),
            None => first,
        }
    }
}

/// The failure of a rule at a place; its line names no further one.
fn failure(rule: Rule, at: Place) -> Failure
    ensures { result ≡ failure_at rule at }
{
    Failure {
        rule,
        at,
        further: Further::Nothing,
    }
}
