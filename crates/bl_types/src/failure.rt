//! The first of the failures so far.

ghost use Rattle.std.specs.Prelude.{◌≡◌, ◌∷◌, []};
ghost use Rattle.bl_tree.specs.declared.rule.Further.TheVariants.{One};
ghost use Rattle.bl_types.specs.Failures.{fails_at, noted};

use bl_tree::rule::lesser;
use bl_tree::{Failure, Further, Place, Rule};

/// The first of the failures so far.
#[derive(Clone, Copy, PartialEq, Eq, Debug)]
pub struct Notes {
    pub first: Option<Failure>,
}

impl Notes {
    /// A rule fails, and its line names two places.
    pub fn pair(&mut self, rule: Rule, at: Place, also: Place)
        ensures { self.new ≡ noted self.old (record { rule = rule; at = at; further = One also } ∷ []) }
    {
        self.first = lesser(
            self.first,
            Failure {
                rule,
                at,
                further: Further::One(also),
            },
        );
    }

    /// A rule fails, and its line names one place.
    pub fn fail(&mut self, rule: Rule, at: Place)
        ensures { self.new ≡ noted self.old (fails_at rule at) }
    {
        self.first = lesser(
            self.first,
            Failure {
                rule,
                at,
                further: Further::Nothing,
            },
        );
    }
}
