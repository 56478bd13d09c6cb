//! Laws of peeled units, each the contract of a function that does nothing.

ghost use Rattle.bl_cause_trees.specs.Laws.{PassingUnitsStay, PeeledAreJudged, PeeledAreOne, PeeledAreThere, UnitsArePeeled};

use bl_cause_laws::bodies_have_graphs;

/// Each list of units has exactly one list of peeled units.
pub fn units_are_peeled_in_one_way()
    ensures there { PeeledAreThere }
    ensures one { PeeledAreOne }
{
    bodies_have_graphs();
}

/// To judge the two rules on peeled units is to judge them for units that have their bodies.
pub fn peeled_units_are_judged()
    ensures { PeeledAreJudged }
{}

/// Nothing is peeled where the two rules pass anyway.
pub fn passing_units_stay()
    ensures { PassingUnitsStay }
{}

/// What laws of peeled programs ask of two lists of units.
pub fn units_are_peeled()
    ensures { UnitsArePeeled }
{}
