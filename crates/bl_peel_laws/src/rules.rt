//! The rules Pause, Conflict, Alias and Instant of peeled units.

ghost use Rattle.bl_peel_laws.specs.Rules.{FailuresAreOfSources, PeeledUnitsPass};

/// Where a rule on effects fails for peeled units, it fails at the same places for their sources. So none fails where none did.
pub fn peeled_units_keep_the_rules()
    ensures failures { FailuresAreOfSources }
    ensures passes { PeeledUnitsPass }
{}
