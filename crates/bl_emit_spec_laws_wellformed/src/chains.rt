//! Which functions the C function of an activity calls. Lemmas only (`specs/Chains.antt`). It calls only functions of
//! the prelude and those of the units that the activity calls or runs (`ActivitiesCallFew`). So it heads no longer
//! chain of calls than the activity does (`ActivityChainsFollow`), and none of more than 100 functions where rule
//! Frames holds (`ActivityChainsShort`). A table of the chains of earlier units stays right once it joins
//! (`ActivityChainsGrow`).

ghost use Rattle.bl_emit_spec_laws_wellformed.specs.Chains.{ActivitiesCallFew, ActivityChainsFollow, ActivityChainsGrow, ActivityChainsShort};

use bl_machine_pass_laws::numbers::trees_stay_placed;

/// The C function of an activity calls what the activity calls or runs.
pub fn activities_call_few()
    ensures { ActivitiesCallFew }
{
    trees_stay_placed();
}

/// It heads no longer chain of calls than the activity.
pub fn activity_chains_follow()
    ensures { ActivityChainsFollow }
{
    activities_call_few();
}

/// A table that tells the chains of units still does so once it joins.
pub fn activity_chains_grow()
    ensures { ActivityChainsGrow }
{
    activity_chains_follow();
}

/// Where rule Frames doesn't fail it heads no chain of more than 100 functions.
pub fn activity_chains_short()
    ensures { ActivityChainsShort }
{
    activity_chains_follow();
}
