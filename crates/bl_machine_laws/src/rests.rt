//! Where the activities of an accepted program may rest. Lemmas only. No activity's body may end in the tick in which
//! it begins (rule Pause), and no body of a loop may (rule Instant). So each body has a resting place
//! (`specs/Rests.antt`, `ActivitiesRest`), and its activity in a machine has a counter (`ActivitiesCount`).

ghost use Rattle.bl_machine_laws.specs.Rests.{ActivitiesCount, ActivitiesRest};

use bl_effects::laws::endings_agree;

/// The body of each activity of an accepted program has a resting place.
pub fn activities_rest()
    ensures { ActivitiesRest }
{
    endings_agree();
}

/// The activity that a machine has for one of an accepted program has a counter.
pub fn activities_count()
    ensures { ActivitiesCount }
{
    activities_rest();
}
