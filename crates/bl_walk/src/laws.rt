//! Laws of walks. None of these functions does anything: the contract is the law.

ghost use Rattle.bl_walk.specs.Laws.{BeginsNoMoreTicks, ClosedStayClosed, FrontsShowFronts, PicksAreSteps, PointsStepOrTrap, ShowsNoMoreRows, UnsettledGoOn};
ghost use Rattle.bl_walk.specs.Laws.{WalksAreAllowed, WalksAreMeant};

use bl_ctree::laws::points_are_steps;

/// A point that may act steps or traps.
pub fn points_step_or_trap()
    ensures { PointsStepOrTrap }
{
    points_are_steps();
}

/// A list of picked steps is a list of steps.
pub fn picked_lists_are_steps()
    ensures { PicksAreSteps }
{
    points_step_or_trap();
}

/// Where no tick is stuck a point may act as long as something is left to do.
pub fn unsettled_trees_go_on()
    ensures { UnsettledGoOn }
{
    points_are_steps();
}

/// What a walk shows the meaning allows, whatever the seed.
pub fn walks_are_allowed()
    ensures allowed { WalksAreAllowed }
    ensures means { WalksAreMeant }
{}

/// A run shows no more rows than it has, and a walk begins no more ticks.
pub fn rows_bound_runs()
    ensures rows { ShowsNoMoreRows }
    ensures ticks { BeginsNoMoreTicks }
{}

/// What is shown over rows begins with what is shown over the first of them.
pub fn fronts_show_fronts()
    ensures { FrontsShowFronts }
{}

/// A run that has ended or trapped is as it was, whatever rows come behind.
pub fn closed_runs_stay_closed()
    ensures { ClosedStayClosed }
{}
