//! Answers of ticks.

ghost use Rattle.std.specs.Prelude.{◌≡◌};
ghost use Rattle.bl_ctext_semantics.specs.Trace.{reply_of};
ghost use Rattle.bl_crun.specs.Running.{answer_of, is_row};

use crate::tick::TickAnswer;

/// What a tick comes to whose function gave this result.
pub fn tick_of(result_of_call: Option<i128>) -> TickAnswer
    ensures { result ≡ answer_of (reply_of result_of_call) }
{
    match result_of_call {
        None => TickAnswer::Trap,
        Some(1) => TickAnswer::Ended,
        Some(_) => TickAnswer::Row,
    }
}

/// Whether the run can go on.
pub fn goes_on(tick: TickAnswer) -> bool
    ensures { result ≡ is_row tick }
{
    match tick {
        TickAnswer::Row => true,
        TickAnswer::Ended | TickAnswer::Trap => false,
    }
}
