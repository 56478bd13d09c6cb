//! Control trees over located statements are those over plain ones, and what begins writes what the tick graph's surfaces
//! do. None of these functions does anything: the contract is the law.

ghost use Rattle.bl_ctree_laws.specs.Laws.{AnswersArePlain, PlainStepsAreSteps, StatementsArePlain, StepsArePlain, WakingIsPlain};
ghost use Rattle.bl_ctree_laws.specs.Soon.{SoonIsSurface};

/// The plain statements of located statements are those of the statements at their positions.
pub fn statements_are_plain()
    ensures { StatementsArePlain }
{}

/// Whether a tree has ended, is settled, may end, and what it may write, are the same of its plain tree.
pub fn answers_are_plain()
    ensures { AnswersArePlain }
{}

/// The plain tree of a woken tree is the woken plain tree.
pub fn waking_is_plain()
    ensures { WakingIsPlain }
{}

/// The steps of a tree are those of its plain tree.
pub fn steps_are_plain()
    ensures sound { StepsArePlain }
    ensures complete { PlainStepsAreSteps }
{}

/// What a tree that begins can write before its next pause is what the surfaces of its plain statements write.
pub fn surfaces_write_soon()
    ensures { SoonIsSurface }
{}
