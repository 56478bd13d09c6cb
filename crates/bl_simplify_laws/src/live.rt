//! Blocks that do the same but for locals that nothing reads any more (`specs/Live.antt`). Lemmas only.

ghost use Rattle.bl_simplify_laws.specs.Live.{LiveBlocks, LiveCleared, LiveDead, LiveEither, LiveEmpty, LiveFunction, LiveIf, LiveItself, LiveLoop, LiveSet};
ghost use Rattle.bl_simplify_laws.specs.Live.{LiveWeaker};

/// The rules for blocks and functions.
pub fn live_blocks()
    ensures empty { LiveEmpty }
    ensures blocks { LiveBlocks }
    ensures weaker { LiveWeaker }
    ensures function { LiveFunction }
{}

/// The rules for statements.
pub fn live_stmts()
    ensures itself { LiveItself }
    ensures set { LiveSet }
    ensures dead { LiveDead }
    ensures cleared { LiveCleared }
    ensures branches { LiveIf }
    ensures either { LiveEither }
    ensures turns { LiveLoop }
{}
