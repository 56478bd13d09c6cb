//! The theorem, as the contract of a function that does nothing.

ghost use Rattle.bl_top_laws.specs.Correct.{BuildsAreCorrect, BuildsDecide, BuiltTextsAreCorrect, RefusedBuildsTellFirst};

/// What is built of a source text is correct for it. A call of `build` writes such a text, or names the first rule that
/// fails for the source.
pub fn builds_are_correct()
    ensures texts { BuiltTextsAreCorrect }
    ensures written { BuildsAreCorrect }
    ensures refused { RefusedBuildsTellFirst }
    ensures decided { BuildsDecide }
{}
