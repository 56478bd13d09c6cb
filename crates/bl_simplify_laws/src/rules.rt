//! The rules by which a block may stand for another where something is known of spots (`specs/Rules.antt`,
//! `specs/Written.antt`). Lemmas only.

ghost use Rattle.bl_simplify_laws.specs.Rules.{RuleAfterBlock, RuleAfterIf, RuleAfterWeaker, RuleCall, RuleChain, RuleCut, RuleDecided, RuleEither};
ghost use Rattle.bl_simplify_laws.specs.Rules.{RuleEmpty, RuleEntry, RuleForget, RuleForgotten, RuleFunction, RuleIf, RuleItself, RuleNever, RuleReplace};
ghost use Rattle.bl_simplify_laws.specs.Rules.{RuleSame, RuleSet, RuleSplit, RuleStop, RuleWeaker};
ghost use Rattle.bl_simplify_laws.specs.Written.{RuleAfterAny, RuleAfterAnyBlock, RuleLoop, RuleLoopBy};

/// The rules for blocks.
pub fn block_rules()
    ensures empty { RuleEmpty }
    ensures replaced { RuleReplace }
    ensures decided { RuleDecided }
    ensures split { RuleSplit }
    ensures either { RuleEither }
    ensures same { RuleSame }
    ensures never { RuleNever }
    ensures weaker { RuleWeaker }
    ensures cut { RuleCut }
    ensures forgotten { RuleForgotten }
    ensures chain { RuleChain }
{}

/// The rules for statements that stand for one another.
pub fn stmt_rules()
    ensures itself { RuleItself }
    ensures branches { RuleIf }
    ensures turns { RuleLoop }
    ensures turns_by { RuleLoopBy }
{}

/// What is known after statements and blocks.
pub fn step_rules()
    ensures set { RuleSet }
    ensures call { RuleCall }
    ensures branches { RuleAfterIf }
    ensures block { RuleAfterBlock }
    ensures stop { RuleStop }
    ensures any { RuleAfterAny }
    ensures any_block { RuleAfterAnyBlock }
    ensures forget { RuleForget }
    ensures weaker { RuleAfterWeaker }
{}

/// The rules for functions: by what is known where they begin.
pub fn function_rules()
    ensures function { RuleFunction }
    ensures entry { RuleEntry }
{}
