//! What holds where frames are as they have to be.

ghost use Rattle.bl_simplify_laws_frames.specs.Reached.{FunctionsDecideIn, RuleFrame, RuleSameIn, SameTraceIn, TablesDecideIn};

/// A block does the same over two tables that know the same where frames are as they have to be, and so does a function.
pub fn frames_decide()
    ensures blocks { TablesDecideIn }
    ensures functions { FunctionsDecideIn }
{}

/// Functions that do the same where their frame is as it has to be.
pub fn frame_rules()
    ensures frame { RuleFrame }
    ensures same { RuleSameIn }
{}

/// Files of which each function does the same where frames are as they have to be have the same trace.
pub fn same_trace_in()
    ensures { SameTraceIn }
{}
