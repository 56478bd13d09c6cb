//! Laws of marks one after another.

ghost use Rattle.bl_names_laws_files.specs.Laws.{FailuresInTurn, MarksInTurn, PassingInTurn, ScopesInTurn};

/// Marks one after another open the scopes, and fail the rules, part by part.
pub fn marks_in_turn()
    ensures marks { MarksInTurn }
    ensures scopes { ScopesInTurn }
    ensures failures { FailuresInTurn }
    ensures passing { PassingInTurn }
{}
