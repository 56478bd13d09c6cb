//! Conditions that may stand for one another where something is known of spots (`specs/Conditions.antt`). Lemmas only.

ghost use Rattle.bl_simplify_laws.specs.Conditions.{RuleTest, TestAnd, TestAndSide, TestChain, TestItself, TestNot, TestOr, TestOrSide, TestSame};

/// The rules for conditions.
pub fn test_rules()
    ensures itself { TestItself }
    ensures chain { TestChain }
    ensures same { TestSame }
    ensures or_side { TestOrSide }
    ensures and_side { TestAndSide }
    ensures or { TestOr }
    ensures and { TestAnd }
    ensures not { TestNot }
{}

/// An `if` on another condition that has the same truth.
pub fn tested_stmts()
    ensures { RuleTest }
{}
