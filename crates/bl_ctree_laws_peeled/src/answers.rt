//! Answers of related trees. None of these functions does anything: the contract is the law.

ghost use Rattle.bl_ctree_laws_peeled.specs.Answers.{RelatedAnswers, RelatedMeet};

/// Related trees have ended, are settled, may end and may write alike.
pub fn related_trees_answer()
    ensures { RelatedAnswers }
{}

/// Related trees may write what a step beside them reads alike.
pub fn related_trees_meet()
    ensures { RelatedMeet }
{}
