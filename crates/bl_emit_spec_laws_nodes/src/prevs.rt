//! What expressions and acts ask of earlier values. One lemma: the meaning of an expression, and the effect of an act,
//! depend only on the earlier values that they name under a `prev` (`specs/Prevs.antt`, `PrevsTell`).

ghost use Rattle.bl_emit_spec_laws_nodes.specs.Prevs.{PrevsTell};

/// Nothing depends on a value before but what names it under a `prev`.
pub fn prevs_agree()
    ensures { PrevsTell }
{}
