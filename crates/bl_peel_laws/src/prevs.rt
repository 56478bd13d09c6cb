//! Where peeled units ask what a variable was.

ghost use Rattle.bl_peel_laws.specs.Prevs.{PeeledIsFromText, PeeledPrevsAreDeclared};

/// Peeled units ask what a variable was only behind its declaration, where their sources do.
pub fn prevs_of_peeled_units_are_declared()
    ensures unit { PeeledPrevsAreDeclared }
    ensures units { PeeledIsFromText }
{}
