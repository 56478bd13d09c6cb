//! Programs with peeled activities. None of these functions does anything: the contract is the law.

ghost use Rattle.bl_peel_laws_typing.specs.Typing.{PeeledKeepsTyping, PeeledUnitsStand};

/// Where units stand and nest no deeper than those of a source, they stand with activities peeled. The whole program is well-typed then
/// if statements of one place still have one effect, and `run`s of one place are one.
pub fn peeled_programs_keep_typing()
    ensures units { PeeledUnitsStand }
    ensures whole { PeeledKeepsTyping }
{}
