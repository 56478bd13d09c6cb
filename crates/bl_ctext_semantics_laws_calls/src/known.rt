//! A C function depends on what is known of the functions alone that its body calls (`specs/Known.antt`,
//! `CallsDecide`). Lemmas only.

ghost use Rattle.bl_ctext_semantics_laws_calls.specs.Known.{CallsDecide};

/// Where two tables know the same of all functions that the body of a C function calls, it does the same over both.
pub fn calls_decide()
    ensures { CallsDecide }
{}
