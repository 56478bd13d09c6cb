//! Laws of what bytes mean as a C text: it doesn't matter which of the files that they spell is looked at.

ghost use Rattle.std.specs.Prelude.{◌≡◌, ◌↔◌, ℕ, ℤ, List};
ghost use Rattle.bl_tree.specs.declared.row.Trace.{Trace};
ghost use Rattle.bl_ctext.specs.SpellsC.{SpellsC};
ghost use Rattle.bl_ctext.specs.declared.file.CFile.{CFile};
ghost use Rattle.bl_ctext_semantics.specs.Faults.{WellFormed};
ghost use Rattle.bl_ctext_semantics.specs.Parts.{parts_of};
ghost use Rattle.bl_ctext_semantics.specs.Trace.{c_trace};
ghost use Rattle.bl_ctext_semantics_laws_places.specs.Behaviour.{Behaviour, behaviour_of};
ghost use Rattle.bl_ctext_semantics_laws_places.specs.Bytes.{Behaves, TraceOfBytes};

/// Each file that bytes spell is well formed where one of them is, and behaves as the bytes do; so these behave in one way.
pub fn bytes_behave_as_their_file()
    ensures well_formed { (file other : CFile) (bytes : List ℕ) → SpellsC file bytes → SpellsC other bytes →
        WellFormed (parts_of file) ↔ WellFormed (parts_of other) }
    ensures each { (file : CFile) (bytes : List ℕ) (behaviour : Behaviour) → SpellsC file bytes →
        Behaves bytes behaviour ↔ (WellFormed (parts_of file) × (behaviour ≡ behaviour_of (parts_of file))) }
    ensures one { (bytes : List ℕ) (behaviour other : Behaviour) → Behaves bytes behaviour → Behaves bytes other → behaviour ≡ other }
{}

/// The trace of bytes is that of each file that they spell; so they have one trace.
pub fn bytes_have_one_trace()
    ensures each { (file : CFile) (bytes : List ℕ) (rows : List (List ℤ)) (trace : Trace) → SpellsC file bytes →
        TraceOfBytes bytes rows trace ↔ (WellFormed (parts_of file) × (trace ≡ c_trace (parts_of file) rows)) }
    ensures one { (bytes : List ℕ) (rows : List (List ℤ)) (trace other : Trace) → TraceOfBytes bytes rows trace → TraceOfBytes bytes rows other →
        trace ≡ other }
{}
