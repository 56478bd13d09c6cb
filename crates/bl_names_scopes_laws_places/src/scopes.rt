//! The laws of scopes that correspond.

ghost use Rattle.bl_names_scopes_laws_places.specs.Laws.{AgreementStays, FailuresAgree, PassingAgrees};

/// Behind starts whose scopes correspond the same marks fail, at the images of places.
pub fn scopes_agree()
    ensures stays { AgreementStays }
    ensures failures { FailuresAgree }
    ensures passing { PassingAgrees }
{}
