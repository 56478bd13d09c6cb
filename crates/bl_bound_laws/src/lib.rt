//! Laws of how many C statements a tick executes. Lemmas only. No tick of a run over any rows executes more statements
//! than the file's bound, also one that ends the run or traps (`specs/Counts.antt`, `counts_of`). The same bound holds
//! for C texts (`specs/Bounded.antt`, `IsBounded`).
#![tactic(auto)]

ghost use Rattle.std.specs.Prelude.{◌≤◌, ℕ, ℤ, List, All};
ghost use Rattle.bl_ctext.specs.SpellsC.{SpellsC};
ghost use Rattle.bl_ctext_semantics.specs.Cost.{tick_bound};
ghost use Rattle.bl_ctext_semantics.specs.Parts.{parts_of};
ghost use Rattle.bl_ctext_semantics_laws_places.specs.Behaviour.{Behaviour, behaviour_of};
ghost use Rattle.bl_ctext_semantics_laws_places.specs.Bytes.{Behaves};
ghost use Rattle.bl_bound_laws.specs.Bounded.{IsBounded};
ghost use Rattle.bl_bound_laws.specs.Counts.{counts_of};

use bl_ctext::CFile;
use bl_ctext_semantics::laws::within_bound;
use bl_ctext_semantics_laws_places::bytes::bytes_behave_as_their_file;

/// No tick of a run executes more statements than the file's bound, over all rows.
pub fn runs_are_bounded(_file: &CFile)
    ensures runs { (rows : List (List ℤ)) → All (λ n. n ≤ tick_bound (parts_of _file.now)) (counts_of (parts_of _file.now) rows) }
    ensures behaves { IsBounded (behaviour_of (parts_of _file.now)) }
{
    within_bound(_file);
}

/// And so behave the bytes that spell it.
pub fn texts_are_bounded(_file: &CFile)
    ensures { (bytes : List ℕ) (behaviour : Behaviour) → SpellsC _file.now bytes → Behaves bytes behaviour → IsBounded behaviour }
{
    runs_are_bounded(_file);
    bytes_behave_as_their_file();
}
