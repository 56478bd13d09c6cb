//! Laws of C files and of C texts. Lemmas only. `alike`: files that differ only in the places of their parts
//! (`SameButPlaces`) are equally well formed and behave the same (`specs/Behaviour.antt`). `bytes`: so bytes have one
//! meaning, that of any file that they spell (`specs/Bytes.antt`, `Behaves` and `TraceOfBytes`).
#![tactic(auto)]

pub mod alike;
pub mod bytes;
