//! Laws of typing one text in two environments: by itself, and among others. Lemmas only. The environments agree if they are equal up to places
//! and the positions of constants (`EnvironmentsAgree` in `specs/Agree.antt`). Then expressions, arguments and declarations are
//! judged alike, with mapped places (`SameJudgements`, `SameArguments` and `SameDeclarations` in `specs/Laws.antt`).
#![tactic(auto)]

pub mod judged;
