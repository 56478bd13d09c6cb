//! What acts look at. Laws, as contracts of functions that do nothing: what an expression gives is told by the values at the
//! static paths that it mentions and by what the variables that it names were before, and so is where a path leads and what is
//! there. Whether an act traps and what it leaves where it writes is told by the values where it reads and writes, and by what
//! the variables that it names were before (`specs/Local.antt`).

ghost use Rattle.bl_eval_laws.specs.Local.{ActsAreLocal, PathsAreLocal, ValuesAreLocal};

/// Expressions and paths look at nothing but what they mention.
pub fn values_are_local()
    ensures values { ValuesAreLocal }
    ensures paths { PathsAreLocal }
{}

/// Acts look at nothing but what they read and write.
pub fn acts_are_local()
    ensures { ActsAreLocal }
{}
