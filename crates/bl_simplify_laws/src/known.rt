//! What is known of the numbers of spots, and what conditions give by it (`specs/Known.antt`). Lemmas only.

ghost use Rattle.bl_simplify_laws.specs.Known.{Decided, Filters, ToldHolds};

/// What is told of an expression holds, an `if` that it decides does what the branch does, and what a condition gave filters.
pub fn told_holds()
    ensures told { ToldHolds }
    ensures decided { Decided }
    ensures filters { Filters }
{}
