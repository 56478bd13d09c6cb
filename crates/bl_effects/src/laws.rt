//! Laws of effects, each the contract of a function that does nothing.

ghost use Rattle.std.specs.Prelude.{◌≡◌, true, List, Some, All, Contains, AllPairs, IsTrue, ◌↔◌};
ghost use Rattle.bl_tree.specs.declared.tree.Stmt.{Stmt};
ghost use Rattle.bl_tree.specs.declared.tree.Unit.{Unit as UnitDef};
ghost use Rattle.bl_tree.specs.declared.static_path.Static.{Static};
ghost use Rattle.bl_tree.specs.Effects.{reads, writes};
ghost use Rattle.bl_tree.specs.Instant.{instant};
ghost use Rattle.bl_effects.specs.Rules.{loops_in};
ghost use Rattle.bl_tree.specs.Static.{overlaps, precedes, set_of};
ghost use Rattle.bl_effects.specs.Surface.{surface_of};
ghost use Rattle.bl_tree.specs.Within.{Effect, StandsInUnits, Within, place_of};
ghost use Rattle.bl_effects.specs.Table.{TableHasPlace, TableTellsEffects, instant_at, reads_at, writes_at};

/// A set has the static paths of the list that it is made from, in ascending order, each once.
pub fn sets_are_ascending()
    ensures members { (paths : List Static) (path : Static) → Contains (set_of paths) path ↔ Contains paths path }
    ensures order { (paths : List Static) → AllPairs (λ one later. IsTrue (precedes one later)) (set_of paths) }
{}

/// Every static path overlaps itself, and of two that overlap each overlaps the other.
pub fn overlap_is_mutual()
    ensures itself { (path : Static) → overlaps path path ≡ true }
    ensures mutual { (one other : Static) → overlaps one other ≡ overlaps other one }
{}

/// What stands in a statement reads and writes no more than the statement.
pub fn statements_have_the_union()
    ensures reads { (s outer : Stmt) → Within s outer → All (Contains (reads outer)) (reads s) }
    ensures writes { (s outer : Stmt) → Within s outer → All (Contains (writes outer)) (writes s) }
{}

/// What the surface and the loops of a statement carry along is whether it may end in the tick in which it begins.
pub fn endings_agree()
    ensures surface { (s : Stmt) → (surface_of s).instant ≡ instant s }
    ensures loops { (s : Stmt) → (loops_in s).instant ≡ instant s }
{}

/// A table that tells of a program has the places of all its statements, with their effects.
pub fn told_statements_are_there()
    ensures has { (effects : List Effect) (units : List UnitDef) (s : Stmt) → TableTellsEffects effects units → StandsInUnits units s
        → TableHasPlace effects (place_of s) }
    ensures reads { (effects : List Effect) (units : List UnitDef) (s : Stmt) → TableTellsEffects effects units → StandsInUnits units s
        → reads_at effects (place_of s) ≡ reads s }
    ensures writes { (effects : List Effect) (units : List UnitDef) (s : Stmt) → TableTellsEffects effects units → StandsInUnits units s
        → writes_at effects (place_of s) ≡ writes s }
    ensures instant { (effects : List Effect) (units : List UnitDef) (s : Stmt) → TableTellsEffects effects units → StandsInUnits units s
        → instant_at effects (place_of s) ≡ instant s }
{}
