//! Laws of named trees in which no rule on names fails, each the contract of a function that does nothing.

ghost use Rattle.std.specs.Prelude.{◌≡◌, ℕ, true, List, length, map, take, slice_get, Some};
ghost use Rattle.bl_tree.specs.declared.tree.Unit.{Unit as UnitDef};
ghost use Rattle.bl_parse_tree.specs.declared.item.RawItem.{RawItem};
ghost use Rattle.bl_parse_tree.specs.WellFormed.{RawIsWellFormed};
ghost use Rattle.bl_names_tree.specs.declared.item.NamedConstant.{NamedConstant};
ghost use Rattle.bl_names_tree.specs.declared.item.NamedUnit.{NamedUnit};
ghost use Rattle.bl_names_tree.specs.Placed.{DeclaredBefore, expr_placed, unit_step};
ghost use Rattle.bl_names_scopes.specs.Rules.{Passes};
ghost use Rattle.bl_names.specs.Named.{named_program};
ghost use Rattle.bl_types_laws.specs.Standing.{unit_named};
ghost use Rattle.bl_types_laws.specs.Within.{calls_functions};

/// Where no rule on names fails, a unit at its place is named as `bl_types_laws` wants it, and each call in the value of a constant names a
/// function: of the units before it, which are any whose kinds are those of the named ones.
pub fn what_is_named_suits()
    ensures units { (items : List RawItem) (bytes : ℕ) → RawIsWellFormed items → Passes items → (k : ℕ) (unit : NamedUnit) →
        slice_get (named_program items bytes).units k ≡ Some unit → (earlier : List UnitDef) →
        map (λ (u : UnitDef). u.kind) earlier ≡ map (λ (u : NamedUnit). u.kind) (take k (named_program items bytes).units) → (counts after : DeclaredBefore) →
        counts.units ≡ k → unit_step (named_program items bytes).constants unit counts ≡ Some after →
        unit_named (named_program items bytes).constants earlier unit ≡ true }
    ensures constants { (items : List RawItem) (bytes : ℕ) → RawIsWellFormed items → Passes items → (k : ℕ) (constant : NamedConstant) →
        slice_get (named_program items bytes).constants k ≡ Some constant → (earlier : List UnitDef) (counts : DeclaredBefore) →
        counts.units ≡ length earlier →
        map (λ (u : UnitDef). u.kind) earlier ≡ map (λ (u : NamedUnit). u.kind) (take (length earlier) (named_program items bytes).units) →
        expr_placed counts constant.value ≡ true → calls_functions earlier constant.value ≡ true }
{}
