//! What a declaration declares, and what the place of a use needs.

ghost use Rattle.std.specs.Prelude.{◌≡◌};
ghost use Rattle.bl_names_scopes.specs.Kinds.{suits};
ghost use Rattle.bl_names_scopes.specs.Marks.{kind_of_unit};

use bl_tree::tree::UnitKind;

/// What a declaration declares.
#[derive(Clone, Copy, PartialEq, Eq, Debug)]
pub enum Kind {
    Struct,
    Constant,
    /// A `var`, a `let` or a parameter.
    Variable,
    Function,
    Activity,
    /// The field of a struct, which no use names.
    Field,
}

/// What the place of a use needs.
#[derive(Clone, Copy, PartialEq, Eq, Debug)]
pub enum Wanted {
    /// A struct, as a type.
    Type,
    /// A constant, as the length of an array.
    Length,
    /// A function, as it is called.
    Function,
    /// An activity, as it is run.
    Activity,
    /// A variable, as it is assigned, lent to an output or asked for its previous value.
    Variable,
    /// A variable or constant, as it is read.
    Value,
}

/// Whether a declaration of the kind is what the place of a use needs.
pub fn suits(wanted: Wanted, kind: Kind) -> bool
    ensures { result ≡ suits wanted kind }
{
    match wanted {
        Wanted::Type => matches!(kind, Kind::Struct),
        Wanted::Length => matches!(kind, Kind::Constant),
        Wanted::Function => matches!(kind, Kind::Function),
        Wanted::Activity => matches!(kind, Kind::Activity),
        Wanted::Variable => matches!(kind, Kind::Variable),
        Wanted::Value => matches!(kind, Kind::Variable | Kind::Constant),
    }
}

/// What a unit's declaration declares.
pub fn of_unit(kind: UnitKind) -> Kind
    ensures { result ≡ kind_of_unit kind }
{
    match kind {
        UnitKind::Function => Kind::Function,
        UnitKind::Activity => Kind::Activity,
    }
}
