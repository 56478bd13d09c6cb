//! Casts: functions of the prelude that give the number that they take, where the type holds it.

ghost use Rattle.std.specs.Prelude.{◌≡◌};
ghost use Rattle.bl_tree.specs.Scalar.{in_range};
ghost use Rattle.bl_ctext_semantics.specs.Builtin.{builtin_of};
ghost use Rattle.bl_ctext_semantics.specs.inner.Maps.{named_entries};
ghost use Rattle.bl_ctext_semantics.specs.Tables.{found};
ghost use Rattle.bl_simplify_facts.specs.inner.Told.{cast_of};

use bl_ctext::{BUILTINS, Builtin};
use bl_simplify_laws::facts::Fact;
use bl_tree::Scalar;

/// The fact of a call of the function of a name with one argument, whose number may be known.
pub fn cast_fact(name: &str, number: Option<i128>) -> Option<Fact>
    ensures { result ≡ cast_of (builtin_of name.now) number }
{
    match (number, builtin(name)) {
        (Some(n), Some(Builtin::Cast(_, ty))) if holds(ty, n) => Some(Fact::Is(n)),
        _ => None,
    }
}

/// The function of the prelude of this name.
fn builtin(name: &str) -> Option<Builtin>
    ensures { result ≡ builtin_of name.now }
{
    builtin_in(&BUILTINS, name)
}

fn builtin_in(entries: &[(&str, Builtin)], name: &str) -> Option<Builtin>
    ensures { result ≡ found name.now (named_entries entries.now) }
{
    for (of, builtin) in entries {
        if *of == name {
            return Some(*builtin);
        }
    }
    None
}

fn holds(ty: Scalar, n: i128) -> bool
    ensures { result ≡ in_range ty n }
{
    let range = ty.range();
    range.low <= n && n <= range.high
}
